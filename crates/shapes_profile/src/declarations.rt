ghost use Rattle.std.specs.Prelude.{◌≡◌, IfOk};
ghost use Rattle.rdf_terms.specs.Nodes.{has_term};
ghost use Rattle.rdf_terms.specs.Vocab.Sh.{node_shape, property_shape};
ghost use Rattle.rdf_terms.specs.Vocab.Rdfs.{class as rdfs_class};
ghost use Rattle.rdf_navigation.specs.Instances.{is_instance};
ghost use Rattle.shapes_profile.specs.Shapes.{is_declared, members_or_none};
ghost use Rattle.shapes_profile.specs.Shapes.{is_implicit_class};
ghost use Rattle.shapes_profile.specs.DeclaredNodes.{AreInstances};

use rdf_navigation::{Lists, instances_of};
use rdf_terms::vocab::{rdfs, sh};
use rdf_terms::{Graph, Nodes, OutOfMemory, Term, Terms, Text};
use std::alloc::Global;
use std::marker::Model;

/// Whether the set has the term.
#[tactic(auto, using(rdf_terms::proofs::NodesLaws::has_term_at))]
pub fn has_node(nodes: &Nodes, term: &Term) -> bool
    ensures { result ≡ has_term nodes.now term.now }
{
    match nodes.index_of_term(term) {
        Some(_) => true,
        None => false,
    }
}

/// All SHACL instances of the class of this IRI.
fn instances_of_named(alloc: Global, graph: &Graph, class: &str) -> Result<Nodes, OutOfMemory>
    ensures { IfOk result (AreInstances graph.now (Term.Iri class.now)) }
{
    let class = Term::Iri(Text::from_str(alloc, class)?);
    instances_of(alloc, graph, &class)
}

/// A shapes graph with its lists, its classes, and the nodes that it declares as shapes. Contracts
/// see the graph.
#[derive(Drop)]
pub struct Declarations<'a> {
    graph: &'a Graph,
    lists: Lists<'a>,
    classes: Nodes,
    node_shapes: Nodes,
    property_shapes: Nodes,
}

impl<'a> Model for Declarations<'a> {
    ghost use Rattle.std.specs.Prelude.{◌≡◌};
    ghost use Rattle.rdf_terms.specs.Graph.{Graph as Triples, code};
    ghost use Rattle.rdf_terms.specs.Vocab.Sh.{node_shape, property_shape};
    ghost use Rattle.rdf_terms.specs.Vocab.Rdfs.{class as rdfs_class};
    ghost use Rattle.shapes_profile.specs.DeclaredNodes.{AreInstances};

    ghost Value = { Triples };

    ghost coded = { code };

    ghost view = { λ d. d.graph.now };

    ghost invariant = { λ d. (d.lists ≡ d.graph.now)
        × AreInstances d.graph.now rdfs_class d.classes
        × AreInstances d.graph.now node_shape d.node_shapes
        × AreInstances d.graph.now property_shape d.property_shapes };
}

impl<'a> Declarations<'a> {
    /// Reads the lists and finds the declared nodes of a graph.
    pub fn new(alloc: Global, graph: &'a Graph) -> Result<Declarations<'a>, OutOfMemory>
        ensures { IfOk result (λ d. d ≡ graph.now) }
    {
        let lists = Lists::new(alloc, graph)?;
        let classes = instances_of_named(alloc, graph, rdfs::CLASS)?;
        let node_shapes = instances_of_named(alloc, graph, sh::NODE_SHAPE)?;
        let property_shapes = instances_of_named(alloc, graph, sh::PROPERTY_SHAPE)?;
        Ok(Declarations {
            graph,
            lists,
            classes,
            node_shapes,
            property_shapes,
        })
    }

    /// The graph.
    pub fn graph(&self) -> &'a Graph
        ensures { result.now ≡ self.now }
    {
        self.graph
    }

    /// Its lists.
    pub fn lists(&self) -> &Lists<'a>
        ensures { result.now ≡ self.now }
    {
        &self.lists
    }

    /// Whether the node is a SHACL instance of `rdfs:Class`.
    pub fn is_class(&self, node: &Term) -> bool
        ensures { result ≡ is_instance self.now node.now rdfs_class }
    {
        has_node(&self.classes, node)
    }

    /// Whether the node is a SHACL instance of `sh:NodeShape`.
    pub fn is_declared_node_shape(&self, node: &Term) -> bool
        ensures { result ≡ is_instance self.now node.now node_shape }
    {
        has_node(&self.node_shapes, node)
    }

    /// Whether the node is a SHACL instance of `sh:PropertyShape`.
    pub fn is_declared_property_shape(&self, node: &Term) -> bool
        ensures { result ≡ is_instance self.now node.now property_shape }
    {
        has_node(&self.property_shapes, node)
    }

    /// Whether the node is a SHACL instance of `sh:NodeShape` or `sh:PropertyShape`.
    pub fn is_declared(&self, node: &Term) -> bool
        ensures { result ≡ is_declared self.now node.now }
    {
        self.is_declared_node_shape(node) || self.is_declared_property_shape(node)
    }

    /// Whether the node is an IRI that is a class and declared as a shape, and so a target of its own
    /// (SHACL 2017, section 2.1.3.3).
    pub fn is_implicit_class(&self, node: &Term) -> bool
        ensures { result ≡ is_implicit_class self.now node.now }
    {
        node.is_iri() && self.is_class(node) && self.is_declared(node)
    }

    /// Copies of the members of a list, none where the node is no list.
    pub fn members_or_none(&self, alloc: Global, node: &Term) -> Result<Terms, OutOfMemory>
        ensures { IfOk result (λ ts. ts ≡ members_or_none self.now node.now) }
    {
        match self.lists.members(alloc, node)? {
            Some(members) => Ok(members),
            None => Ok(Terms::new(alloc)),
        }
    }
}
