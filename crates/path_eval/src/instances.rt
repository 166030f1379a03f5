ghost use Rattle.std.specs.Prelude.{◌≡◌, ◌↔◌, ◌<◌, IsTrue, IfOk, length};
ghost use Rattle.std.specs.List.Sorted.{IsStrictlyIncreasing};
ghost use Rattle.rdf_terms.specs.Members.{IsListOf};
ghost use Rattle.rdf_navigation.specs.Numbers.{term_at};
ghost use Rattle.path_eval.specs.Numbered.{terms_at, AreNumbers};
ghost use Rattle.std.specs.List.{list_any};
ghost use Rattle.rdf_terms.specs.Nodes.{terms, has_term};
ghost use Rattle.rdf_terms.specs.Graph.{triples_of as triples_of_graph};
ghost use Rattle.rdf_terms.specs.Vocab.Rdf.{type_ as rdf_type};
ghost use Rattle.rdf_navigation.specs.Instances.{IsInstance, is_instance};

use crate::{Direction, NumberedGraph, reached_from};
use rdf_navigation::subclasses_of;
use rdf_terms::vocab::rdf;
use rdf_terms::{Graph, Nodes, OutOfMemory, Term, Triple};
use shapes_graph::Shapes;
use std::alloc::Global;

/// Whether the set has the object of one of the triples.
fn any_object_in(nodes: &Nodes, triples: &[Triple]) -> bool
    ensures { result ≡ list_any (λ t. has_term nodes.now t.object) triples.now }
{
    triples.iter().any(|triple| has_object(nodes, triple))
}

fn has_object(nodes: &Nodes, triple: &Triple) -> bool
    ensures { result ≡ has_term nodes.now triple.now.object }
{
    nodes.index_of_term(&triple.object).is_some()
}

/// Whether the node has a term of the set as a value of `rdf:type`. It takes no memory.
pub fn has_type_among(graph: &Graph, node: &Term, classes: &Nodes) -> bool
    ensures { result ≡ list_any (λ t. has_term classes.now t.object)
        (triples_of_graph graph.now node.now rdf_type) }
{
    any_object_in(classes, graph.triples_of(node, rdf::TYPE))
}

/// Whether the node is a SHACL instance of the class (SHACL 2017, section 1.1): it has the class or one
/// of its SHACL subclasses as a value of `rdf:type`.
pub fn is_instance(
    alloc: Global,
    graph: &Graph,
    node: &Term,
    class: &Term,
) -> Result<bool, OutOfMemory>
    ensures exact { IfOk result (λ b. IsTrue b ↔ IsInstance graph.now node.now class.now) }
    ensures test { IfOk result (λ b. b ≡ is_instance graph.now node.now class.now) }
{
    let classes = subclasses_of(alloc, graph, class)?;
    Ok(any_object_in(&classes, graph.triples_of(node, rdf::TYPE)))
}

/// The number of the path from a node to the classes that it is a SHACL instance of.
const INSTANCE_PATH: usize = 3;

/// The numbers of the SHACL instances of the class of this number, ascending. Subclasses are found from
/// the class downwards, and then their instances.
pub fn instances_from(
    alloc: Global,
    shapes: &Shapes,
    graph: &NumberedGraph<'_>,
    class: usize,
) -> Result<Vec<usize>, OutOfMemory>
    requires { class < length (terms graph.now.nodes) }
    ensures within { IfOk result (λ v. AreNumbers graph.now.nodes v.items) }
    ensures rises { IfOk result (λ v. IsStrictlyIncreasing v.items) }
    ensures exact { IfOk result (λ v. IsListOf
        (λ x. IsInstance graph.now.graph x (term_at graph.now.nodes class)) (terms_at graph.now.nodes v.items)) }
{
    reached_from(
        alloc,
        graph,
        shapes.paths(),
        INSTANCE_PATH,
        Direction::Backward,
        &[class],
    )
}
