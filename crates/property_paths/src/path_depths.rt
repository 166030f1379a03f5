ghost use Rattle.std.specs.Prelude.{◌≡◌, IfOk, IsTrue, Contains, length, min};
ghost use Rattle.std.specs.Option.{option_map};
ghost use Rattle.rdf_terms.specs.declared.term.Term.{Term as T};
ghost use Rattle.rdf_terms.specs.Nodes.{terms, has_term};
ghost use Rattle.rdf_terms.specs.Members.{IsSetOf};
ghost use Rattle.digraph.specs.Reach.{IsReached};
ghost use Rattle.rdf_navigation.specs.Numbers.{IsNumbered};
ghost use Rattle.property_paths.specs.Paths.{path_parts, graph_nodes};
ghost use Rattle.property_paths.specs.PathTable.{listed_depth};

use crate::path_nodes::path_parts;
use digraph::{Digraph, depths};
use rdf_navigation::{Lists, push_node, reached_terms};
use rdf_terms::{Graph, Nodes, OutOfMemory, Term, nodes_of};
use std::alloc::Global;
use std::marker::Model;

/// One more than the greatest depth that a path has in the profile of this project.
pub const DEPTH_CAP: usize = 33;

/// The nodes of the graph with the parts that they are made of as paths, as a directed graph over
/// their numbers.
fn part_digraph(
    alloc: Global,
    lists: &Lists<'_>,
    graph: &Graph,
    nodes: &Nodes,
) -> Result<Digraph, OutOfMemory>
    requires graph { graph.now ≡ lists.now }
    requires nodes { nodes.now ≡ graph_nodes lists.now }
    ensures len { IfOk result (λ g. length g ≡ length (terms (graph_nodes lists.now))) }
    ensures numbered { IfOk result (λ g. IsNumbered (path_parts lists.now) (graph_nodes lists.now) g) }
{
    let mut digraph = Digraph::new(alloc);
    'nodes: for node in nodes.as_slice() {
        let parts = path_parts(alloc, lists, graph, node)?;
        push_node(alloc, &mut digraph, nodes, parts)?;
    }
    Ok(digraph)
}

/// The nodes of a graph with the parts that they are made of as property paths, and their depths as
/// such. Contracts see the graph.
#[derive(Drop)]
pub struct PathDepths<'a> {
    graph: &'a Graph,
    nodes: Nodes,
    parts: Digraph,
    depths: Vec<Option<usize>>,
}

impl<'a> Model for PathDepths<'a> {
    ghost use Rattle.rdf_terms.specs.Graph.{Graph as Triples, code};
    ghost use Rattle.property_paths.specs.PathTable.{ArePathDepths, ArePathParts};

    ghost Value = { Triples };

    ghost coded = { code };

    ghost view = { λ p. p.graph.now };

    ghost invariant = { λ p. ArePathDepths p.graph.now p.nodes p.depths.items
        × ArePathParts p.graph.now p.nodes p.parts };
}

impl<'a> PathDepths<'a> {
    /// Finds of each node of the graph its parts and its depth as a path. The lists are those of the same
    /// graph.
    pub fn new(
        alloc: Global,
        lists: &Lists<'_>,
        graph: &'a Graph,
    ) -> Result<PathDepths<'a>, OutOfMemory>
        requires { graph.now ≡ lists.now }
        ensures { IfOk result (λ p. p ≡ graph.now) }
    {
        let nodes = nodes_of(alloc, graph, &Graph::new(alloc), &[])?;
        let parts = part_digraph(alloc, lists, graph, &nodes)?;
        let depths = depths(alloc, &parts, DEPTH_CAP)?;
        Ok(PathDepths {
            graph,
            nodes,
            parts,
            depths,
        })
    }

    /// The depth of a node of the graph as a path, where 33 stands for 33 and more. `None` where
    /// it is no path, and of a node that the graph has not.
    pub fn depth_of(&self, node: &Term) -> Option<usize>
        ensures { result ≡ option_map (min 33) (listed_depth self.now node.now) }
    {
        match self.nodes.index_of_term(node) {
            Some(place) => self.depths[place],
            None => None,
        }
    }

    /// The nodes that these nodes are made of as paths, and themselves.
    pub fn made_of(&self, alloc: Global, starts: &[Term]) -> Result<Nodes, OutOfMemory>
        requires { (t : T) → Contains starts.now t → IsTrue (has_term (graph_nodes self.now) t) }
        ensures { IfOk result (λ n. IsSetOf (IsReached (path_parts self.now) starts.now) n) }
    {
        reached_terms(alloc, &self.nodes, &self.parts, starts)
    }
}
