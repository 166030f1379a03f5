ghost use Rattle.std.specs.Prelude.{◌≡◌, ◌<◌, IsTrue, IfOk, length};
ghost use Rattle.rdf_terms.specs.Nodes.{is_rising};
ghost use Rattle.rdf_terms.specs.Members.{IsListOf};
ghost use Rattle.shapes_graph.specs.PathForms.{paths};
ghost use Rattle.shapes_graph.specs.Reach.{Reaches};

use crate::{Direction, NumberedGraph, reached_from};
use rdf_terms::{Graph, OutOfMemory, Term, Terms};
use shapes_graph::Shapes;
use std::alloc::Global;

/// The terms that path `p` of the shapes graph reaches from a term in the graph, in order and each once
/// (SHACL 2017, section 2.3.1). A walk of no step reaches the term itself, also where the graph has it
/// not.
pub fn reached(
    alloc: Global,
    shapes: &Shapes,
    p: usize,
    graph: &Graph,
    from: &Term,
) -> Result<Terms, OutOfMemory>
    requires { p < length (paths shapes.now) }
    ensures rises { IfOk result (λ ts. IsTrue (is_rising ts)) }
    ensures exact { IfOk result (λ ts. IsListOf (Reaches shapes.now p graph.now from.now) ts) }
{
    let mut more = Terms::new(alloc);
    more.push(from.copy(alloc)?)?;
    let numbered = NumberedGraph::new(alloc, graph, more.as_slice())?;
    match numbered.nodes().index_of_term(from) {
        Some(start) => {
            let found = reached_from(
                alloc,
                &numbered,
                shapes.paths(),
                p,
                Direction::Forward,
                &[start],
            )?;
            numbered.terms_at(alloc, found.as_slice())
        }
        None => unreachable!(),
    }
}
