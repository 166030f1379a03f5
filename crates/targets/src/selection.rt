ghost use Rattle.std.specs.Prelude.{◌≡◌, [], IsTrue, IfOk, length};
ghost use Rattle.rdf_terms.specs.Members.{IsListOf};
ghost use Rattle.rdf_terms.specs.Nodes.{terms, has_term};
ghost use Rattle.rdf_navigation.specs.Instances.{IsInstance};
ghost use Rattle.path_eval.specs.Numbered.{terms_at, AreNumbers};
ghost use Rattle.targets.specs.Selection.{IsSelected};

use path_eval::{Direction, NumberedGraph, instances_from};
use rdf_terms::{OutOfMemory, Term};
use shapes_graph::{Shapes, Target};
use std::alloc::Global;

/// The number of a node alone, where it has one.
fn node_numbers(
    alloc: Global,
    graph: &NumberedGraph<'_>,
    node: &Term,
) -> Result<Vec<usize>, OutOfMemory>
    ensures within { IfOk result (λ v. AreNumbers graph.now.nodes v.items) }
    ensures exact { IfOk result (λ v. IsListOf (λ x. IsTrue (has_term graph.now.nodes x) × (node.now ≡ x))
        (terms_at graph.now.nodes v.items)) }
{
    match graph.nodes().index_of_term(node) {
        Some(number) => Ok(vec![in alloc; number]?),
        None => Ok(Vec::new(alloc)),
    }
}

/// The numbers of the SHACL instances of a class.
fn instance_numbers(
    alloc: Global,
    shapes: &Shapes,
    graph: &NumberedGraph<'_>,
    class: &Term,
) -> Result<Vec<usize>, OutOfMemory>
    ensures within { IfOk result (λ v. AreNumbers graph.now.nodes v.items) }
    ensures exact { IfOk result (λ v. IsListOf (λ x. IsInstance graph.now.graph x class.now)
        (terms_at graph.now.nodes v.items)) }
{
    match graph.nodes().index_of_term(class) {
        Some(number) => instances_from(alloc, shapes, graph, number),
        None => Ok(Vec::new(alloc)),
    }
}

/// The numbers of the nodes that a target selects. A node without a number is left out.
pub(crate) fn selected_numbers(
    alloc: Global,
    shapes: &Shapes,
    graph: &NumberedGraph<'_>,
    target: &Target,
) -> Result<Vec<usize>, OutOfMemory>
    ensures within { IfOk result (λ v. AreNumbers graph.now.nodes v.items) }
    ensures exact { IfOk result (λ v. IsListOf
        (λ x. IsTrue (has_term graph.now.nodes x) × IsSelected graph.now.graph x target.now)
        (terms_at graph.now.nodes v.items)) }
{
    let _nodes = graph.nodes();
    match target {
        Target::Node(node) => node_numbers(alloc, graph, node),
        Target::Class(class) => instance_numbers(alloc, shapes, graph, class),
        Target::SubjectsOf(predicate) => {
            graph.ends_along(alloc, predicate.as_str(), Direction::Backward)
        }
        Target::ObjectsOf(predicate) => {
            graph.ends_along(alloc, predicate.as_str(), Direction::Forward)
        }
    }
}
