ghost use Rattle.std.specs.Prelude.{◌≡◌, ◌<◌, ◌++◌, IsTrue, OnOk, IfOk, length, flat_map};
ghost use Rattle.std.specs.List.Sorted.{IsStrictlyIncreasing};
ghost use Rattle.rdf_terms.specs.Members.{IsListOf};
ghost use Rattle.rdf_terms.specs.Nodes.{has_term, is_rising};
ghost use Rattle.shapes_profile.specs.Shapes.{shape_terms};
ghost use Rattle.shapes_graph.specs.Targets.{IsFocus};
ghost use Rattle.path_eval.specs.Numbered.{terms_at, AreNumbers};
ghost use Rattle.targets.specs.Selection.{named_nodes};

use crate::selection::selected_numbers;
use path_eval::NumberedGraph;
use rdf_terms::{Graph, OutOfMemory, Terms};
use shapes_graph::{Shapes, Target};
use std::alloc::Global;

/// The numbers of the focus nodes of shape `s` in the graph, ascending (SHACL 2017, section 2.1.3). A node
/// that a target names, and that has no number, is left out.
pub fn focus_numbers(
    alloc: Global,
    shapes: &Shapes,
    s: usize,
    graph: &NumberedGraph<'_>,
) -> Result<Vec<usize>, OutOfMemory>
    requires { s < length (shape_terms shapes.now) }
    ensures within { IfOk result (λ v. AreNumbers graph.now.nodes v.items) }
    ensures rises { IfOk result (λ v. IsStrictlyIncreasing v.items) }
    ensures exact { IfOk result (λ v. IsListOf
        (λ x. IsTrue (has_term graph.now.nodes x) × IsFocus shapes.now s graph.now.graph x)
        (terms_at graph.now.nodes v.items)) }
{
    let _triples = shapes.triples();
    let mut found = Vec::new(alloc);
    'targets: for target in shapes.targets_of(s) {
        let selected = selected_numbers(alloc, shapes, graph, target)?;
        found.extend_from_slice(selected.as_slice())?;
    }
    found.sort_unstable();
    found.dedup();
    Ok(found)
}

/// Appends a copy of the node that a target names.
fn push_named(alloc: Global, terms: &mut Terms, target: &Target) -> Result<(), OutOfMemory>
    ensures { OnOk result (terms.new ≡ terms.old ++ named_nodes target.now) }
{
    match target {
        Target::Node(node) => terms.push(node.copy(alloc)?),
        Target::Class(_) | Target::SubjectsOf(_) | Target::ObjectsOf(_) => Ok(()),
    }
}

/// Copies of the nodes that targets name.
fn named_nodes(alloc: Global, targets: &[Target]) -> Result<Terms, OutOfMemory>
    ensures { IfOk result (λ ts. ts ≡ flat_map named_nodes targets.now) }
{
    let mut terms = Terms::new(alloc);
    'targets: for target in targets {
        push_named(alloc, &mut terms, target)?;
    }
    Ok(terms)
}

/// The focus nodes of shape `s` in the graph, in order and each once (SHACL 2017, section 2.1.3): the
/// nodes that its targets name, also where the graph has them not, the SHACL instances of its target
/// classes, and the subjects and the objects of the triples with its target predicates.
pub fn focus_nodes(
    alloc: Global,
    shapes: &Shapes,
    s: usize,
    graph: &Graph,
) -> Result<Terms, OutOfMemory>
    requires { s < length (shape_terms shapes.now) }
    ensures rises { IfOk result (λ ts. IsTrue (is_rising ts)) }
    ensures exact { IfOk result (λ ts. IsListOf (IsFocus shapes.now s graph.now) ts) }
{
    let _triples = shapes.triples();
    let named = named_nodes(alloc, shapes.targets_of(s))?;
    let numbered = NumberedGraph::new(alloc, graph, named.as_slice())?;
    let found = focus_numbers(alloc, shapes, s, &numbered)?;
    numbered.terms_at(alloc, found.as_slice())
}
