ghost use Rattle.std.specs.Prelude.{◌≡◌, ◌<◌, ◌≤◌, ◌↔◌, ℕ, length, slice_index, All, IsTrue, IfOk, IfSome, IfNone};
ghost use Rattle.digraph.specs.Reach.{IsOnCircle};
ghost use Rattle.digraph.specs.Digraph.{successors_at, targets_at, IsFirst};
ghost use Rattle.digraph.specs.Labels.{NeverRise};

use crate::Digraph;
use crate::components::{Components, find_components, number_at};
use crate::reach::reached;
use rdf_terms::OutOfMemory;
use std::alloc::Global;

/// The least number of a node on a circle, and `None` exactly where no node is on one.
///
/// Each node whose successors all have smaller labels is on no circle, where labels never rise along a successor. The
/// labels of components, which never do, leave no other node before the first on a circle; so one node is searched.
pub fn first_on_circle(alloc: Global, graph: &Digraph) -> Result<Option<usize>, OutOfMemory>
    ensures some { IfOk result (λ o. IfSome o (IsFirst (IsOnCircle (successors_at graph.now)))) }
    ensures none { IfOk result (λ o. IfNone o ((x : ℕ) → ¬ (IsOnCircle (successors_at graph.now) x))) }
{
    let Components { labels, .. } = find_components(alloc, graph)?;
    let are_sound = never_rise(graph, &labels);
    'seeking: for x in 0..graph.len() {
        if is_on_circle(alloc, graph, &labels, are_sound, x)? {
            return Ok(Some(x));
        }
    }
    Ok(None)
}

/// Whether no successor of a node has a greater label than the node.
fn never_rise(graph: &Digraph, labels: &[usize]) -> bool
    ensures { IsTrue result → NeverRise graph.now labels.now }
{
    'checking: for x in 0..graph.len() {
        if !are_at_most(labels, number_at(labels, x), graph.targets(x)) {
            return false;
        }
    }
    true
}

/// Whether the node is on a circle: by the labels, or by a search.
fn is_on_circle(
    alloc: Global,
    graph: &Digraph,
    labels: &[usize],
    are_sound: bool,
    x: usize,
) -> Result<bool, OutOfMemory>
    requires sound { IsTrue are_sound → NeverRise graph.now labels.now }
    requires within { x < length graph.now }
    ensures { IfOk result (λ b. IsTrue b ↔ IsOnCircle (successors_at graph.now) x) }
{
    if are_sound && are_below(labels, number_at(labels, x), graph.targets(x)) {
        return Ok(false);
    }
    leads_to_itself(alloc, graph, x)
}

/// Whether a walk of one step or more leads from the node to itself, by a search.
fn leads_to_itself(alloc: Global, graph: &Digraph, x: usize) -> Result<bool, OutOfMemory>
    requires { x < length graph.now }
    ensures { IfOk result (λ b. IsTrue b ↔ IsOnCircle (successors_at graph.now) x) }
{
    let marks = reached(alloc, graph, graph.targets(x))?;
    Ok(marks[x])
}

/// Whether each of these nodes has a label of at most this.
fn are_at_most(labels: &[usize], label: usize, nodes: &[usize]) -> bool
    ensures { IsTrue result ↔ All (λ y. slice_index labels.now y ≤ label) nodes.now }
{
    nodes.iter().all(|y| number_at(labels, *y) <= label)
}

/// Whether each of these nodes has a smaller label than this.
fn are_below(labels: &[usize], label: usize, nodes: &[usize]) -> bool
    ensures { IsTrue result ↔ All (λ y. slice_index labels.now y < label) nodes.now }
{
    nodes.iter().all(|y| number_at(labels, *y) < label)
}
