ghost use Rattle.std.specs.Prelude.{◌≡◌, ◌<◌, ℕ, Some, None, min, length, replicate, IfOk};
ghost use Rattle.std.specs.Option.{option_map};
ghost use Rattle.digraph.specs.Depth.{depth_over, depth_in};
ghost use Rattle.digraph.specs.Digraph.{successors_at, look};
ghost use Rattle.digraph.specs.Settling.{depth_from, with_depth, with_depths, known_count, Covers};

use crate::Digraph;
use crate::components::leaving_order;
use rdf_terms::OutOfMemory;
use std::alloc::{AllocError, Global};

/// The depth of each number of the graph: 0 for a node without successors, else one more than that of its deepest
/// successor, and the cap in place of anything above it. `None` stands where there is no depth: the number is no node,
/// or a walk leads from it to no node or onto a circle.
pub fn depths(alloc: Global, graph: &Digraph, cap: usize) -> Result<Vec<Option<usize>>, OutOfMemory>
    ensures length { IfOk result (λ v. length v.items ≡ length graph.now) }

    // A node with a depth nests less deep than there are numbers, so that `value` misses none, as `any` says.
    ensures value { IfOk result (λ v. (x : ℕ) → look v.items x
        ≡ option_map (min cap) (depth_in (successors_at graph.now) (length graph.now) x)) }
    ensures any { IfOk result (λ v. (k x d : ℕ) → depth_in (successors_at graph.now) k x ≡ Some d
        → look v.items x ≡ Some (min cap d)) }
{
    let order = leaving_order(alloc, graph)?;
    let mut depths = nones(alloc, graph.len())?;
    let mut before = count_known(&depths);
    let mut is_open = true;
    'passing: while is_open {
        settle_all(graph, cap, &mut depths, &order);
        let after = count_known(&depths);
        is_open = before < after;
        before = after;
    }
    Ok(depths)
}

/// A table without any depth.
fn nones(alloc: Global, n: usize) -> Result<Vec<Option<usize>>, AllocError>
    ensures { IfOk result (λ v. v.items ≡ replicate n None) }
{
    vec![in alloc; None; n]
}

/// How many depths the table has.
fn count_known(depths: &[Option<usize>]) -> usize
    ensures { result ≡ known_count depths.now }
{
    let mut count = 0;
    'counting: for depth in depths {
        if depth.is_some() {
            count += 1;
        }
    }
    count
}

/// Settles the nodes of the order, one after another. Where each node stands behind its successors, this settles all
/// that have a depth.
fn settle_all(graph: &Digraph, cap: usize, depths: &mut Vec<Option<usize>>, order: &[usize])
    ensures { depths.new.items ≡ with_depths cap graph.now depths.old.items order.now }
{
    'settling: for x in order {
        settle(graph, cap, depths, *x);
    }
}

/// Writes the depth of a node into the table, if it isn't there and those of its successors are.
fn settle(graph: &Digraph, cap: usize, depths: &mut Vec<Option<usize>>, x: usize)
    ensures { depths.new.items ≡ with_depth cap graph.now depths.old.items x }
{
    if x < depths.len() && depths[x].is_none() {
        depths[x] = depth_of(graph, cap, depths, x);
    }
}

/// The depth of a node, up to the cap, from a table of the depths of its successors up to the cap.
fn depth_of(graph: &Digraph, cap: usize, depths: &[Option<usize>], x: usize) -> Option<usize>
    ensures { result ≡ depth_from cap graph.now (look depths.now) x }
{
    match graph.successors(x) {
        Some(successors) => join_depths(cap, depths, successors),
        None => None,
    }
}

/// The depth of a node with these successors, likewise.
fn join_depths(cap: usize, depths: &[Option<usize>], successors: &[usize]) -> Option<usize>
    ensures { result ≡ option_map (min cap) (depth_over (look depths.now) successors.now) }
{
    let mut depth = 0;
    'joining: for y in successors {
        let below = depth_at(depths, *y)?;
        depth = depth.max(below.saturating_add(1).min(cap));
    }
    Some(depth)
}

/// The depth that the table has at a number; `None` beyond the table too.
fn depth_at(depths: &[Option<usize>], x: usize) -> Option<usize>
    ensures { result ≡ look depths.now x }
{
    *depths.get(x)?
}
