ghost use Rattle.std.specs.Prelude.{◌≡◌, ◌<◌, ◌↔◌, ℕ, OnOk, IfOk, Contains};
ghost use Rattle.std.specs.List.Sorted.{IsStrictlyIncreasing};
ghost use Rattle.path_eval.specs.Visits.{Adds};

use indexmap::IndexSet;
use rdf_terms::OutOfMemory;
use std::alloc::Global;

/// A node that a search has come to, by its number, and the state in which it has.
#[derive(Clone, Copy, PartialEq, Eq, Hash)]
pub(crate) struct Visit {
    pub(crate) state: usize,
    pub(crate) node: usize,
}

/// The visits of a search, in order, each once.
pub(crate) type Visits = IndexSet<Visit>;

/// Appends the visit of a node in a state, unless it is there or the state isn't below the count.
pub(crate) fn add(
    visits: &mut Visits,
    count: usize,
    state: usize,
    node: usize,
) -> Result<(), OutOfMemory>
    ensures { OnOk result (Adds visits.old.keys visits.new.keys
        (λ v. (state < count) × (record { state = state; node = node } ≡ v))) }
{
    if state < count {
        visits.insert(Visit { state, node })?;
    }
    Ok(())
}

/// Appends the visits of these nodes in a state, likewise.
pub(crate) fn add_all(
    visits: &mut Visits,
    count: usize,
    state: usize,
    nodes: &[usize],
) -> Result<(), OutOfMemory>
    ensures { OnOk result (Adds visits.old.keys visits.new.keys
        (λ v. (state < count) × (state ≡ v.state) × Contains nodes.now v.node)) }
{
    'nodes: for node in nodes {
        add(visits, count, state, *node)?;
    }
    Ok(())
}

/// The nodes visited in the state 0, ascending.
pub(crate) fn found_nodes(alloc: Global, visits: &[Visit]) -> Result<Vec<usize>, OutOfMemory>
    ensures rises { IfOk result (λ v. IsStrictlyIncreasing v.items) }
    ensures exact { IfOk result (λ v. (i : ℕ) → Contains v.items i
        ↔ Contains visits.now (record { state = 0; node = i })) }
{
    let mut nodes = Vec::new(alloc);
    'visits: for visit in visits {
        if visit.state == 0 {
            nodes.push(visit.node)?;
        }
    }
    nodes.sort_unstable();
    nodes.dedup();
    Ok(nodes)
}
