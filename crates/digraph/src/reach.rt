ghost use Rattle.std.specs.Prelude.{◌≡◌, ◌<◌, ◌≤◌, ◌↔◌, ℕ, false, [], length, replicate, slice_index_or, slice_get};
ghost use Rattle.std.specs.Prelude.{IsTrue, IfOk, OnOk, IfSome, IfNone};
ghost use Rattle.digraph.specs.Reach.{IsReached};
ghost use Rattle.digraph.specs.Digraph.{successors_at};
ghost use Rattle.digraph.specs.Search.{Findings, is_marked as has_mark, with_mark, with_marks};

use crate::Digraph;
use rdf_terms::OutOfMemory;
use std::alloc::Global;
use std::marker::Model;

/// For each number of the graph, whether a walk leads to it from one of the starts, which are reached themselves. A
/// start and a successor may be any number; nothing is said of those beyond the length, and no walk leads on from them.
pub fn reached(alloc: Global, graph: &Digraph, starts: &[usize]) -> Result<Vec<bool>, OutOfMemory>
    ensures length { IfOk result (λ v. length v.items ≡ length graph.now) }
    ensures exact { IfOk result (λ v. (x : ℕ) → x < length graph.now
        → IsTrue (slice_index_or v.items x false) ↔ IsReached (successors_at graph.now) starts.now x) }
{
    let mut found = Found::new(alloc, graph.len())?;
    found.mark_all(starts)?;
    let mut next = 0;
    'seeking: while let Some(y) = found.nth_met(next) {
        found.mark_all(graph.targets(y))?;
        next += 1;
    }
    Ok(found.into_marks())
}

/// What a search met: a mark for each number of the graph, and the marked ones in the order in which they were met.
#[derive(Drop)]
struct Found {
    marks: Vec<bool>,
    met: Vec<usize>,
}

impl Model for Found {
    ghost use Rattle.digraph.specs.Search.{Findings};

    ghost Value = { Findings };

    ghost view = { λ f. record { marks = f.marks.items; met = f.met.items } };
}

impl Found {
    /// Nothing met, of n numbers.
    fn new(alloc: Global, n: usize) -> Result<Found, OutOfMemory>
        ensures { IfOk result (λ f. f ≡ record { marks = replicate n false; met = [] }) }
    {
        Ok(Found {
            marks: vec![in alloc; false; n]?,
            met: Vec::new(alloc),
        })
    }

    /// Whether the number was met, or is beyond the graph.
    fn is_marked(&self, y: usize) -> bool
        ensures { result ≡ has_mark self.now.marks y }
    {
        if y < self.marks.len() {
            self.marks[y]
        } else {
            true
        }
    }

    fn mark(&mut self, y: usize) -> Result<(), OutOfMemory>
        ensures { OnOk result (self.new ≡ with_mark self.old y) }
    {
        if !self.is_marked(y) {
            self.met.push(y)?;
            self.marks[y] = true;
        }
        Ok(())
    }

    fn mark_all(&mut self, ys: &[usize]) -> Result<(), OutOfMemory>
        ensures { OnOk result (self.new ≡ with_marks self.old ys.now) }
    {
        'marking: for y in ys {
            self.mark(*y)?;
        }
        Ok(())
    }

    /// The number that was met at this place of the order, counted from 0.
    fn nth_met(&self, place: usize) -> Option<usize>
        ensures some { IfSome result (λ y. slice_get self.now.met place ≡ Some y) }
        ensures none { IfNone result (length self.now.met ≤ place) }
    {
        self.met.get(place).copied()
    }

    fn into_marks(self) -> Vec<bool>
        ensures { result.items ≡ self.marks }
    {
        let Found { marks, .. } = self;
        marks
    }
}
