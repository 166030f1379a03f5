ghost use Rattle.std.specs.Prelude.{◌≡◌, ◌<◌, ◌≤◌, ℕ, Some, length, slice_get, true};
ghost use Rattle.clause_store.specs.Clauses.{opposite};
ghost use Rattle.literal_signs.specs.Marked.{marked_set};
ghost use Rattle.sat_core.specs.declared.trail.Entry.{Entry as TrailEntry};

use crate::trail::Entry;
use literal_signs::{Sign, is_marked};

/// How many levels start no later than there.
fn levels_upto(starts: &[usize], place: usize) -> usize
    ensures within { result ≤ length starts.now }
    ensures upto { (j k : ℕ) → j < result → slice_get starts.now j ≡ Some k → k ≤ place }
{
    for n in 0..starts.len() {
        if starts[n] > place {
            return n;
        }
    }
    starts.len()
}

/// The level of the newest entry before that place whose opposite is marked; 0 without one.
pub(crate) fn keep_level(trail: &[Entry], starts: &[usize], signs: &[Sign], at: usize) -> usize
    requires within { at ≤ length trail.now }
    requires below { (k : ℕ) (e : TrailEntry) → slice_get trail.now k ≡ Some e → e.lit.var < length signs.now }
    ensures within { result ≤ length starts.now }
    ensures kept { (j k : ℕ) → j < result → slice_get starts.now j ≡ Some k
        → (q : ℕ) × (e : TrailEntry) × (k ≤ q) × (q < at) × (slice_get trail.now q ≡ Some e)
        × (marked_set signs.now (opposite e.lit) ≡ true) }
{
    for i in 0..at {
        let place = at - 1 - i;
        let entry = trail[place];
        if is_marked(signs[entry.lit.var], !entry.lit.positive) {
            return levels_upto(starts, place);
        }
    }
    0
}
