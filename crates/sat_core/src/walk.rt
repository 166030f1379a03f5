ghost use Rattle.clause_store.specs.Clauses.{has, opposite, are_within};
ghost use Rattle.literal_signs.specs.Marked.{marked_set};
ghost use Rattle.sat_core.specs.declared.trail.Entry.{Entry as TrailEntry};
ghost use Rattle.sat_core.specs.Trail.{IsTrail};
ghost use Rattle.sat_core.specs.Walked.{IsWalking, IsWalked};
ghost use Rattle.std.specs.Prelude.{◌≡◌, ◌+◌, ◌<◌, ◌≤◌, ℕ, IsTrue, IfOk, IfSome, OnOk, Some, false, length};
ghost use Rattle.std.specs.Prelude.{slice_get, true};

use crate::trail::Entry;
use clause_store::ClauseStore;
use literal_signs::{Sign, is_marked, resolve};
use rdf_terms::OutOfMemory;

/// Resolves the marked set with the reason of the entry, whose opposite is marked.
fn resolve_at<S: ClauseStore>(
    store: &S,
    trail: &[Entry],
    starts: &[usize],
    at: usize,
    reason: usize,
    signs: &mut [Sign],
    ids: &mut Vec<u64>,
) -> Result<(), OutOfMemory>
    requires trail { IsTrail (S.clauses store.now) trail.now starts.now }
    requires below { IsTrue (are_within (length signs.old) (S.clauses store.now)) }
    requires entry { (e : TrailEntry) × (slice_get trail.now at ≡ Some e) × (e.reason ≡ Some reason)
        × (marked_set signs.old (opposite e.lit) ≡ true) }
    requires walking { IsWalking
        (S.clauses store.now) trail.now starts.now (at + 1) ids.old.items (marked_set signs.old) }
    ensures walking { OnOk result (
        IsWalking (S.clauses store.now) trail.now starts.now at ids.new.items (marked_set signs.new)) }
    ensures length { length signs.new ≡ length signs.old }
{
    let _ = resolve(signs, store.clause(reason));
    ids.push(reason as u64)?;
    Ok(())
}

/// Whether no entry between those places has its opposite marked.
fn none_opposed(trail: &[Entry], from: usize, to: usize, signs: &[Sign]) -> bool
    requires within { to ≤ length trail.now }
    requires below { (k : ℕ) (e : TrailEntry) → slice_get trail.now k ≡ Some e → e.lit.var < length signs.now }
    ensures { result ≡ true → (k : ℕ) (e : TrailEntry) → from ≤ k → k < to → slice_get trail.now k ≡ Some e
        → marked_set signs.now (opposite e.lit) ≡ false }
{
    for k in from..to {
        let entry = trail[k];
        if is_marked(signs[entry.lit.var], !entry.lit.positive) {
            return false;
        }
    }
    true
}

/// The start of the last level.
fn last_start(starts: &[usize]) -> Option<usize>
    ensures { IfSome result (λ n. (j : ℕ) × (slice_get starts.now j ≡ Some n)) }
{
    if starts.is_empty() {
        return None;
    }
    Some(starts[starts.len() - 1])
}

/// Whether no entry of the last level before that one has its opposite marked: then its start.
fn alone_since(trail: &[Entry], starts: &[usize], at: usize, signs: &[Sign]) -> Option<usize>
    requires within { at ≤ length trail.now }
    requires below { (k : ℕ) (e : TrailEntry) → slice_get trail.now k ≡ Some e → e.lit.var < length signs.now }
    ensures { IfSome result (λ n. (j : ℕ) × (slice_get starts.now j ≡ Some n)
        × ((k : ℕ) (e : TrailEntry) → n ≤ k → k < at → slice_get trail.now k ≡ Some e
        → marked_set signs.now (opposite e.lit) ≡ false)) }
{
    match last_start(starts) {
        None => None,
        Some(start) => {
            if none_opposed(trail, start, at, signs) {
                Some(start)
            } else {
                None
            }
        }
    }
}

/// Goes back along the trail, and resolves with the reason of each entry whose opposite is marked, until one literal of
/// the last level is left (the first unique implication point). Answers where that level starts, or 0 at level 0.
pub(crate) fn walk_back<S: ClauseStore>(
    store: &S,
    trail: &[Entry],
    starts: &[usize],
    signs: &mut [Sign],
    ids: &mut Vec<u64>,
) -> Result<usize, OutOfMemory>
    requires trail { IsTrail (S.clauses store.now) trail.now starts.now }
    requires below { IsTrue (are_within (length signs.old) (S.clauses store.now)) }
    requires walking { IsWalking
        (S.clauses store.now) trail.now starts.now (length trail.now) ids.old.items (marked_set signs.old) }
    ensures walked { IfOk result (λ n.
        IsWalked (S.clauses store.now) trail.now starts.now ids.new.items n (marked_set signs.new)) }
    ensures within { IfOk result (λ n. n ≤ length trail.now) }
    ensures length { length signs.new ≡ length signs.old }
{
    let mut at = trail.len();
    while at > 0 {
        at -= 1;
        let entry = trail[at];
        match entry.reason {
            None => return Ok(at),
            Some(reason) => {
                if is_marked(signs[entry.lit.var], !entry.lit.positive) {
                    if let Some(start) = alone_since(trail, starts, at, signs) {
                        return Ok(start);
                    }
                    resolve_at(store, trail, starts, at, reason, signs, ids)?;
                }
            }
        }
    }
    Ok(at)
}
