ghost use Rattle.clause_store.specs.Clauses.{has, is_clause, are_within, is_within};
ghost use Rattle.clause_store.specs.declared.lit.Lit.{Lit as Literal};
ghost use Rattle.clause_store.specs.Chained.{Derives, IsChained, empty_set};
ghost use Rattle.literal_signs.specs.Marked.{marked_set};
ghost use Rattle.sat_core.specs.Assignments.{IsAtRest, IsFresh, is_false};
ghost use Rattle.sat_core.specs.Solving.{HasEmpty, lits_of};
ghost use Rattle.sat_core.specs.Trail.{IsTrail};
ghost use Rattle.sat_core.specs.Walked.{IsWalked};
ghost use Rattle.std.specs.Prelude.{◌≡◌, ◌≢◌, ◌≤◌, ◌<◌, ◌++◌, ◌∷◌, [], ℕ, IfOk, IsTrue, List, Some, length};
ghost use Rattle.std.specs.Prelude.{slice_get, take};

use crate::levels::keep_level;
use crate::trail::Entry;
use crate::walk::walk_back;
use clause_store::{ClauseStore, Lit};
use literal_signs::{Sign, list_lits, take_lits, unite};
use rdf_terms::OutOfMemory;
use std::alloc::Global;

/// Signs of so many variables, all absent.
fn absent_signs(alloc: Global, len: usize) -> Result<Vec<Sign>, OutOfMemory>
    ensures nothing { IfOk result (λ v. marked_set v.items ≡ empty_set) }
    ensures length { IfOk result (λ v. length v.items ≡ len) }
{
    let signs = vec![in alloc; Sign::Absent; len]?;
    Ok(signs)
}

/// A clause that follows, the chain that gives it, and the level to go back to.
#[derive(Drop)]
pub(crate) struct LearnedClause {
    pub(crate) ids: Vec<u64>,
    pub(crate) lits: Vec<Lit>,
    pub(crate) keep: usize,
}

/// Where a walk ended: the chain, the set, and where its level starts.
#[derive(Drop)]
struct Walk {
    ids: Vec<u64>,
    signs: Vec<Sign>,
    at: usize,
}

/// Resolves the clause at the place, which is false, with the reasons of what makes it false.
fn walk_from<S: ClauseStore>(
    alloc: Global,
    store: &S,
    trail: &[Entry],
    starts: &[usize],
    vars: usize,
    conflict: usize,
) -> Result<Walk, OutOfMemory>
    requires trail { IsTrail (S.clauses store.now) trail.now starts.now }
    requires below { IsTrue (are_within vars (S.clauses store.now)) }
    requires conflict { (c : List Literal) × (slice_get (S.clauses store.now) conflict ≡ Some c)
        × IsTrue (is_false (lits_of trail.now) c) }
    ensures walked { IfOk result (λ w.
        IsWalked (S.clauses store.now) trail.now starts.now w.ids.items w.at (marked_set w.signs.items)) }
    ensures length { IfOk result (λ w. length w.signs.items ≡ vars) }
    ensures within { IfOk result (λ w. w.at ≤ length trail.now) }
{
    let mut signs = absent_signs(alloc, vars)?;
    let mut ids = Vec::new(alloc);
    ids.push(conflict as u64)?;
    unite(signs.as_mut_slice(), store.clause(conflict));
    let at = walk_back(store, trail, starts, signs.as_mut_slice(), &mut ids)?;
    Ok(Walk { ids, signs, at })
}

/// The literals of the set to which these clauses resolve.
fn walked_lits<S: ClauseStore>(
    alloc: Global,
    store: &S,
    ids: &Vec<u64>,
    mut signs: Vec<Sign>,
) -> Result<Vec<Lit>, OutOfMemory>
    requires some { 0 < length ids.now.items }
    requires below { IsTrue (are_within (length signs.items) (S.clauses store.now)) }
    requires derives { Derives (S.clauses store.now) ids.now.items (marked_set signs.items) }
    ensures has { IfOk result (λ v. has v.items ≡ marked_set signs.items) }
    ensures once { IfOk result (λ v. IsTrue (is_clause v.items)) }
    ensures below { IfOk result (λ v. IsTrue (is_within (length signs.items) v.items)) }
{
    let mut touched = Vec::new(alloc);
    list_lits(store, ids.as_slice(), &mut touched)?;
    take_lits(alloc, signs.as_mut_slice(), touched.as_slice())
}

/// What follows from the clause at the place, which is false.
pub(crate) fn learned_from<S: ClauseStore>(
    alloc: Global,
    store: &S,
    trail: &[Entry],
    starts: &[usize],
    vars: usize,
    conflict: usize,
) -> Result<LearnedClause, OutOfMemory>
    requires trail { IsTrail (S.clauses store.now) trail.now starts.now }
    requires below { IsTrue (are_within vars (S.clauses store.now)) }
    requires full { ¬ (HasEmpty (S.clauses store.now)) }
    requires conflict { (c : List Literal) × (slice_get (S.clauses store.now) conflict ≡ Some c)
        × IsTrue (is_false (lits_of trail.now) c) }
    ensures chained { IfOk result (λ p. IsChained (S.clauses store.now) p.ids.items p.lits.items) }
    ensures once { IfOk result (λ p. IsTrue (is_clause p.lits.items)) }
    ensures below { IfOk result (λ p. IsTrue (is_within vars p.lits.items)) }
    ensures fresh { IfOk result (λ p. p.lits.items ≢ [] → IsFresh (S.clauses store.now) p.lits.items) }
    ensures keep { IfOk result (λ p. p.keep ≤ length starts.now) }
    ensures rest { IfOk result (λ p. (j k : ℕ) → j < p.keep → slice_get starts.now j ≡ Some k
        → IsAtRest (lits_of (take k trail.now)) (S.clauses store.now ++ p.lits.items ∷ [])) }
{
    let Walk { ids, signs, at } = walk_from(alloc, store, trail, starts, vars, conflict)?;
    let keep = keep_level(trail, starts, signs.as_slice(), at);
    let lits = walked_lits(alloc, store, &ids, signs)?;
    Ok(LearnedClause { ids, lits, keep })
}
