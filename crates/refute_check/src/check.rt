ghost use Rattle.std.specs.Prelude.{◌≡◌, ◌<◌, ◌≤◌, ◌-◌, ◌↔◌, ◌∷◌, ◌++◌, [], List, length, slice_get, Some, IsTrue};
ghost use Rattle.std.specs.Prelude.{OnOk, OnErr, IfOk, IfErr};
ghost use Rattle.clause_store.specs.Clauses.{has, is_clause, is_within, are_within};
ghost use Rattle.clause_store.specs.Chained.{Derives, IsChained};
ghost use Rattle.clause_store.specs.declared.lit.Lit.{Lit as Literal};
ghost use Rattle.refute_check.specs.Refusals.{IsRefusal};

use crate::gather::derive;
use crate::marks::Marks;
use crate::refusal::StepRefusal;
use clause_store::{ClauseStore, Lit};

/// Whether the store's last clause is empty. The store without a clause has none. It takes no memory.
pub fn is_refuted<S: ClauseStore>(store: &S) -> bool
    ensures { IsTrue result ↔ ((0 < length (S.clauses store.now))
        × (slice_get (S.clauses store.now) (length (S.clauses store.now) - 1) ≡ Some [])) }
{
    let len = store.len();
    if len == 0 {
        return false;
    }
    store.clause(len - 1).is_empty()
}

/// The last resolvent of the clauses of the ids, in order.
fn resolvent<S: ClauseStore>(
    store: &S,
    marks: &mut Marks,
    ids: &[u64],
) -> Result<Vec<Lit>, StepRefusal>
    requires some { 0 < length ids.now }
    requires reserved { IsTrue (are_within marks.old (S.clauses store.now)) }
    ensures ok { IfOk result (λ v. Derives (S.clauses store.now) ids.now (has v.items)) }
    ensures once { IfOk result (λ v. IsTrue (is_clause v.items)) }
    ensures below { IfOk result (λ v. IsTrue (is_within marks.old v.items)) }
    ensures err { IfErr result (λ e. IsRefusal (S.clauses store.now) ids.now e) }
    ensures marks { marks.new ≡ marks.old }
{
    let alloc = marks.alloc;
    let signs = marks.signs.as_mut_slice();
    let touched = &mut marks.touched;
    derive(alloc, store, signs, touched, ids)
}

/// Checks a step of resolution: begins with the clause of the first id, resolves with the clause of each further id in
/// order, and appends the last resolvent to the store. Answers its place.
///
/// Refused is the first id that is no place of the store, or with whose clause the resolution doesn't clash in exactly
/// one literal. Then, and after `OutOfMemory`, the store is as before.
pub fn check_step<S: ClauseStore>(
    store: &mut S,
    marks: &mut Marks,
    ids: &[u64],
) -> Result<usize, StepRefusal>
    requires two { 2 ≤ length ids.now }
    requires reserved { IsTrue (are_within marks.old (S.clauses store.old)) }
    ensures place { IfOk result (λ i. i ≡ length (S.clauses store.old)) }
    ensures step { OnOk result ((c : List Literal) × IsChained (S.clauses store.old) ids.now c
        × (S.clauses store.new ≡ S.clauses store.old ++ c ∷ [])) }
    ensures err { IfErr result (λ e. IsRefusal (S.clauses store.old) ids.now e) }
    ensures kept { OnErr result (S.clauses store.new ≡ S.clauses store.old) }
    ensures reserved { IsTrue (are_within marks.old (S.clauses store.new)) }
    ensures marks { marks.new ≡ marks.old }
{
    let lits = resolvent(store, marks, ids)?;
    Ok(store.push(lits.as_slice())?)
}
