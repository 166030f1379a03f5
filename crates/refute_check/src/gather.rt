ghost use Rattle.std.specs.Prelude.{◌≡◌, ◌<◌, length, IfOk, OnOk, IfErr, IsTrue};
ghost use Rattle.clause_store.specs.Clauses.{has, is_clause, is_within, are_within};
ghost use Rattle.clause_store.specs.Chained.{Derives, empty_set};
ghost use Rattle.literal_signs.specs.Marked.{AreListed, lits_at, marked_set};
ghost use Rattle.refute_check.specs.Refusals.{IsRefusal};

use crate::refusal::StepRefusal;
use clause_store::{ClauseStore, Lit};
use literal_signs::{Sign, clear, list_lits, resolve, take_lits, unite};
use std::alloc::Global;

/// Marks the last resolvent of the clauses of the ids, in order.
fn resolve_all<S: ClauseStore>(
    store: &S,
    signs: &mut [Sign],
    ids: &[u64],
) -> Result<(), StepRefusal>
    requires some { 0 < length ids.now }
    requires clear { marked_set signs.old ≡ empty_set }
    requires reserved { IsTrue (are_within (length signs.old) (S.clauses store.now)) }
    ensures ok { OnOk result (Derives (S.clauses store.now) ids.now (marked_set signs.new)) }
    ensures err { IfErr result (λ e. IsRefusal (S.clauses store.now) ids.now e) }
    ensures length { length signs.new ≡ length signs.old }
    ensures covered { AreListed (marked_set signs.new) (lits_at (S.clauses store.now) ids.now) }
{
    let first = ids[0] as usize;
    if first >= store.len() {
        return Err(StepRefusal::UnknownId { position: 0 });
    }
    unite(signs, store.clause(first));
    for k in 1..ids.len() {
        let id = ids[k] as usize;
        if id >= store.len() {
            return Err(StepRefusal::UnknownId { position: k });
        }
        if !resolve(signs, store.clause(id)) {
            return Err(StepRefusal::NoSingleClash { position: k });
        }
    }
    Ok(())
}

/// The last resolvent, from the literals of the clauses of the ids. Some of them may still be marked afterwards.
fn gather<S: ClauseStore>(
    alloc: Global,
    store: &S,
    signs: &mut [Sign],
    touched: &[Lit],
    ids: &[u64],
) -> Result<Vec<Lit>, StepRefusal>
    requires some { 0 < length ids.now }
    requires clear { marked_set signs.old ≡ empty_set }
    requires reserved { IsTrue (are_within (length signs.old) (S.clauses store.now)) }
    requires listed { touched.now ≡ lits_at (S.clauses store.now) ids.now }
    ensures ok { IfOk result (λ v. Derives (S.clauses store.now) ids.now (has v.items)) }
    ensures once { IfOk result (λ v. IsTrue (is_clause v.items)) }
    ensures below { IfOk result (λ v. IsTrue (is_within (length signs.old) v.items)) }
    ensures err { IfErr result (λ e. IsRefusal (S.clauses store.now) ids.now e) }
    ensures length { length signs.new ≡ length signs.old }
    ensures covered { AreListed (marked_set signs.new) touched.now }
{
    resolve_all(store, signs, ids)?;
    Ok(take_lits(alloc, signs, touched)?)
}

/// The last resolvent of the clauses of the ids, in order. Nothing is marked before and afterwards.
pub(crate) fn derive<S: ClauseStore>(
    alloc: Global,
    store: &S,
    signs: &mut [Sign],
    touched: &mut Vec<Lit>,
    ids: &[u64],
) -> Result<Vec<Lit>, StepRefusal>
    requires some { 0 < length ids.now }
    requires clear { marked_set signs.old ≡ empty_set }
    requires reserved { IsTrue (are_within (length signs.old) (S.clauses store.now)) }
    ensures ok { IfOk result (λ v. Derives (S.clauses store.now) ids.now (has v.items)) }
    ensures once { IfOk result (λ v. IsTrue (is_clause v.items)) }
    ensures below { IfOk result (λ v. IsTrue (is_within (length signs.old) v.items)) }
    ensures err { IfErr result (λ e. IsRefusal (S.clauses store.now) ids.now e) }
    ensures length { length signs.new ≡ length signs.old }
    ensures clear { marked_set signs.new ≡ empty_set }
{
    list_lits(store, ids, touched)?;
    let lits = touched.as_slice();
    let outcome = gather(alloc, store, signs, lits, ids);
    clear(signs, lits);
    outcome
}
