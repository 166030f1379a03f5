//! The literals that a step touches, and which of them are marked at its end.
ghost use Rattle.std.specs.Prelude.{◌≡◌, ◌<◌, ◌++◌, [], length, slice_index_or, IfOk, OnOk, OnErr, IsTrue};
ghost use Rattle.clause_store.specs.Clauses.{has, is_clause, is_within};
ghost use Rattle.clause_store.specs.Chained.{empty_set};
ghost use Rattle.literal_signs.specs.Marked.{AreListed, lits_at, marked_set};
ghost use Rattle.literal_signs.specs.Moves.{Moves};

use crate::sign::{Sign, is_marked};
use clause_store::{ClauseStore, Lit};
use rdf_terms::OutOfMemory;
use std::alloc::Global;

/// Lists the literals of the clauses of the ids, in place of what was listed. An id that is no place adds none.
pub fn list_lits<S: ClauseStore>(
    store: &S,
    ids: &[u64],
    lits: &mut Vec<Lit>,
) -> Result<(), OutOfMemory>
    ensures { OnOk result (lits.new.items ≡ lits_at (S.clauses store.now) ids.now) }
{
    lits.clear();
    for id in ids {
        append_lits(store, *id as usize, lits)?;
    }
    Ok(())
}

/// Appends the literals of the clause at the place, if there is one.
fn append_lits<S: ClauseStore>(
    store: &S,
    place: usize,
    lits: &mut Vec<Lit>,
) -> Result<(), OutOfMemory>
    ensures { OnOk result (lits.new.items ≡ lits.old.items ++ slice_index_or (S.clauses store.now) place []) }
{
    if place >= store.len() {
        return Ok(());
    }
    lits.extend_from_slice(store.clause(place))?;
    Ok(())
}

/// Moves the marked literals, all of which are listed, into a clause of their own. Where memory is refused, some of
/// them may still be marked.
pub fn take_lits(
    alloc: Global,
    signs: &mut [Sign],
    touched: &[Lit],
) -> Result<Vec<Lit>, OutOfMemory>
    requires within { IsTrue (is_within (length signs.old) touched.now) }
    requires covered { AreListed (marked_set signs.old) touched.now }
    ensures lits { IfOk result (λ v. has v.items ≡ marked_set signs.old) }
    ensures once { IfOk result (λ v. IsTrue (is_clause v.items)) }
    ensures below { IfOk result (λ v. IsTrue (is_within (length signs.old) v.items)) }
    ensures length { length signs.new ≡ length signs.old }
    ensures covered { AreListed (marked_set signs.new) touched.now }
{
    let mut lits = Vec::new(alloc);
    for lit in touched {
        move_lit(signs, &mut lits, *lit)?;
    }
    Ok(lits)
}

/// Moves the literal from the marked set to the list, if it is marked.
fn move_lit(signs: &mut [Sign], lits: &mut Vec<Lit>, lit: Lit) -> Result<(), OutOfMemory>
    requires { lit.var < length signs.old }
    ensures length { length signs.new ≡ length signs.old }
    ensures ok { OnOk result (Moves (marked_set signs.old lit) (marked_set signs.old) (marked_set signs.new)
        lits.old.items lits.new.items lit) }
    ensures err { OnErr result (signs.new ≡ signs.old) }
{
    let marked = is_marked(signs[lit.var], lit.positive);
    if !marked {
        return Ok(());
    }
    lits.push(lit)?;
    signs[lit.var] = Sign::Absent;
    Ok(())
}

/// Erases the marks, all of which are at listed literals.
pub fn clear(signs: &mut [Sign], touched: &[Lit])
    requires within { IsTrue (is_within (length signs.old) touched.now) }
    requires covered { AreListed (marked_set signs.old) touched.now }
    ensures clear { marked_set signs.new ≡ empty_set }
    ensures length { length signs.new ≡ length signs.old }
{
    for lit in touched {
        signs[lit.var] = Sign::Absent;
    }
}
