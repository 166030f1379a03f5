ghost use Rattle.clause_store.specs.Clauses.{has, mentions, opposite, is_within};
ghost use Rattle.clause_store.specs.declared.lit.Lit.{Lit as Literal};
ghost use Rattle.literal_signs.specs.Marked.{marked_set};
ghost use Rattle.sat_core.specs.Scanned.{AreAssigned};
ghost use Rattle.std.specs.Prelude.{◌≡◌, ◌||◌, ◌<◌, Bool, IfNone, IfSome, IsTrue, false, length, true};

use clause_store::Lit;
use literal_signs::{Sign, is_marked};

/// The first literal of the clause that is unassigned.
pub(crate) fn first_free(signs: &[Sign], clause: &[Lit]) -> Option<Lit>
    requires below { IsTrue (is_within (length signs.now) clause.now) }
    ensures here { IfSome result (λ l. has clause.now l ≡ true) }
    ensures open_so { IfSome result (λ l. marked_set signs.now l ≡ false) }
    ensures open_not { IfSome result (λ l. marked_set signs.now (opposite l) ≡ false) }
    ensures none { IfNone result (AreAssigned (marked_set signs.now) (has clause.now)) }
{
    for lit in clause {
        let is_false = is_marked(signs[lit.var], !lit.positive);
        let is_true = is_marked(signs[lit.var], lit.positive);
        if !is_false && !is_true {
            return Some(*lit);
        }
    }
    None
}

/// Whether the clause has the variable.
pub(crate) fn names(clause: &[Lit], var: usize) -> bool
    ensures { result ≡ mentions clause.now var }
{
    for lit in clause {
        if lit.var == var {
            return true;
        }
    }
    false
}

/// Whether the variable is unassigned.
pub(crate) fn is_open(signs: &[Sign], var: usize) -> bool
    requires { var < length signs.now }
    ensures { result ≡ true → (b : Bool) → marked_set signs.now (record { var = var; positive = b }) ≡ false }
{
    matches!(signs[var], Sign::Absent)
}

/// Whether the variable is assigned; one without room isn't.
pub(crate) fn is_set(signs: &[Sign], var: usize) -> bool
    ensures { result ≡ (marked_set signs.now (record { var = var; positive = true })
        || marked_set signs.now (record { var = var; positive = false })) }
{
    match signs.get(var) {
        Some(sign) => is_marked(*sign, true) || is_marked(*sign, false),
        None => false,
    }
}
