ghost use Rattle.std.specs.Prelude.{◌≡◌, IsTrue};
ghost use Rattle.clause_store.specs.Clauses.{is_clause, is_within, mentions};

use clause_store::{Lit, Lits};

/// Whether a literal of the variable is among the literals.
fn has_var(lits: &[Lit], var: usize) -> bool
    ensures { result ≡ mentions lits.now var }
{
    lits.iter().any(|lit| lit.var == var)
}

/// Whether no variable stands twice among the literals.
pub fn is_clause(lits: &[Lit]) -> bool
    ensures { IsTrue result → IsTrue (is_clause lits.now) }
{
    for k in 0..lits.len() {
        if has_var(&lits[..k], lits[k].var) {
            return false;
        }
    }
    true
}

/// Whether each variable is below `vars`.
pub fn is_within(vars: usize, lits: &[Lit]) -> bool
    ensures { result ≡ is_within vars lits.now }
{
    lits.iter().all(|lit| lit.var < vars)
}

/// How many variables the clauses have, up to the highest.
pub fn variable_count(clauses: &[Lits]) -> usize {
    let mut count = 0usize;
    for clause in clauses {
        for lit in clause.as_slice() {
            count = count.max(lit.var.saturating_add(1));
        }
    }
    count
}
