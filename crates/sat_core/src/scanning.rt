ghost use Rattle.clause_store.specs.Clauses.{is_clause, is_within};
ghost use Rattle.clause_store.specs.declared.lit.Lit.{Lit as Literal};
ghost use Rattle.literal_signs.specs.Marked.{marked_set};
ghost use Rattle.sat_core.specs.Scanned.{IsScan};
ghost use Rattle.std.specs.Prelude.{IsTrue, length};

use clause_store::Lit;
use literal_signs::{Sign, is_marked};

/// How a clause stands under a partial assignment.
#[derive(Clone, Copy, Debug, PartialEq, Eq)]
pub(crate) enum Scan {
    /// Neither of the others.
    Other,
    /// All literals are false.
    False,
    /// This literal is unassigned, and all others are false.
    Unit(Lit),
}

/// How the clause stands under the signs.
pub(crate) fn scan_clause(signs: &[Sign], clause: &[Lit]) -> Scan
    requires once { IsTrue (is_clause clause.now) }
    requires below { IsTrue (is_within (length signs.now) clause.now) }
    ensures { IsScan (marked_set signs.now) clause.now result }
{
    let mut left: Option<Lit> = None;
    for lit in clause {
        if !is_marked(signs[lit.var], !lit.positive) {
            match left {
                None => left = Some(*lit),
                Some(_) => return Scan::Other,
            }
        }
    }
    match left {
        None => Scan::False,
        Some(lit) => {
            if is_marked(signs[lit.var], lit.positive) {
                Scan::Other
            } else {
                Scan::Unit(lit)
            }
        }
    }
}
