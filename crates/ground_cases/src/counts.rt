//! How large a ground is.

use crate::refusal::CaseError;
use clause_ground::Ground;
use repair_problem::Atom;

/// Appends the line of how many premises, atoms and literals there are.
pub fn push_counts(out: &mut String, ground: &Ground) -> Result<(), CaseError> {
    let premises = ground.rule_count();
    let atoms = ground.atom_count();
    let of_stars = count_of_stars(ground);
    let literals = count_of_literals(ground);
    write!(
        out,
        "premises {premises}, atoms {atoms}, of them levels and middles {of_stars}, literals {literals}\n"
    )?;
    Ok(())
}

/// How many atoms are levels or middles.
fn count_of_stars(ground: &Ground) -> u64 {
    let mut count = 0u64;
    for v in 0..ground.atom_count() {
        if matches!(ground.atom(v), Atom::Level { .. } | Atom::Middle { .. }) {
            count = count.saturating_add(1);
        }
    }
    count
}

/// How many literals the clauses have.
fn count_of_literals(ground: &Ground) -> u64 {
    let mut count = 0u64;
    for r in 0..ground.rule_count() {
        count = count.saturating_add(ground.clause(r).len() as u64);
    }
    count
}
