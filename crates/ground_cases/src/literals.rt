//! Literals in numbers as literals of atoms.

use clause_ground::Ground;
use clause_store::Lit;
use rdf_terms::OutOfMemory;
use repair_problem::{Literal, LiteralList};
use std::alloc::Global;

/// The literals of a clause in the numbers of a ground, but for those whose number no atom has, or another than
/// `var_of` finds.
pub fn literals_of(
    alloc: Global,
    ground: &Ground,
    lits: &[Lit],
) -> Result<LiteralList, OutOfMemory> {
    let mut literals = LiteralList::new(alloc);
    for lit in lits {
        if let Some(literal) = literal_of(ground, lit) {
            literals.push(literal)?;
        }
    }
    Ok(literals)
}

/// The literal of an atom, and `None` where no atom has the number, or `var_of` finds another.
fn literal_of(ground: &Ground, lit: &Lit) -> Option<Literal> {
    if lit.var >= ground.atom_count() {
        return None;
    }
    let atom = *ground.atom(lit.var);
    if ground.var_of(&atom) != Some(lit.var) {
        return None;
    }
    Some(Literal {
        atom,
        positive: lit.positive,
    })
}
