ghost use Rattle.std.specs.Prelude.{◌≡◌, ◌+◌, ◌<◌, ◌≤◌, length, OnOk, IsTrue};
ghost use Rattle.clause_store.specs.Clauses.{is_within};
ghost use Rattle.literal_signs.specs.Marked.{absents, marked_set};

use clause_store::Lit;
use literal_signs::{Sign, grow};
use rdf_terms::OutOfMemory;

/// Makes room for a variable.
fn make_room(signs: &mut Vec<Sign>, var: usize) -> Result<(), OutOfMemory>
    ensures marked { marked_set signs.new.items ≡ marked_set signs.old.items }
    ensures absents { absents signs.new.items + length signs.old.items
        ≡ absents signs.old.items + length signs.new.items }
    ensures longer { length signs.old.items ≤ length signs.new.items }
    ensures room { OnOk result (var < length signs.new.items) }
{
    match var.checked_add(1) {
        Some(vars) => grow(signs, vars),
        None => Err(OutOfMemory),
    }
}

/// Makes room for the variables of literals.
pub(crate) fn make_room_for(signs: &mut Vec<Sign>, lits: &[Lit]) -> Result<(), OutOfMemory>
    ensures marked { marked_set signs.new.items ≡ marked_set signs.old.items }
    ensures absents { absents signs.new.items + length signs.old.items
        ≡ absents signs.old.items + length signs.new.items }
    ensures longer { length signs.old.items ≤ length signs.new.items }
    ensures room { OnOk result (IsTrue (is_within (length signs.new.items) lits.now)) }
{
    for lit in lits {
        make_room(signs, lit.var)?;
    }
    Ok(())
}
