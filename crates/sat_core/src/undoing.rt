ghost use Rattle.clause_store.specs.Clauses.{has};
ghost use Rattle.literal_signs.specs.Marked.{marked_set};
ghost use Rattle.sat_core.specs.Kept.{AreSigned};
ghost use Rattle.std.specs.Prelude.{◌≡◌, ◌≤◌, length, take};

use crate::trail::Entry;
use literal_signs::Sign;

/// Takes back all entries from that place on.
pub(crate) fn undo(trail: &mut Vec<Entry>, signs: &mut [Sign], start: usize)
    requires within { start ≤ length trail.old.items }
    requires signed { AreSigned trail.old.items signs.old }
    ensures trail { trail.new.items ≡ take start trail.old.items }
    ensures signed { AreSigned trail.new.items signs.new }
    ensures length { length signs.new ≡ length signs.old }
{
    while trail.len() > start {
        if let Some(entry) = trail.pop() {
            signs[entry.lit.var] = Sign::Absent;
        }
    }
}
