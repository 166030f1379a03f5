ghost use Rattle.std.specs.Prelude.{◌≡◌, ◌+◌, max, length, OnOk, OnErr};
ghost use Rattle.literal_signs.specs.Marked.{absents, marked_set};

use crate::sign::Sign;
use rdf_terms::OutOfMemory;

/// Adds signs until there are `vars`. Those that are added are absent, so the set is as before.
pub fn grow(signs: &mut Vec<Sign>, vars: usize) -> Result<(), OutOfMemory>
    ensures ok { OnOk result (length signs.new.items ≡ max (length signs.old.items) vars) }
    ensures err { OnErr result (length signs.new.items ≡ length signs.old.items) }
    ensures marked { marked_set signs.new.items ≡ marked_set signs.old.items }
    ensures absents { absents signs.new.items + length signs.old.items
        ≡ absents signs.old.items + length signs.new.items }
{
    if vars <= signs.len() {
        return Ok(());
    }
    signs.resize(vars, Sign::Absent)?;
    Ok(())
}
