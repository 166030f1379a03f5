ghost use Rattle.std.specs.Prelude.{◌≡◌, IfOk};

use rdf_terms::{Bytes, OutOfMemory};
use std::alloc::Global;

/// The bytes of a text.
pub fn bytes_of(alloc: Global, text: &str) -> Result<Bytes, OutOfMemory>
    ensures { IfOk result (λ b. b ≡ text.now) }
{
    let mut bytes = Bytes::new(alloc);
    bytes.append(text.as_bytes())?;
    Ok(bytes)
}
