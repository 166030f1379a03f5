ghost use Rattle.turtle_tokens.specs.Fronts.{IsUtf8Front};

/// The longest front of the bytes that is UTF-8, and whether it is all of them.
pub fn utf8_front(bytes: &[u8]) -> (&str, bool)
    ensures { IsUtf8Front bytes.now result.0.now result.1 }
{
    match str::from_utf8(bytes) {
        Ok(text) => (text, true),
        Err(error) => {
            let (front, _) = bytes.split_at(error.valid_up_to());
            match str::from_utf8(front) {
                Ok(text) => (text, false),
                Err(_) => unreachable!(),
            }
        }
    }
}
