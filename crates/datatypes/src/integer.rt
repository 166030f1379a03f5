ghost use Rattle.std.specs.Prelude.{◌≡◌, option_map};
ghost use Rattle.std.specs.Str.Parse.{without_leading_sign};
ghost use Rattle.datatypes.specs.Forms.{are_digits, is_integer, integer_of};
ghost use Rattle.datatypes.specs.Literals.{by_size};

/// An integer, as far as 128 bits hold it.
#[derive(Clone, Copy, Debug, PartialEq, Eq)]
pub enum Integer {
    /// Below -2^127.
    Below,
    /// From -2^127 to 2^127 - 1.
    Within(i128),
    /// Above 2^127 - 1.
    Above,
}

/// Whether each is a decimal digit.
pub(crate) fn are_digits(text: &[u8]) -> bool
    ensures { result ≡ are_digits text.now }
{
    text.iter().all(|c| c.is_ascii_digit())
}

/// The text without a leading sign.
pub(crate) fn without_sign(text: &[u8]) -> &[u8]
    ensures { result.now ≡ without_leading_sign text.now }
{
    match text {
        [b'+', unsigned @ ..] => unsigned,
        [b'-', unsigned @ ..] => unsigned,
        _ => text,
    }
}

/// Whether the text is a lexical form of `xsd:integer`.
fn is_integer(text: &[u8]) -> bool
    ensures { result ≡ is_integer text.now }
{
    let digits = without_sign(text);
    !digits.is_empty() && are_digits(digits)
}

/// The integer that the text is a lexical form of.
pub(crate) fn parse_integer(text: &str) -> Option<Integer>
    ensures { result ≡ option_map by_size (integer_of text.now) }
{
    if !is_integer(text.as_bytes()) {
        return None;
    }
    match text.parse() {
        Ok(value) => Some(Integer::Within(value)),
        Err(_) if text.starts_with('-') => Some(Integer::Below),
        Err(_) => Some(Integer::Above),
    }
}
