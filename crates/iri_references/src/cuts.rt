//! Texts that are cut at their delimiters, each of which is ASCII.
ghost use Rattle.std.specs.Prelude.{◌≡◌, ◌+◌, ◌<◌, ◌≤◌, ◌==◌, IfSome};
ghost use Rattle.std.specs.Prelude.{MatchOption, drop, is_some, length, not, slice_index};
ghost use Rattle.std.specs.List.{before_first, position, position_or_len, suffix_len};
ghost use Rattle.std.specs.Str.{IsCharBoundary};
ghost use Rattle.std.specs.Option.{option_copied};
ghost use Rattle.iri_references.specs.Components.{begins_with, behind_first, is_slash};

/// The text behind the prefix, or `None` where it does not begin with it.
pub fn strip<'a>(text: &'a str, prefix: &str) -> Option<&'a str>
    ensures found { is_some result ≡ begins_with prefix.now text.now }
    ensures rest { IfSome result (λ rest. rest.now ≡ drop (length prefix.now) text.now) }
    ensures len { IfSome result (λ rest. length rest.now + length prefix.now ≡ length text.now) }
{
    text.strip_prefix(prefix)
}

/// The text before the first such character, and the text behind that, or `None` where it isn't there.
pub fn split_at_first(text: &str, delimiter: char) -> (&str, Option<&str>)
    requires { delimiter < 128 }
    ensures before { result.0.now ≡ before_first (λ c. c == delimiter) text.now }
    ensures behind { option_copied result.1 ≡ behind_first (λ c. c == delimiter) text.now }
{
    match text.split_once(delimiter) {
        Some((before, behind)) => (before, Some(behind)),
        None => (text, None),
    }
}

/// How many bytes stand before the first `/`.
fn first_slash(bytes: &[u8]) -> Option<usize>
    ensures { result ≡ position is_slash bytes.now }
{
    bytes.iter().position(|b| *b == b'/')
}

/// Where the first `/` stands that is not before the start, or the length of the text.
pub fn slash_from(text: &str, start: usize) -> usize
    requires { start ≤ length text.now }
    ensures place { result ≡ start + position_or_len is_slash (drop start text.now) }
    ensures boundary { IsCharBoundary text.now result }
{
    let bytes = text.as_bytes();
    match first_slash(&bytes[start..]) {
        Some(count) => start + count,
        None => bytes.len(),
    }
}

/// Where the last `/` stands.
pub fn last_slash(text: &str) -> Option<usize>
    ensures { MatchOption result
        (suffix_len (λ c. not (is_slash c)) text.now ≡ length text.now)
        (λ at. (at + 1 + suffix_len (λ c. not (is_slash c)) text.now ≡ length text.now)
        × (slice_index text.now at ≡ 47)) }
{
    text.rfind('/')
}
