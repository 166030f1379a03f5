ghost use Rattle.std.specs.Prelude.{◌≡◌, ◌<◌, ◌↔◌, IfSome, IsTrue, is_some, not, codes, length};
ghost use Rattle.std.specs.Cow.{cow_str_bytes};
ghost use Rattle.std.specs.List.{find};
ghost use Rattle.std.specs.Str.{chars};
ghost use Rattle.grammar_forms.specs.Reading.{before, skip_at};
ghost use Rattle.rdf_grammar.specs.Answers.{Gives, GivesOr};
ghost use Rattle.rdf_grammar.specs.Productions.{is_iri_char, is_scheme_char, BeginsWithScheme};
ghost use Rattle.rdf_grammar.specs.Reading.{iri_escape_at, iriref_at, has_scheme, absolute_iri_at};

use crate::ParseError;
use crate::characters::{CharClass, strip_char};
use crate::escapes::parse_uchar;
use crate::quoted::{Quoted, parse_quoted};
use std::alloc::Global;
use std::borrow::CowStr;

/// Whether the character may stand in an IRI: any but U+0000 to U+0020 and ``< > " { } | ^ ` \``.
#[tactic(auto, unfolding(crate::specs::Productions::is_iri_char))]
pub fn is_iri_char(c: char) -> bool
    ensures { result ≡ is_iri_char c }
{
    c > ' ' && !matches!(c, '<' | '>' | '"' | '{' | '}' | '|' | '^' | '`' | '\\')
}

/// The characters that may stand in an IRI. An escape has to name one of them.
#[derive(Clone, Copy, Debug)]
pub struct IriChars;

impl CharClass for IriChars {
    ghost test = { λ _. is_iri_char };

    fn contains(&self, c: char) -> bool {
        is_iri_char(c)
    }
}

impl Quoted for IriChars {
    ghost escape_at = { λ _. iri_escape_at };

    fn parse_escape<'a>(&self, text: &'a str) -> Option<(char, &'a str)> {
        parse_iri_escape(text)
    }
}

/// The character of an IRI that the UCHAR at the front names.
#[tactic(auto, unfolding(crate::specs::Reading::iri_escape_at))]
fn parse_iri_escape(text: &str) -> Option<(char, &str)>
    ensures gives { Gives (λ c. c) result (iri_escape_at (chars text.now)) }
    ensures shorter { IfSome result (λ x. length (chars x.1.now) < length (chars text.now)) }
{
    let (c, rest) = parse_uchar(text)?;
    if is_iri_char(c) {
        Some((c, rest))
    } else {
        None
    }
}

/// IRIREF: an IRI or a relative reference between `<` and `>`. `NoMatch` where the text does not
/// begin with one; a UCHAR in it has to name a character that may stand in an IRI.
#[tactic(auto, unfolding(crate::specs::Reading::iriref_at, crate::specs::Reading::iri_parts_at, crate::specs::Reading::iri_part_at))]
pub fn parse_iriref<'a>(alloc: Global, text: &'a str) -> Result<(CowStr<'a>, &'a str), ParseError>
    ensures { GivesOr (λ s. cow_str_bytes s) result (iriref_at (chars text.now)) }
{
    let rest = strip_char(text, '<').ok_or(ParseError::NoMatch)?;
    let (iri, rest) = parse_quoted(alloc, &IriChars, rest)?;
    let rest = strip_char(rest, '>').ok_or(ParseError::NoMatch)?;
    Ok((iri, rest))
}

fn is_scheme_char(b: u8) -> bool
    ensures { result ≡ is_scheme_char b }
{
    b.is_ascii_alphanumeric() || matches!(b, b'+' | b'-' | b'.')
}

/// The first byte that is no character of a scheme.
fn first_other(bytes: &[u8]) -> Option<u8>
    ensures { result ≡ find (λ b. not (is_scheme_char b)) bytes.now }
{
    bytes.iter().copied().find(|b| !is_scheme_char(*b))
}

/// Whether a colon stands behind the characters of a scheme at the front.
fn goes_on_as_scheme(bytes: &[u8]) -> bool
    ensures { result ≡ is_some (before (codes ":") (skip_at is_scheme_char) bytes.now) }
{
    match first_other(bytes) {
        Some(b) => b == b':',
        None => false,
    }
}

#[tactic(auto, unfolding(crate::specs::Reading::scheme_at))]
fn begins_with_scheme(bytes: &[u8]) -> bool
    ensures { result ≡ has_scheme bytes.now }
{
    match bytes {
        [] => false,
        [first, rest @ ..] => first.is_ascii_alphabetic() && goes_on_as_scheme(rest),
    }
}

/// Whether the text begins with a scheme and a colon, as an IRI does and a relative reference does
/// not (RFC 3986, section 3.1).
pub fn has_scheme(iri: &str) -> bool
    ensures scheme { IsTrue result ↔ BeginsWithScheme iri.now }
    ensures reads { result ≡ has_scheme iri.now }
{
    begins_with_scheme(iri.as_bytes())
}

/// An IRIREF that begins with a scheme. `NoMatch` also where it is a relative reference.
#[tactic(auto, unfolding(crate::specs::Reading::absolute_iri_at))]
pub fn parse_absolute_iri<'a>(
    alloc: Global,
    text: &'a str,
) -> Result<(CowStr<'a>, &'a str), ParseError>
    ensures { GivesOr (λ s. cow_str_bytes s) result (absolute_iri_at (chars text.now)) }
{
    let (iri, rest) = parse_iriref(alloc, text)?;
    if !has_scheme(iri.as_str()) {
        return Err(ParseError::NoMatch);
    }
    Ok((iri, rest))
}
