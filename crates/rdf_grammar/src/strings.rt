ghost use Rattle.std.specs.Prelude.{◌≡◌, ◌<◌, IfSome, length};
ghost use Rattle.std.specs.Cow.{cow_str_bytes};
ghost use Rattle.std.specs.Str.{chars};
ghost use Rattle.rdf_grammar.specs.Answers.{Gives, GivesOr};
ghost use Rattle.rdf_grammar.specs.Productions.{is_string_char};
ghost use Rattle.rdf_grammar.specs.Reading.{string_escape_at, string_at};

use crate::ParseError;
use crate::characters::{CharClass, strip_char};
use crate::escapes::{parse_echar, parse_uchar};
use crate::quoted::{Quoted, parse_quoted};
use std::alloc::Global;
use std::borrow::CowStr;

/// Whether the character may stand in a quoted string as itself: any but `"`, `\`, CR and LF.
#[tactic(auto, unfolding(crate::specs::Productions::is_string_char))]
pub fn is_string_char(c: char) -> bool
    ensures { result ≡ is_string_char c }
{
    !matches!(c, '"' | '\\' | '\r' | '\n')
}

/// The characters that may stand in a quoted string as themselves. An escape names any other.
#[derive(Clone, Copy, Debug)]
pub struct StringChars;

impl CharClass for StringChars {
    ghost test = { λ _. is_string_char };

    fn contains(&self, c: char) -> bool {
        is_string_char(c)
    }
}

impl Quoted for StringChars {
    ghost escape_at = { λ _. string_escape_at };

    fn parse_escape<'a>(&self, text: &'a str) -> Option<(char, &'a str)> {
        parse_string_escape(text)
    }
}

/// The character that the ECHAR or UCHAR at the front names.
#[tactic(auto, unfolding(crate::specs::Reading::string_escape_at))]
fn parse_string_escape(text: &str) -> Option<(char, &str)>
    ensures gives { Gives (λ c. c) result (string_escape_at (chars text.now)) }
    ensures shorter { IfSome result (λ x. length (chars x.1.now) < length (chars text.now)) }
{
    match parse_echar(text) {
        None => parse_uchar(text),
        found => found,
    }
}

/// STRING_LITERAL_QUOTE: what stands between two quotation marks, with its escapes resolved.
/// `NoMatch` where the text does not begin with one.
#[tactic(auto, unfolding(crate::specs::Reading::string_at, crate::specs::Reading::string_parts_at, crate::specs::Reading::string_part_at))]
pub fn parse_string_literal<'a>(
    alloc: Global,
    text: &'a str,
) -> Result<(CowStr<'a>, &'a str), ParseError>
    ensures { GivesOr (λ s. cow_str_bytes s) result (string_at (chars text.now)) }
{
    let rest = strip_char(text, '"').ok_or(ParseError::NoMatch)?;
    let (lexical, rest) = parse_quoted(alloc, &StringChars, rest)?;
    let rest = strip_char(rest, '"').ok_or(ParseError::NoMatch)?;
    Ok((lexical, rest))
}
