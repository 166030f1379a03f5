ghost use Rattle.std.specs.Prelude.{◌≡◌, Some, string_bytes};
ghost use Rattle.std.specs.Char.{is_ascii_alphabetic, is_ascii_alphanumeric};
ghost use Rattle.std.specs.Str.{chars};
ghost use Rattle.rdf_grammar.specs.Answers.{GivesOr, GivesRest};
ghost use Rattle.rdf_grammar.specs.Reading.{subtag_at, subtags_at, tag_at, langtag_at};

use crate::ParseError;
use crate::characters::{CharClass, front, skip_some, strip_char};
use std::alloc::Global;

/// ASCII letters.
#[derive(Clone, Copy, Debug)]
pub struct Letters;

impl CharClass for Letters {
    ghost test = { λ _. is_ascii_alphabetic };

    fn contains(&self, c: char) -> bool {
        c.is_ascii_alphabetic()
    }
}

/// ASCII letters and digits.
#[derive(Clone, Copy, Debug)]
pub struct Alphanumerics;

impl CharClass for Alphanumerics {
    ghost test = { λ _. is_ascii_alphanumeric };

    fn contains(&self, c: char) -> bool {
        c.is_ascii_alphanumeric()
    }
}

#[tactic(auto, unfolding(crate::specs::Reading::subtag_at))]
fn skip_subtag(text: &str) -> Option<&str>
    ensures { GivesRest result (subtag_at (chars text.now)) }
{
    let rest = strip_char(text, '-')?;
    skip_some(&Alphanumerics, rest)
}

#[tactic(auto, unfolding(crate::specs::Reading::subtags_at))]
fn skip_subtags(text: &str) -> &str
    ensures { subtags_at (chars text.now) ≡ Some (tt, chars result.now) }
{
    let mut rest = text;
    'subtags: while let Some(after) = skip_subtag(rest) {
        rest = after;
    }
    rest
}

#[tactic(auto, unfolding(crate::specs::Reading::tag_at))]
fn skip_tag(text: &str) -> Option<&str>
    ensures { GivesRest result (tag_at (chars text.now)) }
{
    let rest = skip_some(&Letters, text)?;
    Some(skip_subtags(rest))
}

/// LANGTAG: a language tag in lower case, without its `@`. `NoMatch` where the text does not begin
/// with one.
#[tactic(auto, unfolding(crate::specs::Reading::langtag_at))]
pub fn parse_langtag(alloc: Global, text: &str) -> Result<(String, &str), ParseError>
    ensures { GivesOr (λ s. string_bytes s) result (langtag_at (chars text.now)) }
{
    let spelled = strip_char(text, '@').ok_or(ParseError::NoMatch)?;
    let rest = skip_tag(spelled).ok_or(ParseError::NoMatch)?;
    let lower = front(spelled, rest).to_ascii_lowercase(alloc)?;
    Ok((lower, rest))
}
