ghost use Rattle.std.specs.Prelude.{◌≡◌, Some, string_bytes};
ghost use Rattle.std.specs.Str.{chars};
ghost use Rattle.rdf_grammar.specs.Answers.{GivesOr, GivesRest};
ghost use Rattle.rdf_grammar.specs.Productions.{is_base, has_colon, is_name_start, is_name_char, is_label_start};
ghost use Rattle.rdf_grammar.specs.Reading.{label_end_at, label_at, blank_node_label_at};

use crate::characters::{first_char, front, strip_char};
use crate::{Dialect, ParseError};
use std::alloc::Global;

/// PN_CHARS_BASE.
#[tactic(auto, unfolding(crate::specs::Productions::is_base))]
pub fn is_base(c: char) -> bool
    ensures { result ≡ is_base c }
{
    c.is_ascii_alphabetic()
        || matches!(
            c,
            '\u{c0}'..='\u{d6}'
                | '\u{d8}'..='\u{f6}'
                | '\u{f8}'..='\u{2ff}'
                | '\u{370}'..='\u{37d}'
                | '\u{37f}'..='\u{1fff}'
                | '\u{200c}'..='\u{200d}'
                | '\u{2070}'..='\u{218f}'
                | '\u{2c00}'..='\u{2fef}'
                | '\u{3001}'..='\u{d7ff}'
                | '\u{f900}'..='\u{fdcf}'
                | '\u{fdf0}'..='\u{fffd}'
                | '\u{10000}'..='\u{effff}'
        )
}

fn has_colon(dialect: Dialect) -> bool
    ensures { result ≡ has_colon dialect }
{
    match dialect {
        Dialect::NTriples => true,
        Dialect::Turtle => false,
    }
}

/// PN_CHARS_U: what a name may begin with.
#[tactic(auto, unfolding(crate::specs::Productions::is_name_start))]
pub fn is_name_start(dialect: Dialect, c: char) -> bool
    ensures { result ≡ is_name_start dialect c }
{
    is_base(c) || c == '_' || has_colon(dialect) && c == ':'
}

/// PN_CHARS: what a name may go on with.
#[tactic(auto, unfolding(crate::specs::Productions::is_name_char))]
pub fn is_name_char(dialect: Dialect, c: char) -> bool
    ensures { result ≡ is_name_char dialect c }
{
    is_name_start(dialect, c)
        || c == '-'
        || c.is_ascii_digit()
        || matches!(c, '\u{b7}' | '\u{300}'..='\u{36f}' | '\u{203f}'..='\u{2040}')
}

#[tactic(auto, unfolding(crate::specs::Productions::is_label_start))]
fn is_label_start(dialect: Dialect, c: char) -> bool
    ensures { result ≡ is_label_start dialect c }
{
    is_name_start(dialect, c) || c.is_ascii_digit()
}

/// What stands behind `((PN_CHARS | '.')* PN_CHARS)?`: dots at the end are no part of it.
#[tactic(auto, unfolding(crate::specs::Reading::label_end_at))]
fn skip_label_end(dialect: Dialect, text: &str) -> &str
    ensures { label_end_at dialect (chars text.now) ≡ Some (tt, chars result.now) }
{
    let mut rest = text;
    let mut ahead = text;
    while let Some((c, after)) = first_char(ahead) {
        if is_name_char(dialect, c) {
            rest = after;
            ahead = after;
        } else if c == '.' {
            ahead = after;
        } else {
            return rest;
        }
    }
    rest
}

#[tactic(auto, unfolding(crate::specs::Reading::label_at))]
fn skip_label(dialect: Dialect, text: &str) -> Option<&str>
    ensures { GivesRest result (label_at dialect (chars text.now)) }
{
    let (first, rest) = first_char(text)?;
    if !is_label_start(dialect, first) {
        return None;
    }
    Some(skip_label_end(dialect, rest))
}

/// BLANK_NODE_LABEL: the label of a blank node, without its `_:`. `NoMatch` where the text does
/// not begin with one.
#[tactic(auto, unfolding(crate::specs::Reading::blank_node_label_at))]
pub fn parse_blank_node_label(
    alloc: Global,
    dialect: Dialect,
    text: &str,
) -> Result<(String, &str), ParseError>
    ensures { GivesOr (λ s. string_bytes s) result (blank_node_label_at dialect (chars text.now)) }
{
    let underscore = strip_char(text, '_').ok_or(ParseError::NoMatch)?;
    let name = strip_char(underscore, ':').ok_or(ParseError::NoMatch)?;
    let rest = skip_label(dialect, name).ok_or(ParseError::NoMatch)?;
    let label = String::from_str(alloc, front(name, rest))?;
    Ok((label, rest))
}
