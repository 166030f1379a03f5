ghost use Rattle.std.specs.Prelude.{◌≡◌, ◌++◌, ◌<◌, IfOk, IfSome, List, ℕ, MatchOption, length};
ghost use Rattle.std.specs.Cow.{cow_str_bytes};
ghost use Rattle.std.specs.Str.{IsAscii, IsUtf8, chars};
ghost use Rattle.grammar_forms.specs.Forms.{many, written};
ghost use Rattle.rdf_grammar.specs.Answers.{Gives};
ghost use Rattle.rdf_grammar.specs.Reading.{string_escape_at};
ghost use Rattle.turtle_terms.specs.Answers.{Means};
ghost use Rattle.turtle_terms.specs.Strings.{is_plain_char, quoted_part, marks_of, string, between};

use crate::ends::is_end;
use rdf_grammar::{CharClass, ParseError, Quoted, RecentTexts, StringChars, parse_quoted};
use rdf_terms::Text;
use std::alloc::Global;
use std::borrow::CowStr;

/// What stands between quotation marks: any character but a backslash means itself, and an escape what it names.
#[derive(Clone, Copy)]
struct StringParts;

#[tactic(auto, unfolding(crate::specs::Strings::is_plain_char))]
fn is_plain_char(c: char) -> bool
    ensures { result ≡ is_plain_char c }
{
    c != '\\'
}

impl CharClass for StringParts {
    ghost test = { λ _. is_plain_char };

    fn contains(&self, c: char) -> bool {
        is_plain_char(c)
    }
}

impl Quoted for StringParts {
    ghost escape_at = { λ _. string_escape_at };

    fn parse_escape<'a>(&self, text: &'a str) -> Option<(char, &'a str)> {
        StringChars.parse_escape(text)
    }
}

/// The quotation marks on either side of a string.
#[tactic(auto, unfolding(crate::specs::Strings::marks_of))]
fn marks_of(token: &str) -> &'static str
    ensures marks { result.now ≡ marks_of token.now }
    ensures ascii { IsAscii result.now }
{
    if token.starts_with("\"\"\"") {
        return "\"\"\"";
    }
    if token.starts_with("'''") {
        return "'''";
    }
    if token.starts_with("'") {
        return "'";
    }
    "\""
}

/// The text between the marks, or `None` where they do not stand on both of its sides.
fn strip_marks<'t>(token: &'t str, marks: &str) -> Option<&'t str>
    ensures { MatchOption result
        ((inner : List ℕ) → token.now ≡ marks.now ++ (inner ++ marks.now) → ⊥)
        (λ inner. token.now ≡ marks.now ++ (inner.now ++ marks.now)) }
{
    token.strip_prefix(marks)?.strip_suffix(marks)
}

/// What stands between quotation marks, with its escapes resolved. It is borrowed where there is no escape.
fn parse_parts<'t>(alloc: Global, inner: &'t str) -> Result<CowStr<'t>, ParseError>
    ensures { Means (λ s. cow_str_bytes s) result (written (many quoted_part)) (chars inner.now) }
{
    let (lexical, rest) = parse_quoted(alloc, &StringParts, inner)?;
    if is_end(rest) {
        Ok(lexical)
    } else {
        Err(ParseError::NoMatch)
    }
}

/// The same with the marks on both sides.
fn parse_between<'t>(alloc: Global, marks: &str, token: &'t str) -> Result<CowStr<'t>, ParseError>
    requires { IsAscii marks.now }
    ensures { Means (λ s. cow_str_bytes s) result (between marks.now) (chars token.now) }
{
    match strip_marks(token, marks) {
        Some(inner) => parse_parts(alloc, inner),
        None => Err(ParseError::NoMatch),
    }
}

/// The lexical form that a String token means, in any of the four ways of quoting it (RDF 1.1 Turtle, sections 2.5.1
/// and 6.4): what stands between its quotation marks, with its escapes resolved. `NoMatch` where a UCHAR names no
/// Unicode scalar value.
pub fn parse_string(alloc: Global, texts: &mut RecentTexts, token: &str) -> Result<Text, ParseError>
    ensures means { Means (λ t. t) result string (chars token.now) }
    ensures lawful { IfOk result (λ lexical. IsUtf8 lexical) }
{
    let lexical = parse_between(alloc, marks_of(token), token)?;
    Ok(texts.text_of_read(lexical)?)
}
