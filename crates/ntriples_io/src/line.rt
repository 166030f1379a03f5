ghost use Rattle.std.specs.Prelude.{◌≡◌, Option, Some, IfOk, IsTrue, not, string_bytes};
ghost use Rattle.std.specs.Str.{chars};
ghost use Rattle.grammar_forms.specs.Reading.{whole};
ghost use Rattle.rdf_terms.specs.Statement.{Statement, is_node, is_iri};
ghost use Rattle.rdf_grammar.specs.Answers.{GivesOr, GivesRest, GivesAll};
ghost use Rattle.ntriples_io.specs.NTriples.{is_space, is_in_line, is_not_lang_string, of_tag};
ghost use Rattle.ntriples_io.specs.Reading.{ws_at, comment_at, iri_at, blank_at, subject_at, datatype_at, type_at, kind_at, kind_or_none_at, literal_at, object_at, end_at, triple_at, line_at};
ghost use Rattle.ntriples_io.specs.Lines.{IsLine};

use rdf_grammar::{
    CharClass, Dialect, ParseError, RecentTexts, first_char, parse_absolute_iri,
    parse_blank_node_label, parse_langtag, parse_string_literal, skip, strip_char,
};
use rdf_terms::vocab::{rdf, xsd};
use rdf_terms::{Scope, Term, Text, Triple};
use std::alloc::Global;

/// Spaces and tabs.
#[derive(Clone, Copy, Debug)]
struct Spaces;

impl CharClass for Spaces {
    ghost test = { λ _. is_space };

    fn contains(&self, c: char) -> bool {
        c == ' ' || c == '\t'
    }
}

/// What may stand in a comment: any character but CR and LF.
#[derive(Clone, Copy, Debug)]
struct LineChars;

impl CharClass for LineChars {
    ghost test = { λ _. is_in_line };

    fn contains(&self, c: char) -> bool {
        !matches!(c, '\n' | '\r')
    }
}

#[tactic(auto, unfolding(crate::specs::Reading::ws_at))]
fn skip_ws(text: &str) -> &str
    ensures { ws_at (chars text.now) ≡ Some (tt, chars result.now) }
{
    skip(&Spaces, text)
}

#[tactic(auto, unfolding(crate::specs::Reading::comment_at))]
fn skip_comment(text: &str) -> Option<&str>
    ensures { GivesRest result (comment_at (chars text.now)) }
{
    let rest = strip_char(text, '#')?;
    Some(skip(&LineChars, rest))
}

#[tactic(auto, unfolding(crate::specs::Reading::iri_at))]
fn parse_iri<'a>(
    alloc: Global,
    texts: &mut RecentTexts,
    text: &'a str,
) -> Result<(Term, &'a str), ParseError>
    ensures gives { GivesOr (λ t. t) result (iri_at (chars text.now)) }
    ensures iri { IfOk result (λ x. IsTrue (is_iri x.0)) }
{
    let (iri, rest) = parse_absolute_iri(alloc, text)?;
    let iri = texts.text_of_read(iri)?;
    Ok((Term::Iri(iri), rest))
}

#[tactic(auto, unfolding(crate::specs::Reading::blank_at))]
fn parse_blank<'a>(
    alloc: Global,
    texts: &mut RecentTexts,
    scope: Scope,
    text: &'a str,
) -> Result<(Term, &'a str), ParseError>
    ensures gives { GivesOr (λ t. t) result (blank_at scope (chars text.now)) }
    ensures node { IfOk result (λ x. IsTrue (is_node x.0)) }
{
    let (label, rest) = parse_blank_node_label(alloc, Dialect::NTriples, text)?;
    let label = texts.text_of(label)?;
    Ok((Term::Blank { scope, label }, rest))
}

#[tactic(auto, unfolding(crate::specs::Reading::subject_at))]
fn parse_subject<'a>(
    alloc: Global,
    texts: &mut RecentTexts,
    scope: Scope,
    text: &'a str,
) -> Result<(Term, &'a str), ParseError>
    ensures gives { GivesOr (λ t. t) result (subject_at scope (chars text.now)) }
    ensures node { IfOk result (λ x. IsTrue (is_node x.0)) }
{
    match parse_iri(alloc, texts, text) {
        Err(ParseError::NoMatch) => parse_blank(alloc, texts, scope, text),
        answer => answer,
    }
}

fn is_not_lang_string(iri: &str) -> bool
    ensures { result ≡ is_not_lang_string iri.now }
{
    iri != rdf::LANG_STRING
}

#[tactic(auto, unfolding(crate::specs::Reading::datatype_at))]
fn parse_datatype<'a>(
    alloc: Global,
    texts: &mut RecentTexts,
    text: &'a str,
) -> Result<(Text, &'a str), ParseError>
    ensures { GivesOr (λ d. d) result (datatype_at (chars text.now)) }
{
    let (iri, rest) = parse_absolute_iri(alloc, text)?;
    if !is_not_lang_string(iri.as_str()) {
        return Err(ParseError::NoMatch);
    }
    let iri = texts.text_of_read(iri)?;
    Ok((iri, rest))
}

#[tactic(auto, unfolding(crate::specs::Reading::type_at))]
fn parse_type<'a>(
    alloc: Global,
    texts: &mut RecentTexts,
    text: &'a str,
) -> Result<((Text, Option<Text>), &'a str), ParseError>
    ensures { GivesOr (λ k. k) result (type_at (chars text.now)) }
{
    let rest = strip_char(text, '^').ok_or(ParseError::NoMatch)?;
    let rest = strip_char(rest, '^').ok_or(ParseError::NoMatch)?;
    let (datatype, rest) = parse_datatype(alloc, texts, skip_ws(rest))?;
    Ok(((datatype, None), rest))
}

fn kind_of_tag(texts: &mut RecentTexts, tag: String) -> Result<(Text, Option<Text>), ParseError>
    ensures { GivesAll (λ k. k) result (Some (of_tag (string_bytes tag))) }
{
    let datatype = texts.copy_of(rdf::LANG_STRING)?;
    let tag = texts.text_of(tag)?;
    Ok((datatype, Some(tag)))
}

#[tactic(auto, unfolding(crate::specs::Reading::kind_at))]
fn parse_kind<'a>(
    alloc: Global,
    texts: &mut RecentTexts,
    text: &'a str,
) -> Result<((Text, Option<Text>), &'a str), ParseError>
    ensures { GivesOr (λ k. k) result (kind_at (chars text.now)) }
{
    match parse_langtag(alloc, text) {
        Ok((tag, rest)) => {
            let kind = kind_of_tag(texts, tag)?;
            Ok((kind, rest))
        }
        Err(ParseError::NoMatch) => parse_type(alloc, texts, text),
        Err(error) => Err(error),
    }
}

#[tactic(auto, unfolding(crate::specs::Reading::kind_or_none_at))]
fn parse_kind_or_none<'a>(
    alloc: Global,
    texts: &mut RecentTexts,
    text: &'a str,
) -> Result<((Text, Option<Text>), &'a str), ParseError>
    ensures { GivesOr (λ k. k) result (kind_or_none_at (chars text.now)) }
{
    match parse_kind(alloc, texts, skip_ws(text)) {
        Err(ParseError::NoMatch) => {
            let datatype = texts.copy_of(xsd::STRING)?;
            Ok(((datatype, None), text))
        }
        answer => answer,
    }
}

#[tactic(auto, unfolding(crate::specs::Reading::literal_at))]
fn parse_literal<'a>(
    alloc: Global,
    texts: &mut RecentTexts,
    text: &'a str,
) -> Result<(Term, &'a str), ParseError>
    ensures { GivesOr (λ t. t) result (literal_at (chars text.now)) }
{
    let (lexical, rest) = parse_string_literal(alloc, text)?;
    let ((datatype, tag), rest) = parse_kind_or_none(alloc, texts, rest)?;
    let lexical = texts.text_of_read(lexical)?;
    let literal = Term::Literal {
        lexical,
        datatype,
        tag,
    };
    Ok((literal, rest))
}

#[tactic(auto, unfolding(crate::specs::Reading::object_at))]
fn parse_object<'a>(
    alloc: Global,
    texts: &mut RecentTexts,
    scope: Scope,
    text: &'a str,
) -> Result<(Term, &'a str), ParseError>
    ensures { GivesOr (λ t. t) result (object_at scope (chars text.now)) }
{
    match parse_iri(alloc, texts, text) {
        Err(ParseError::NoMatch) => match parse_blank(alloc, texts, scope, text) {
            Err(ParseError::NoMatch) => parse_literal(alloc, texts, text),
            answer => answer,
        },
        answer => answer,
    }
}

#[tactic(auto, unfolding(crate::specs::Reading::end_at))]
fn skip_end(text: &str) -> Option<&str>
    ensures { GivesRest result (end_at (chars text.now)) }
{
    let rest = strip_char(text, '.')?;
    Some(skip_ws(rest))
}

#[tactic(auto, unfolding(crate::specs::Reading::triple_at))]
fn parse_triple<'a>(
    alloc: Global,
    texts: &mut RecentTexts,
    scope: Scope,
    text: &'a str,
) -> Result<(Triple, &'a str), ParseError>
    ensures { GivesOr (λ t. t) result (triple_at scope (chars text.now)) }
{
    let (subject, rest) = parse_subject(alloc, texts, scope, text)?;
    let (predicate, rest) = parse_iri(alloc, texts, skip_ws(rest))?;
    let (object, rest) = parse_object(alloc, texts, scope, skip_ws(rest))?;
    let rest = skip_end(skip_ws(rest)).ok_or(ParseError::NoMatch)?;
    Ok((Triple::new(subject, predicate, object), rest))
}

#[tactic(auto, unfolding(crate::specs::Reading::line_at))]
fn parse_text(
    alloc: Global,
    texts: &mut RecentTexts,
    scope: Scope,
    text: &str,
) -> Result<Option<Triple>, ParseError>
    ensures { GivesAll (λ v. v) result (whole (line_at scope) (chars text.now)) }
{
    let text = skip_ws(text);
    let (found, rest) = match parse_triple(alloc, texts, scope, text) {
        Ok((triple, rest)) => (Some(triple), rest),
        Err(ParseError::NoMatch) => (None, text),
        Err(error) => return Err(error),
    };
    let rest = skip_comment(rest).unwrap_or(rest);
    match first_char(rest) {
        None => Ok(found),
        Some(_) => Err(ParseError::NoMatch),
    }
}

/// What one line means, without its line break: a triple, or nothing where it has no more than spaces
/// and a comment. `NoMatch` where the bytes are no line. Texts are shared with those that are kept.
pub fn parse_line(
    alloc: Global,
    texts: &mut RecentTexts,
    scope: Scope,
    bytes: &[u8],
) -> Result<Option<Triple>, ParseError>
    // What is read is a line with this meaning.
    ensures found { IfOk result (λ found. IsLine scope bytes.now found) }
    // A line is read, unless memory runs out, and has no other meaning.
    ensures only { (v : Option Statement) → IsLine scope bytes.now v →
        GivesAll (λ found. found) result (Some v) }
{
    match str::from_utf8(bytes) {
        Ok(text) => parse_text(alloc, texts, scope, text),
        Err(_) => Err(ParseError::NoMatch),
    }
}
