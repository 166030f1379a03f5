ghost use Rattle.std.specs.Prelude.{◌≡◌, IfOk, IsTrue, encode_utf8_all};
ghost use Rattle.std.specs.Str.{chars, bytes_eq};
ghost use Rattle.rdf_terms.specs.Statement.{is_node, is_iri};
ghost use Rattle.rdf_terms.specs.Vocab.Rdf.{lang_string};
ghost use Rattle.rdf_grammar.specs.Answers.{GivesAll};
ghost use Rattle.rdf_grammar.specs.Lawful.{IsIri};
ghost use Rattle.turtle_terms.specs.Keywords.{keyword_of};
ghost use Rattle.turtle_terms.specs.Literals.{unquoted_literal};
ghost use Rattle.turtle_tokens.specs.Cuts.{placed};
ghost use Rattle.turtle_statements.specs.Answers.{tokens_of, GivesTokens, Runs, RunsOne};
ghost use Rattle.turtle_statements.specs.Lexicon.{expand, name_iri, reference_iri, iri_of};
ghost use Rattle.turtle_statements.specs.Lexicon.{label_of, tag_of, string_of};
ghost use Rattle.turtle_statements.specs.Names.{names_of, AreLawfulNames};
ghost use Rattle.turtle_statements.specs.Running.{is_a, verb_at, node_run, datatype_at, quoted_at, term_run};
ghost use Rattle.turtle_statements.specs.Running.{tagged_at, typed_at};

use crate::marks::{Suffix, first_token, suffix_at};
use crate::role::scope_of;
use crate::{Context, Output};
use rdf_grammar::{ParseError, RecentTexts};
use rdf_terms::vocab::{rdf, xsd};
use rdf_terms::{Term, Text};
use std::alloc::Global;
use turtle_terms::{
    Keyword, expand_name, keyword_of, parse_iri, parse_label, parse_string, parse_tag,
    parse_unquoted, split_name,
};
use turtle_tokens::{Token, TokenKind};

/// The IRI that a prefix and a local part stand for.
fn read_parts(
    alloc: Global,
    context: &Context,
    texts: &mut RecentTexts,
    prefix: &str,
    local: &str,
) -> Result<Text, ParseError>
    ensures { GivesAll (λ iri. iri) result (expand (names_of context.now) (chars prefix.now, chars local.now)) }
{
    let namespace = context.namespace(texts, prefix)?;
    let iri = expand_name(alloc, namespace, local)?;
    Ok(texts.text_of(iri)?)
}

/// PrefixedName: the IRI of the prefix, and the local part behind it.
fn read_name(
    alloc: Global,
    context: &Context,
    texts: &mut RecentTexts,
    name: &str,
) -> Result<Text, ParseError>
    ensures { GivesAll (λ iri. iri) result (name_iri (names_of context.now) (chars name.now)) }
{
    match split_name(name) {
        Some(parts) => read_parts(alloc, context, texts, parts.prefix, parts.local),
        None => Err(ParseError::NoMatch),
    }
}

/// The IRI of an IRIREF.
pub(crate) fn read_reference(
    alloc: Global,
    context: &Context,
    texts: &mut RecentTexts,
    token: &str,
) -> Result<Text, ParseError>
    requires { AreLawfulNames (names_of context.now) }
    ensures gives { GivesAll (λ iri. iri) result (reference_iri (names_of context.now) (chars token.now)) }
    ensures lawful { IfOk result (λ iri. IsIri iri) }
{
    parse_iri(alloc, texts, context.base.as_ref(), token)
}

/// The label of a BLANK_NODE_LABEL.
fn read_label(alloc: Global, texts: &mut RecentTexts, token: &str) -> Result<Text, ParseError>
    ensures { GivesAll (λ label. label) result (label_of (chars token.now)) }
{
    parse_label(alloc, texts, token)
}

/// The tag of a LANGTAG.
fn read_tag(alloc: Global, texts: &mut RecentTexts, token: &str) -> Result<Text, ParseError>
    ensures { GivesAll (λ tag. tag) result (tag_of (chars token.now)) }
{
    parse_tag(alloc, texts, token)
}

/// The lexical form of a String.
fn read_string(alloc: Global, texts: &mut RecentTexts, token: &str) -> Result<Text, ParseError>
    ensures { GivesAll (λ lexical. lexical) result (string_of (chars token.now)) }
{
    parse_string(alloc, texts, token)
}

/// The keyword that a token of this kind and text is.
pub(crate) fn read_keyword(kind: TokenKind, text: &str) -> Option<Keyword>
    ensures { result ≡ keyword_of kind (encode_utf8_all (chars text.now)) }
{
    keyword_of(kind, text)
}

/// The literal that a number, `true` or `false` means.
fn read_unquoted(texts: &mut RecentTexts, kind: TokenKind, text: &str) -> Result<Term, ParseError>
    ensures { GivesAll (λ t. t) result (unquoted_literal kind (encode_utf8_all (chars text.now))) }
{
    parse_unquoted(texts, kind, text)
}

/// iri ::= IRIREF | PrefixedName
pub(crate) fn read_iri(
    alloc: Global,
    context: &Context,
    texts: &mut RecentTexts,
    token: &Token,
) -> Result<Text, ParseError>
    requires { AreLawfulNames (names_of context.now) }
    ensures { GivesAll (λ iri. iri) result (iri_of (names_of context.now) (placed token.now)) }
{
    match token.kind {
        TokenKind::IriRef => read_reference(alloc, context, texts, token.text),
        TokenKind::PnameNs | TokenKind::PnameLn => read_name(alloc, context, texts, token.text),
        _ => Err(ParseError::NoMatch),
    }
}

/// Whether a keyword is `a`.
fn is_a(keyword: Option<Keyword>) -> bool
    ensures { result ≡ is_a keyword }
{
    match keyword {
        Some(keyword) => matches!(keyword, Keyword::A),
        None => false,
    }
}

/// verb ::= predicate | 'a'
pub(crate) fn read_verb<'s, 't>(
    alloc: Global,
    context: &Context,
    texts: &mut RecentTexts,
    tokens: &'s [Token<'t>],
) -> Result<(Term, &'s [Token<'t>]), ParseError>
    requires { AreLawfulNames (names_of context.now) }
    ensures verb { GivesTokens (λ v. v) result (verb_at (names_of context.now) (tokens_of tokens.now)) }
    ensures iri { IfOk result (λ x. IsTrue (is_iri x.0)) }
{
    let (first, rest) = first_token(tokens)?;
    let iri = if is_a(read_keyword(first.kind, first.text)) {
        texts.copy_of(rdf::TYPE)?
    } else {
        read_iri(alloc, context, texts, first)?
    };
    Ok((Term::Iri(iri), rest))
}

/// The node that a token by itself stands for: iri | BLANK_NODE_LABEL | ANON
pub(crate) fn read_node(
    alloc: Global,
    context: &Context,
    texts: &mut RecentTexts,
    out: &mut Output,
    token: &Token,
) -> Result<Term, ParseError>
    requires { AreLawfulNames (names_of context.now) }
    ensures runs { RunsOne (λ t. t) result out.new (node_run (names_of context.now) (placed token.now) out.old) }
    ensures node { IfOk result (λ t. IsTrue (is_node t)) }
{
    match token.kind {
        TokenKind::BlankNodeLabel => Ok(Term::Blank {
            scope: scope_of(context.role),
            label: read_label(alloc, texts, token.text)?,
        }),
        TokenKind::Anon => Ok(out.new_node(alloc, context.role)?),
        _ => Ok(Term::Iri(read_iri(alloc, context, texts, token)?)),
    }
}

fn is_lang_string(iri: &str) -> bool
    ensures { result ≡ bytes_eq iri.now lang_string }
{
    iri == rdf::LANG_STRING
}

/// The datatype behind `^^`.
fn read_datatype<'s, 't>(
    alloc: Global,
    context: &Context,
    texts: &mut RecentTexts,
    tokens: &'s [Token<'t>],
) -> Result<(Text, &'s [Token<'t>]), ParseError>
    requires { AreLawfulNames (names_of context.now) }
    ensures { GivesTokens (λ d. d) result (datatype_at (names_of context.now) (tokens_of tokens.now)) }
{
    let (first, rest) = first_token(tokens)?;
    let iri = read_iri(alloc, context, texts, first)?;
    if is_lang_string(iri.as_str()) {
        return Err(ParseError::NoMatch);
    }
    Ok((iri, rest))
}

/// A literal with this lexical form, behind whose string stands a language tag.
fn read_tagged<'s, 't>(
    alloc: Global,
    texts: &mut RecentTexts,
    lexical: Text,
    tokens: &'s [Token<'t>],
) -> Result<(Term, &'s [Token<'t>]), ParseError>
    ensures { GivesTokens (λ t. t) result (tagged_at lexical (tokens_of tokens.now)) }
{
    let (first, rest) = first_token(tokens)?;
    let tag = read_tag(alloc, texts, first.text)?;
    let literal = Term::Literal {
        lexical,
        datatype: texts.copy_of(rdf::LANG_STRING)?,
        tag: Some(tag),
    };
    Ok((literal, rest))
}

/// A literal with this lexical form, behind whose string stand `^^` and a datatype.
fn read_typed<'s, 't>(
    alloc: Global,
    context: &Context,
    texts: &mut RecentTexts,
    lexical: Text,
    tokens: &'s [Token<'t>],
) -> Result<(Term, &'s [Token<'t>]), ParseError>
    requires { AreLawfulNames (names_of context.now) }
    ensures { GivesTokens (λ t. t) result (typed_at (names_of context.now) lexical (tokens_of tokens.now)) }
{
    let (_, rest) = first_token(tokens)?;
    let (datatype, rest) = read_datatype(alloc, context, texts, rest)?;
    let literal = Term::Literal {
        lexical,
        datatype,
        tag: None,
    };
    Ok((literal, rest))
}

/// RDFLiteral, whose string has this lexical form: what stands behind it.
fn read_quoted<'s, 't>(
    alloc: Global,
    context: &Context,
    texts: &mut RecentTexts,
    lexical: Text,
    tokens: &'s [Token<'t>],
) -> Result<(Term, &'s [Token<'t>]), ParseError>
    requires { AreLawfulNames (names_of context.now) }
    ensures { GivesTokens (λ t. t) result (quoted_at (names_of context.now) lexical (tokens_of tokens.now)) }
{
    match suffix_at(tokens) {
        Suffix::Tag => read_tagged(alloc, texts, lexical, tokens),
        Suffix::Datatype => read_typed(alloc, context, texts, lexical, tokens),
        Suffix::Neither => {
            let literal = Term::Literal {
                lexical,
                datatype: texts.copy_of(xsd::STRING)?,
                tag: None,
            };
            Ok((literal, tokens))
        }
    }
}

/// A term without brackets: iri | BlankNode | literal
#[tactic(auto, unfolding(crate::specs::Running::term_run))]
pub(crate) fn read_term<'s, 't>(
    alloc: Global,
    context: &Context,
    texts: &mut RecentTexts,
    out: &mut Output,
    tokens: &'s [Token<'t>],
) -> Result<(Term, &'s [Token<'t>]), ParseError>
    requires { AreLawfulNames (names_of context.now) }
    ensures { Runs (λ t. t) result out.new (term_run (names_of context.now) out.old (tokens_of tokens.now)) }
{
    let (first, rest) = first_token(tokens)?;
    match first.kind {
        TokenKind::String => {
            let lexical = read_string(alloc, texts, first.text)?;
            read_quoted(alloc, context, texts, lexical, rest)
        }
        TokenKind::Integer | TokenKind::Decimal | TokenKind::Double | TokenKind::Word => {
            Ok((read_unquoted(texts, first.kind, first.text)?, rest))
        }
        _ => Ok((read_node(alloc, context, texts, out, first)?, rest)),
    }
}
