ghost use Rattle.std.specs.Prelude.{◌≡◌, IfOk, OnOk, IsTrue};
ghost use Rattle.std.specs.Str.{chars};
ghost use Rattle.rdf_terms.specs.Statement.{is_node};
ghost use Rattle.rdf_grammar.specs.Answers.{GivesAll};
ghost use Rattle.rdf_grammar.specs.Lawful.{IsIri};
ghost use Rattle.turtle_tokens.specs.Cuts.{placed};
ghost use Rattle.turtle_statements.specs.Answers.{tokens_of, GivesTokens, Runs, RunsRest, LeavesNames, LeavesState};
ghost use Rattle.turtle_statements.specs.Lexicon.{prefix_before_colon};
ghost use Rattle.turtle_statements.specs.Names.{names_of, AreLawfulNames};
ghost use Rattle.turtle_statements.specs.Running.{node_at, subject_run, with_subject, with_bracket, triples_run};
ghost use Rattle.turtle_statements.specs.Running.{start_of, reference_at, prefix_at};
ghost use Rattle.turtle_statements.specs.Running.{base_at, prefix_of, statement_at};
ghost use Rattle.turtle_statements.specs.Statements.{IsAccepted};

use crate::marks::{Opening, begins_verb, first_token, is_kind, opening_at, skip_kind};
use crate::objects::{read_bracketed, read_collection, read_properties};
use crate::terms::{read_keyword, read_node, read_reference};
use crate::{Context, Output};
use rdf_grammar::{ParseError, RecentTexts};
use rdf_terms::{Term, Text};
use std::alloc::Global;
use turtle_terms::{Keyword, split_name};
use turtle_tokens::{Token, TokenKind};

/// How many brackets an object may have inside one another.
const MOST_OPEN: u64 = 128;

/// What a statement begins with.
#[derive(Clone, Copy)]
pub enum Start {
    /// `@prefix`
    Prefix,
    /// `@base`
    Base,
    /// `PREFIX` in any case.
    SparqlPrefix,
    /// `BASE` in any case.
    SparqlBase,
    /// The subject of triples.
    Triples,
}

fn start_of_keyword(keyword: Keyword) -> Start
    ensures { result ≡ start_of (Some keyword) }
{
    match keyword {
        Keyword::Prefix => Start::Prefix,
        Keyword::Base => Start::Base,
        Keyword::SparqlPrefix => Start::SparqlPrefix,
        Keyword::SparqlBase => Start::SparqlBase,
        Keyword::A | Keyword::True | Keyword::False => Start::Triples,
    }
}

fn start_of(keyword: Option<Keyword>) -> Start
    ensures { result ≡ start_of keyword }
{
    match keyword {
        Some(keyword) => start_of_keyword(keyword),
        None => Start::Triples,
    }
}

/// A node without brackets.
fn read_plain_node<'s, 't>(
    alloc: Global,
    context: &Context,
    texts: &mut RecentTexts,
    out: &mut Output,
    tokens: &'s [Token<'t>],
) -> Result<(Term, &'s [Token<'t>]), ParseError>
    requires { AreLawfulNames (names_of context.now) }
    ensures runs { Runs (λ t. t) result out.new (node_at (names_of context.now) out.old (tokens_of tokens.now)) }
    ensures node { IfOk result (λ x. IsTrue (is_node x.0)) }
{
    let (first, rest) = first_token(tokens)?;
    let node = read_node(alloc, context, texts, out, first)?;
    Ok((node, rest))
}

/// subject ::= iri | BlankNode | collection
#[tactic(auto, unfolding(crate::specs::Running::subject_run))]
fn read_subject<'s, 't>(
    alloc: Global,
    context: &Context,
    texts: &mut RecentTexts,
    out: &mut Output,
    tokens: &'s [Token<'t>],
) -> Result<(Term, &'s [Token<'t>]), ParseError>
    requires { AreLawfulNames (names_of context.now) }
    ensures runs { Runs (λ t. t) result out.new (subject_run (names_of context.now) out.old (tokens_of tokens.now)) }
    ensures node { IfOk result (λ x. IsTrue (is_node x.0)) }
{
    match opening_at(tokens) {
        Opening::Paren => read_collection(alloc, context, texts, out, MOST_OPEN, tokens),
        Opening::Bracket | Opening::Neither => {
            read_plain_node(alloc, context, texts, out, tokens)
        }
    }
}

/// subject predicateObjectList
fn read_with_subject<'s, 't>(
    alloc: Global,
    context: &Context,
    texts: &mut RecentTexts,
    out: &mut Output,
    tokens: &'s [Token<'t>],
) -> Result<&'s [Token<'t>], ParseError>
    requires { AreLawfulNames (names_of context.now) }
    ensures { RunsRest result out.new (with_subject (names_of context.now) out.old (tokens_of tokens.now)) }
{
    let (subject, rest) = read_subject(alloc, context, texts, out, tokens)?;
    read_properties(alloc, context, texts, out, MOST_OPEN, &subject, rest)
}

/// blankNodePropertyList predicateObjectList?
fn read_with_bracket<'s, 't>(
    alloc: Global,
    context: &Context,
    texts: &mut RecentTexts,
    out: &mut Output,
    tokens: &'s [Token<'t>],
) -> Result<&'s [Token<'t>], ParseError>
    requires { AreLawfulNames (names_of context.now) }
    ensures { RunsRest result out.new (with_bracket (names_of context.now) out.old (tokens_of tokens.now)) }
{
    let (subject, rest) = read_bracketed(alloc, context, texts, out, MOST_OPEN, tokens)?;
    if begins_verb(rest) {
        read_properties(alloc, context, texts, out, MOST_OPEN, &subject, rest)
    } else {
        Ok(rest)
    }
}

/// triples ::= subject predicateObjectList | blankNodePropertyList predicateObjectList?
#[tactic(auto, unfolding(crate::specs::Running::triples_run))]
fn read_triples<'s, 't>(
    alloc: Global,
    context: &Context,
    texts: &mut RecentTexts,
    out: &mut Output,
    tokens: &'s [Token<'t>],
) -> Result<&'s [Token<'t>], ParseError>
    requires { AreLawfulNames (names_of context.now) }
    ensures { RunsRest result out.new (triples_run (names_of context.now) out.old (tokens_of tokens.now)) }
{
    match opening_at(tokens) {
        Opening::Bracket => read_with_bracket(alloc, context, texts, out, tokens),
        Opening::Paren | Opening::Neither => {
            read_with_subject(alloc, context, texts, out, tokens)
        }
    }
}

/// The IRI of an IRIREF, and the tokens behind it.
#[tactic(auto, unfolding(crate::specs::Running::reference_at))]
fn read_iriref<'s, 't>(
    alloc: Global,
    context: &Context,
    texts: &mut RecentTexts,
    tokens: &'s [Token<'t>],
) -> Result<(Text, &'s [Token<'t>]), ParseError>
    requires { AreLawfulNames (names_of context.now) }
    ensures gives { GivesTokens (λ iri. iri) result (reference_at (names_of context.now) (tokens_of tokens.now)) }
    ensures lawful { IfOk result (λ x. IsIri x.0) }
{
    let (first, rest) = first_token(tokens)?;
    if !is_kind(first.kind, TokenKind::IriRef) {
        return Err(ParseError::NoMatch);
    }
    let iri = read_reference(alloc, context, texts, first.text)?;
    Ok((iri, rest))
}

/// The prefix before the colon of a name.
fn split_prefix(name: &str) -> Result<&str, ParseError>
    ensures { GivesAll (λ prefix. prefix.now) result (prefix_before_colon (chars name.now)) }
{
    match split_name(name) {
        Some(parts) => Ok(parts.prefix),
        None => Err(ParseError::NoMatch),
    }
}

/// The prefix that a PNAME_NS declares.
fn parse_prefix<'t>(token: &Token<'t>) -> Result<&'t str, ParseError>
    ensures { GivesAll (λ prefix. prefix.now) result (prefix_of (placed token.now)) }
{
    if !is_kind(token.kind, TokenKind::PnameNs) {
        return Err(ParseError::NoMatch);
    }
    split_prefix(token.text)
}

/// PNAME_NS IRIREF, behind the word of a directive.
#[tactic(auto, unfolding(crate::specs::Running::prefix_at))]
fn read_prefix<'s, 't>(
    alloc: Global,
    context: &mut Context,
    texts: &mut RecentTexts,
    tokens: &'s [Token<'t>],
) -> Result<&'s [Token<'t>], ParseError>
    requires { AreLawfulNames (names_of context.old) }
    ensures gives { LeavesNames result (names_of context.new)
        (prefix_at (names_of context.old) (tokens_of tokens.now)) }
    ensures lawful { OnOk result (AreLawfulNames (names_of context.new)) }
{
    let (first, rest) = first_token(tokens)?;
    let prefix = parse_prefix(first)?;
    let (iri, rest) = read_iriref(alloc, context, texts, rest)?;
    context.declare(texts, prefix, iri)?;
    Ok(rest)
}

/// IRIREF, behind the word of a directive.
#[tactic(auto, unfolding(crate::specs::Running::base_at))]
fn read_base<'s, 't>(
    alloc: Global,
    context: &mut Context,
    texts: &mut RecentTexts,
    tokens: &'s [Token<'t>],
) -> Result<&'s [Token<'t>], ParseError>
    requires { AreLawfulNames (names_of context.old) }
    ensures gives { LeavesNames result (names_of context.new)
        (base_at (names_of context.old) (tokens_of tokens.now)) }
    ensures lawful { OnOk result (AreLawfulNames (names_of context.new)) }
{
    let (iri, rest) = read_iriref(alloc, context, texts, tokens)?;
    context.rebase(iri);
    Ok(rest)
}

/// statement ::= directive | triples '.', at the front of the tokens.
#[tactic(auto, unfolding(crate::specs::Running::statement_at))]
fn read_front<'s, 't>(
    alloc: Global,
    context: &mut Context,
    texts: &mut RecentTexts,
    out: &mut Output,
    tokens: &'s [Token<'t>],
) -> Result<&'s [Token<'t>], ParseError>
    requires { AreLawfulNames (names_of context.old) }
    ensures reads { LeavesState result (names_of context.new) out.new
        (statement_at (names_of context.old) out.old (tokens_of tokens.now)) }
    ensures lawful { OnOk result (AreLawfulNames (names_of context.new)) }
{
    let (first, rest) = first_token(tokens)?;
    match start_of(read_keyword(first.kind, first.text)) {
        Start::Prefix => {
            let rest = read_prefix(alloc, context, texts, rest)?;
            skip_kind(rest, TokenKind::Dot)
        }
        Start::Base => {
            let rest = read_base(alloc, context, texts, rest)?;
            skip_kind(rest, TokenKind::Dot)
        }
        Start::SparqlPrefix => read_prefix(alloc, context, texts, rest),
        Start::SparqlBase => read_base(alloc, context, texts, rest),
        Start::Triples => {
            let rest = read_triples(alloc, context, texts, out, tokens)?;
            skip_kind(rest, TokenKind::Dot)
        }
    }
}

/// Reads all tokens of one statement (RDF 1.1 Turtle, section 6.5): what it says is added to the output, or it changes
/// the context. `NoMatch` where they are no statement, or one that has no meaning in this context: a prefix that is not
/// declared, a relative reference without a base, an escape of no character that may stand there, or `rdf:langString`
/// behind `^^`. `OutOfMemory` where memory ends. After an error the context and the output may hold a part of it.
pub fn read_statement(
    alloc: Global,
    context: &mut Context,
    texts: &mut RecentTexts,
    out: &mut Output,
    tokens: &[Token],
) -> Result<(), ParseError>
    requires { AreLawfulNames (names_of context.old) }
    ensures means { IsAccepted result (names_of context.old) out.old (tokens_of tokens.now)
        (names_of context.new) out.new }
    ensures lawful { OnOk result (AreLawfulNames (names_of context.new)) }
{
    let rest = read_front(alloc, context, texts, out, tokens)?;
    if rest.is_empty() {
        Ok(())
    } else {
        Err(ParseError::NoMatch)
    }
}
