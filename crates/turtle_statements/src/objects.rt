ghost use Rattle.std.specs.Prelude.{◌≡◌, IfOk, OnOk, IsTrue, length};
ghost use Rattle.rdf_terms.specs.Statement.{is_node, is_iri};
ghost use Rattle.rdf_terms.specs.Vocab.Rdf as rdf_terms_of;
ghost use Rattle.turtle_statements.specs.Answers.{tokens_of, Runs, RunsRest};
ghost use Rattle.turtle_statements.specs.Meaning.{say, new_node, one_more};
ghost use Rattle.turtle_statements.specs.Names.{names_of, AreLawfulNames};
ghost use Rattle.turtle_statements.specs.Running.{object_run, said_object, collection_run, members_run, bracketed_run};
ghost use Rattle.turtle_statements.specs.Running.{next_member, properties_run, optional_objects};
ghost use Rattle.turtle_statements.specs.Running.{objects_run, object_list_run};

use crate::marks::{Opening, begins_verb, is_next, opening_at, skip_kind, strip_kind};
use crate::terms::{read_term, read_verb};
use crate::{Context, Output, Role};
use rdf_grammar::{ParseError, RecentTexts};
use rdf_terms::vocab::rdf;
use rdf_terms::{OutOfMemory, Term};
use std::alloc::Global;
use turtle_tokens::{Token, TokenKind};

/// The term with this IRI.
fn named(texts: &mut RecentTexts, iri: &str) -> Result<Term, OutOfMemory>
    ensures { IfOk result (λ t. t ≡ Term.Iri iri.now) }
{
    Ok(Term::Iri(texts.copy_of(iri)?))
}

/// Says what the rest of a list is.
fn say_rest(
    alloc: Global,
    texts: &mut RecentTexts,
    out: &mut Output,
    cell: &Term,
    rest: Term,
) -> Result<(), OutOfMemory>
    requires { IsTrue (is_node cell.now) }
    ensures { OnOk result (out.new ≡ say cell.now rdf_terms_of.rest rest out.old) }
{
    let predicate = named(texts, rdf::REST)?;
    out.say(cell.copy(alloc)?, predicate, rest)
}

/// Says that the list ends with this cell.
fn end_list(
    alloc: Global,
    texts: &mut RecentTexts,
    out: &mut Output,
    cell: &Term,
) -> Result<(), OutOfMemory>
    requires { IsTrue (is_node cell.now) }
    ensures { OnOk result (out.new ≡ say cell.now rdf_terms_of.rest rdf_terms_of.nil out.old) }
{
    let nil = named(texts, rdf::NIL)?;
    say_rest(alloc, texts, out, cell, nil)
}

/// Says that a new cell is the rest of a list, and answers that cell.
fn next_cell(
    alloc: Global,
    role: Role,
    texts: &mut RecentTexts,
    out: &mut Output,
    cell: &Term,
) -> Result<Term, OutOfMemory>
    requires { IsTrue (is_node cell.now) }
    ensures cell { IfOk result (λ next. next ≡ new_node role out.old) }
    ensures node { IfOk result (λ next. IsTrue (is_node next)) }
    ensures says { OnOk result
        (out.new ≡ say cell.now rdf_terms_of.rest (new_node role out.old) (one_more out.old)) }
{
    let next = out.new_node(alloc, role)?;
    let rest = next.copy(alloc)?;
    say_rest(alloc, texts, out, cell, rest)?;
    Ok(next)
}

/// object ::= iri | BlankNode | collection | blankNodePropertyList | literal, with at most `depth` brackets inside one
/// another.
#[cycle(brackets)]
pub(crate) fn read_object<'s, 't>(
    alloc: Global,
    context: &Context,
    texts: &mut RecentTexts,
    out: &mut Output,
    depth: u64,
    tokens: &'s [Token<'t>],
) -> Result<(Term, &'s [Token<'t>]), ParseError>
    requires { AreLawfulNames (names_of context.now) }
    ensures { Runs (λ t. t) result out.new (object_run (names_of context.now) depth out.old (tokens_of tokens.now)) }
{
    if depth == 0 {
        return read_term(alloc, context, texts, out, tokens);
    }
    match opening_at(tokens) {
        Opening::Paren => read_collection(alloc, context, texts, out, depth - 1, tokens),
        Opening::Bracket => read_bracketed(alloc, context, texts, out, depth - 1, tokens),
        Opening::Neither => read_term(alloc, context, texts, out, tokens),
    }
}

/// collection ::= '(' object* ')'
#[cycle(brackets)]
#[tactic(auto, unfolding(crate::specs::Running::collection_run))]
pub(crate) fn read_collection<'s, 't>(
    alloc: Global,
    context: &Context,
    texts: &mut RecentTexts,
    out: &mut Output,
    depth: u64,
    tokens: &'s [Token<'t>],
) -> Result<(Term, &'s [Token<'t>]), ParseError>
    requires { AreLawfulNames (names_of context.now) }
    ensures runs { Runs (λ t. t) result out.new
        (collection_run context.now.role (object_run (names_of context.now) depth) out.old (tokens_of tokens.now)) }
    ensures node { IfOk result (λ x. IsTrue (is_node x.0)) }
{
    let inner = skip_kind(tokens, TokenKind::OpenParen)?;
    match strip_kind(inner, TokenKind::CloseParen) {
        Some(rest) => Ok((named(texts, rdf::NIL)?, rest)),
        None => {
            let list = out.new_node(alloc, context.role)?;
            let cell = list.copy(alloc)?;
            let rest = read_members(alloc, context, texts, out, depth, cell, inner)?;
            Ok((list, rest))
        }
    }
}

/// The members of a collection, the first of which is that of this cell, and the `)` behind them.
#[cycle(brackets)]
fn read_members<'s, 't>(
    alloc: Global,
    context: &Context,
    texts: &mut RecentTexts,
    out: &mut Output,
    depth: u64,
    cell: Term,
    tokens: &'s [Token<'t>],
) -> Result<&'s [Token<'t>], ParseError>
    requires names { AreLawfulNames (names_of context.now) }
    requires node { IsTrue (is_node cell) }
    ensures { RunsRest result out.new (members_run context.now.role (object_run (names_of context.now) depth)
        (length (tokens_of tokens.now)) cell out.old (tokens_of tokens.now)) }
{
    let mut cell = cell;
    let mut rest = read_member(alloc, context, texts, out, depth, &cell, tokens)?;
    'members: while !is_next(rest, TokenKind::CloseParen) {
        let (next, behind) = read_next_member(alloc, context, texts, out, depth, &cell, rest)?;
        cell = next;
        rest = behind;
    }
    end_list(alloc, texts, out, &cell)?;
    skip_kind(rest, TokenKind::CloseParen)
}

/// The member of a collection at the next cell, which is answered.
#[cycle(brackets)]
fn read_next_member<'s, 't>(
    alloc: Global,
    context: &Context,
    texts: &mut RecentTexts,
    out: &mut Output,
    depth: u64,
    cell: &Term,
    tokens: &'s [Token<'t>],
) -> Result<(Term, &'s [Token<'t>]), ParseError>
    requires names { AreLawfulNames (names_of context.now) }
    requires node { IsTrue (is_node cell.now) }
    ensures runs { Runs (λ t. t) result out.new (next_member context.now.role
        (object_run (names_of context.now) depth) cell.now out.old (tokens_of tokens.now)) }
    ensures node { IfOk result (λ x. IsTrue (is_node x.0)) }
{
    let next = next_cell(alloc, context.role, texts, out, cell)?;
    let rest = read_member(alloc, context, texts, out, depth, &next, tokens)?;
    Ok((next, rest))
}

/// The member of a collection at this cell.
#[cycle(brackets)]
fn read_member<'s, 't>(
    alloc: Global,
    context: &Context,
    texts: &mut RecentTexts,
    out: &mut Output,
    depth: u64,
    cell: &Term,
    tokens: &'s [Token<'t>],
) -> Result<&'s [Token<'t>], ParseError>
    requires names { AreLawfulNames (names_of context.now) }
    requires node { IsTrue (is_node cell.now) }
    ensures { RunsRest result out.new (said_object (object_run (names_of context.now) depth) cell.now
        rdf_terms_of.first out.old (tokens_of tokens.now)) }
{
    let first = named(texts, rdf::FIRST)?;
    read_said(alloc, context, texts, out, depth, cell, &first, tokens)
}

/// An object, and says the triple that it is the object of.
#[cycle(brackets)]
fn read_said<'s, 't>(
    alloc: Global,
    context: &Context,
    texts: &mut RecentTexts,
    out: &mut Output,
    depth: u64,
    subject: &Term,
    predicate: &Term,
    tokens: &'s [Token<'t>],
) -> Result<&'s [Token<'t>], ParseError>
    requires names { AreLawfulNames (names_of context.now) }
    requires node { IsTrue (is_node subject.now) }
    requires iri { IsTrue (is_iri predicate.now) }
    ensures { RunsRest result out.new (said_object (object_run (names_of context.now) depth) subject.now
        predicate.now out.old (tokens_of tokens.now)) }
{
    let (object, rest) = read_object(alloc, context, texts, out, depth, tokens)?;
    out.say(subject.copy(alloc)?, predicate.copy(alloc)?, object)?;
    Ok(rest)
}

/// blankNodePropertyList ::= '[' predicateObjectList ']'
#[cycle(brackets)]
#[tactic(auto, unfolding(crate::specs::Running::bracketed_run))]
pub(crate) fn read_bracketed<'s, 't>(
    alloc: Global,
    context: &Context,
    texts: &mut RecentTexts,
    out: &mut Output,
    depth: u64,
    tokens: &'s [Token<'t>],
) -> Result<(Term, &'s [Token<'t>]), ParseError>
    requires { AreLawfulNames (names_of context.now) }
    ensures runs { Runs (λ t. t) result out.new
        (bracketed_run (names_of context.now) (object_run (names_of context.now) depth) out.old
        (tokens_of tokens.now)) }
    ensures node { IfOk result (λ x. IsTrue (is_node x.0)) }
{
    let inner = skip_kind(tokens, TokenKind::OpenBracket)?;
    let node = out.new_node(alloc, context.role)?;
    let rest = read_properties(alloc, context, texts, out, depth, &node, inner)?;
    let behind = skip_kind(rest, TokenKind::CloseBracket)?;
    Ok((node, behind))
}

/// predicateObjectList ::= verb objectList (';' (verb objectList)?)*
#[cycle(brackets)]
pub(crate) fn read_properties<'s, 't>(
    alloc: Global,
    context: &Context,
    texts: &mut RecentTexts,
    out: &mut Output,
    depth: u64,
    subject: &Term,
    tokens: &'s [Token<'t>],
) -> Result<&'s [Token<'t>], ParseError>
    requires names { AreLawfulNames (names_of context.now) }
    requires node { IsTrue (is_node subject.now) }
    ensures { RunsRest result out.new (properties_run (names_of context.now)
        (object_run (names_of context.now) depth) subject.now out.old (tokens_of tokens.now)) }
{
    let mut rest = read_objects(alloc, context, texts, out, depth, subject, tokens)?;
    'semicolons: while is_next(rest, TokenKind::Semicolon) {
        let after = skip_kind(rest, TokenKind::Semicolon)?;
        rest = read_optional_objects(alloc, context, texts, out, depth, subject, after)?;
    }
    Ok(rest)
}

/// (verb objectList)?
#[cycle(brackets)]
fn read_optional_objects<'s, 't>(
    alloc: Global,
    context: &Context,
    texts: &mut RecentTexts,
    out: &mut Output,
    depth: u64,
    subject: &Term,
    tokens: &'s [Token<'t>],
) -> Result<&'s [Token<'t>], ParseError>
    requires names { AreLawfulNames (names_of context.now) }
    requires node { IsTrue (is_node subject.now) }
    ensures { RunsRest result out.new (optional_objects (names_of context.now)
        (object_run (names_of context.now) depth) subject.now out.old (tokens_of tokens.now)) }
{
    if begins_verb(tokens) {
        read_objects(alloc, context, texts, out, depth, subject, tokens)
    } else {
        Ok(tokens)
    }
}

/// verb objectList
#[cycle(brackets)]
fn read_objects<'s, 't>(
    alloc: Global,
    context: &Context,
    texts: &mut RecentTexts,
    out: &mut Output,
    depth: u64,
    subject: &Term,
    tokens: &'s [Token<'t>],
) -> Result<&'s [Token<'t>], ParseError>
    requires names { AreLawfulNames (names_of context.now) }
    requires node { IsTrue (is_node subject.now) }
    ensures { RunsRest result out.new (objects_run (names_of context.now)
        (object_run (names_of context.now) depth) subject.now out.old (tokens_of tokens.now)) }
{
    let (verb, objects) = read_verb(alloc, context, texts, tokens)?;
    read_object_list(alloc, context, texts, out, depth, subject, &verb, objects)
}

/// objectList ::= object (',' object)*
#[cycle(brackets)]
fn read_object_list<'s, 't>(
    alloc: Global,
    context: &Context,
    texts: &mut RecentTexts,
    out: &mut Output,
    depth: u64,
    subject: &Term,
    verb: &Term,
    tokens: &'s [Token<'t>],
) -> Result<&'s [Token<'t>], ParseError>
    requires names { AreLawfulNames (names_of context.now) }
    requires node { IsTrue (is_node subject.now) }
    requires iri { IsTrue (is_iri verb.now) }
    ensures { RunsRest result out.new (object_list_run (object_run (names_of context.now) depth) subject.now
        verb.now out.old (tokens_of tokens.now)) }
{
    let mut rest = read_said(alloc, context, texts, out, depth, subject, verb, tokens)?;
    'commas: while is_next(rest, TokenKind::Comma) {
        let after = skip_kind(rest, TokenKind::Comma)?;
        rest = read_said(alloc, context, texts, out, depth, subject, verb, after)?;
    }
    Ok(rest)
}
