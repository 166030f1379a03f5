ghost use Rattle.std.specs.Prelude.{◌≡◌, ◌+◌, ◌<◌, ◌^◌, length, true, false, IfOk, OnOk};
ghost use Rattle.ntriples_io.specs.RoundTrip.{HasScope};
ghost use Rattle.ntriples_io.specs.Text.{AreLawful};
ghost use Rattle.turtle_statements.specs.Answers.{tokens_of};
ghost use Rattle.turtle_statements.specs.Meaning.{scope_of};
ghost use Rattle.turtle_statements.specs.Names.{names_of, AreLawfulNames};
ghost use Rattle.turtle_io.specs.Documents.{IsAnswer, IsOnlyAnswer};
ghost use Rattle.turtle_io.specs.Loop.{state_of, HasMore, HasNoMore, AcceptsOr, IsRead};

use crate::TurtleRefusal;
use crate::refusal::refusal_of;
use rdf_grammar::{ParseError, RecentTexts};
use rdf_terms::Graph;
use std::alloc::Global;
use turtle_statements::{Context, Output, Role, read_statement};
use turtle_tokens::{Token, cut_statement, skip_filling, token_fault, utf8_front};

/// Whether bytes of the document are left, where this text is left of it and `at_end` says that none stand behind the
/// text.
fn has_more(text: &str, at_end: bool) -> bool
    ensures more { result ≡ true → HasMore at_end text.now }
    ensures none { result ≡ false → HasNoMore at_end text.now }
{
    if !text.is_empty() {
        return true;
    }
    !at_end
}

/// Reads one statement, whose tokens begin at a place.
fn accept(
    alloc: Global,
    context: &mut Context,
    texts: &mut RecentTexts,
    out: &mut Output,
    at: u64,
    tokens: &[Token],
) -> Result<(), TurtleRefusal>
    requires { AreLawfulNames (names_of context.old) }
    ensures accepts { AcceptsOr (state_of context.old out.old) at (tokens_of tokens.now) result
        (state_of context.new out.new) }
    ensures lawful { OnOk result (AreLawfulNames (names_of context.new)) }
{
    if let Some(fault) = token_fault(tokens) {
        return Err(refusal_of(fault));
    }
    match read_statement(alloc, context, texts, out, tokens) {
        Ok(()) => Ok(()),
        Err(ParseError::NoMatch) => Err(TurtleRefusal::Syntax { statement_at: at }),
        Err(ParseError::OutOfMemory) => Err(TurtleRefusal::OutOfMemory),
    }
}

/// Reads all statements of a text. Before it stand `at` bytes of the document; `at_end` says that none stand behind it.
fn read_statements(
    alloc: Global,
    role: Role,
    text: &str,
    at: u64,
    at_end: bool,
) -> Result<Output, TurtleRefusal>
    requires { at + length text.now < 2 ^ 64 }
    ensures { IsRead at_end at text.now role result }
{
    let mut context = Context::new(alloc, role);
    let mut texts = RecentTexts::new(alloc);
    texts.keep()?;
    let mut out = Output::new(alloc);
    let mut rest = text;
    let mut here = at;
    'statements: while has_more(rest, at_end) {
        let statement = cut_statement(alloc, rest, here, at_end)?;
        let tokens = statement.tokens.as_slice();
        accept(alloc, &mut context, &mut texts, &mut out, here, tokens)?;
        rest = statement.rest;
        here = statement.next_at;
    }
    Ok(out)
}

/// Reads a document of Turtle: the graph of its statements, or why the first of them that is not accepted is refused.
/// All terms are lawful, and blank nodes have the scope of the role.
pub fn read_turtle(alloc: Global, bytes: &[u8], role: Role) -> Result<Graph, TurtleRefusal>
    ensures answer { IsAnswer bytes.now role result }
    ensures only { IsOnlyAnswer bytes.now role result }
    ensures lawful { IfOk result AreLawful }
    ensures scope { IfOk result (HasScope (scope_of role)) }
{
    let (text, at_end) = utf8_front(bytes);
    let rest = skip_filling(text, at_end);
    let at = (text.len() - rest.len()) as u64;
    let out = read_statements(alloc, role, rest, at, at_end)?;
    Ok(Graph::from_triples(alloc, out.triples)?)
}
