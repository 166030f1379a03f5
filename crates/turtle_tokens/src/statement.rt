ghost use Rattle.std.specs.Prelude.{◌≡◌, ◌+◌, ◌<◌, ◌≤◌, ◌^◌, ◌&&◌, IfOk, length, map, encode_utf8_all};
ghost use Rattle.std.specs.Str.{chars, str_eq_ignore_ascii_case};
ghost use Rattle.turtle_tokens.specs.Places.{is_dot, is_word, has_all_arguments};
ghost use Rattle.turtle_tokens.specs.Cuts.{placed, IsTokenAt, AreTokensOf};

use crate::{TokenKind, next_token, skip_filling};
use rdf_terms::OutOfMemory;
use std::alloc::Global;

/// A token of a document.
#[derive(Clone, Copy, Debug)]
pub struct Token<'t> {
    /// How many bytes of the document stand before it.
    pub at: u64,
    pub kind: TokenKind,
    /// The token as it is written.
    pub text: &'t str,
}

/// The tokens of a statement, and where the next statement begins.
#[derive(Debug, Drop)]
pub struct StatementTokens<'t> {
    pub tokens: Vec<Token<'t>>,
    /// How many bytes of the document stand before the next statement.
    pub next_at: u64,
    /// What is left of the text there.
    pub rest: &'t str,
}

/// The token at the front of the text, before which `at` bytes of the document stand, and the rest behind it.
fn placed_token_at<'t>(text: &'t str, at: u64) -> Option<(Token<'t>, &'t str)>
    ensures { IsTokenAt at text.now result }
{
    match next_token(text) {
        Some((kind, after)) => {
            let (front, rest) = text.split_at(text.len() - after.len());
            Some((
                Token {
                    at,
                    kind,
                    text: front,
                },
                rest,
            ))
        }
        None => None,
    }
}

fn is_dot(kind: TokenKind) -> bool
    ensures { result ≡ is_dot kind }
{
    matches!(kind, TokenKind::Dot)
}

fn is_word(kind: TokenKind) -> bool
    ensures { result ≡ is_word kind }
{
    matches!(kind, TokenKind::Word)
}

/// Whether the token is this keyword in any case.
fn is_keyword(kind: TokenKind, text: &str, keyword: &str) -> bool
    ensures { result
        ≡ (is_word kind && str_eq_ignore_ascii_case (encode_utf8_all (chars text.now)) keyword.now) }
{
    is_word(kind) && text.eq_ignore_ascii_case(keyword)
}

/// Whether PREFIX or BASE and all tokens that may stand behind it are there.
fn has_all_arguments(tokens: &[Token]) -> bool
    ensures { result ≡ has_all_arguments (map placed tokens.now) }
{
    match tokens.split_first() {
        Some((first, rest)) => {
            (is_keyword(first.kind, first.text, "PREFIX") && rest.len() >= 2)
                || (is_keyword(first.kind, first.text, "BASE") && rest.len() >= 1)
        }
        None => false,
    }
}

/// The tokens of the statement that begins at the front of the text, which is to have no filling there: up to the
/// first `.`, to as many tokens as PREFIX and BASE take (three and two with themselves), or to a place where no token
/// is. Before the text stand `at` bytes of the document; `at_end` says that none stand behind it.
///
/// The one error is want of memory.
pub fn cut_statement<'t>(
    alloc: Global,
    text: &'t str,
    at: u64,
    at_end: bool,
) -> Result<StatementTokens<'t>, OutOfMemory>
    requires { at + length text.now < 2 ^ 64 }
    ensures cut { IfOk result (λ s. AreTokensOf at_end at text.now s.tokens.items s.next_at s.rest.now) }
    ensures next { IfOk result (λ s. s.next_at + length s.rest.now ≡ at + length text.now) }
    ensures progress { IfOk result (λ s. length s.tokens.items + length s.rest.now ≤ length text.now) }
{
    let mut tokens = Vec::new(alloc);
    let mut rest = text;
    let mut next_at = at;
    let mut ended = false;
    'tokens: while !ended && !has_all_arguments(tokens.as_slice()) {
        match placed_token_at(rest, next_at) {
            Some((token, after)) => {
                let next = skip_filling(after, at_end);
                next_at += (rest.len() - next.len()) as u64;
                ended = is_dot(token.kind);
                tokens.push(token)?;
                rest = next;
            }
            None => {
                return Ok(StatementTokens {
                    tokens,
                    next_at,
                    rest,
                });
            }
        }
    }
    Ok(StatementTokens {
        tokens,
        next_at,
        rest,
    })
}
