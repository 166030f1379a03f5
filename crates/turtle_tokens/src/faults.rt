ghost use Rattle.std.specs.Prelude.{◌≡◌, ◌≤◌, IfOk, map, codes, encode_utf8_all, nat_eq};
ghost use Rattle.std.specs.List.{starts_with};
ghost use Rattle.std.specs.Str.{chars};
ghost use Rattle.turtle_tokens.specs.Cuts.{placed};
ghost use Rattle.turtle_tokens.specs.Faults.{effect_of, first_fault, IsStep};

use crate::{Token, TokenKind};

/// A fault that a token of a statement has by itself. `at` is the number of bytes of the document before the token.
#[derive(Clone, Copy, Debug, PartialEq, Eq)]
pub enum TokenFault {
    /// The bracket is open beside 128 others.
    TooDeep { at: u64 },
    /// The blank node label begins with `x-anon-`.
    ReservedLabel { at: u64 },
}

/// What a token does to the brackets that are open.
#[derive(Clone, Copy)]
pub enum Effect {
    Opening,
    Closing,
    /// Nothing, but its label is reserved.
    Reserved,
    Plain,
}

fn is_reserved(label: &str) -> bool
    ensures { result ≡ starts_with nat_eq (encode_utf8_all (chars label.now)) (codes "_:x-anon-") }
{
    label.as_bytes().starts_with(b"_:x-anon-")
}

fn effect_of(kind: TokenKind, text: &str) -> Effect
    ensures { result ≡ effect_of kind (chars text.now) }
{
    match kind {
        TokenKind::OpenBracket | TokenKind::OpenParen => Effect::Opening,
        TokenKind::CloseBracket | TokenKind::CloseParen => Effect::Closing,
        TokenKind::BlankNodeLabel => {
            if is_reserved(text) {
                Effect::Reserved
            } else {
                Effect::Plain
            }
        }
        _ => Effect::Plain,
    }
}

/// How many brackets are open behind a token, where `opened` are open before it.
fn open_behind(token: &Token, opened: usize) -> Result<usize, TokenFault>
    requires { opened ≤ 128 }
    ensures few { IfOk result (λ n. n ≤ 128) }
    ensures step { IsStep (placed token.now) opened result }
{
    let at = token.at;
    match effect_of(token.kind, token.text) {
        Effect::Opening if opened == 128 => Err(TokenFault::TooDeep { at }),
        Effect::Opening => Ok(opened + 1),
        Effect::Closing => Ok(opened.saturating_sub(1)),
        Effect::Reserved => Err(TokenFault::ReservedLabel { at }),
        Effect::Plain => Ok(opened),
    }
}

/// The first fault that a token of the statement has by itself, in the order of the text: a `[` or `(` that makes 129
/// open brackets, or a blank node label that begins with `x-anon-`. A `]` or `)` closes a bracket where one is open,
/// whichever it is.
pub fn token_fault(tokens: &[Token]) -> Option<TokenFault>
    ensures { result ≡ first_fault 0 (map placed tokens.now) }
{
    let mut opened = 0;
    'tokens: for token in tokens {
        match open_behind(token, opened) {
            Ok(further) => opened = further,
            Err(fault) => return Some(fault),
        }
    }
    None
}
