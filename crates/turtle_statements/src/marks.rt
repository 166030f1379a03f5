ghost use Rattle.std.specs.Prelude.{◌≡◌, is_some};
ghost use Rattle.rdf_grammar.specs.Answers.{GivesAll};
ghost use Rattle.turtle_tokens.specs.Cuts.{placed};
ghost use Rattle.turtle_statements.specs.Answers.{tokens_of, SplitsTokens, GivesTokens, LeavesTokens};
ghost use Rattle.turtle_statements.specs.Running.{uncons, is_kind, strip_kind, can_begin_verb, begins_verb};
ghost use Rattle.turtle_statements.specs.Running.{opening_of, opening_at, suffix_of, suffix_at};

use rdf_grammar::ParseError;
use turtle_tokens::{Token, TokenKind};

/// The bracket that a term begins with.
#[derive(Clone, Copy)]
pub enum Opening {
    /// `(`
    Paren,
    /// `[`
    Bracket,
    Neither,
}

/// What stands behind a string.
#[derive(Clone, Copy)]
pub enum Suffix {
    /// A language tag.
    Tag,
    /// `^^` and a datatype.
    Datatype,
    Neither,
}

/// Whether two kinds are the same.
pub(crate) fn is_kind(kind: TokenKind, other: TokenKind) -> bool
    ensures { result ≡ is_kind kind other }
{
    kind == other
}

/// The first token, and those behind it.
fn split_token<'s, 't>(tokens: &'s [Token<'t>]) -> Option<(&'s Token<'t>, &'s [Token<'t>])>
    ensures { SplitsTokens result (uncons (tokens_of tokens.now)) }
{
    match tokens.split_first() {
        Some((first, rest)) => Some((first, rest)),
        None => None,
    }
}

/// The same, or `NoMatch` where there is none.
pub(crate) fn first_token<'s, 't>(
    tokens: &'s [Token<'t>],
) -> Result<(&'s Token<'t>, &'s [Token<'t>]), ParseError>
    ensures { GivesTokens (λ t. placed t.now) result (uncons (tokens_of tokens.now)) }
{
    match split_token(tokens) {
        Some(parts) => Ok(parts),
        None => Err(ParseError::NoMatch),
    }
}

/// The tokens behind the first, where it is of this kind.
pub(crate) fn strip_kind<'s, 't>(
    tokens: &'s [Token<'t>],
    kind: TokenKind,
) -> Option<&'s [Token<'t>]>
    ensures { LeavesTokens result (strip_kind kind (tokens_of tokens.now)) }
{
    let (first, rest) = split_token(tokens)?;
    if is_kind(first.kind, kind) {
        Some(rest)
    } else {
        None
    }
}

/// The same, or `NoMatch`.
pub(crate) fn skip_kind<'s, 't>(
    tokens: &'s [Token<'t>],
    kind: TokenKind,
) -> Result<&'s [Token<'t>], ParseError>
    ensures { GivesAll (λ rest. tokens_of rest.now) result (strip_kind kind (tokens_of tokens.now)) }
{
    match strip_kind(tokens, kind) {
        Some(rest) => Ok(rest),
        None => Err(ParseError::NoMatch),
    }
}

/// Whether the first token is of this kind.
pub(crate) fn is_next(tokens: &[Token], kind: TokenKind) -> bool
    ensures { result ≡ is_some (strip_kind kind (tokens_of tokens.now)) }
{
    strip_kind(tokens, kind).is_some()
}

fn can_begin_verb(kind: TokenKind) -> bool
    ensures { result ≡ can_begin_verb kind }
{
    matches!(
        kind,
        TokenKind::IriRef | TokenKind::PnameNs | TokenKind::PnameLn | TokenKind::Word
    )
}

/// Whether a verb may begin here.
pub(crate) fn begins_verb(tokens: &[Token]) -> bool
    ensures { result ≡ begins_verb (tokens_of tokens.now) }
{
    match split_token(tokens) {
        Some((first, _)) => can_begin_verb(first.kind),
        None => false,
    }
}

fn opening_of(kind: TokenKind) -> Opening
    ensures { result ≡ opening_of kind }
{
    match kind {
        TokenKind::OpenParen => Opening::Paren,
        TokenKind::OpenBracket => Opening::Bracket,
        _ => Opening::Neither,
    }
}

/// The bracket that a term here begins with.
pub(crate) fn opening_at(tokens: &[Token]) -> Opening
    ensures { result ≡ opening_at (tokens_of tokens.now) }
{
    match split_token(tokens) {
        Some((first, _)) => opening_of(first.kind),
        None => Opening::Neither,
    }
}

fn suffix_of(kind: TokenKind) -> Suffix
    ensures { result ≡ suffix_of kind }
{
    match kind {
        TokenKind::LangTag => Suffix::Tag,
        TokenKind::DoubleCaret => Suffix::Datatype,
        _ => Suffix::Neither,
    }
}

/// What stands here behind a string.
pub(crate) fn suffix_at(tokens: &[Token]) -> Suffix
    ensures { result ≡ suffix_at (tokens_of tokens.now) }
{
    match split_token(tokens) {
        Some((first, _)) => suffix_of(first.kind),
        None => Suffix::Neither,
    }
}
