ghost use Rattle.std.specs.Prelude.{◌≡◌, ◌∷◌, ◌++◌, IfSome, IfNone, true, ◌==◌, ◌&&◌};
ghost use Rattle.std.specs.List.{list_all};
ghost use Rattle.ntriples_io.specs.Cutting.{is_break, is_plain};
ghost use Rattle.ntriples_io.specs.Text.{ReadsLine};

use crate::NtRefusal;
use crate::line::parse_line;
use rdf_grammar::{ParseError, RecentTexts};
use rdf_terms::{Scope, Triples};
use std::alloc::Global;

fn is_break(b: u8) -> bool
    ensures { result ≡ is_break b }
{
    b == b'\n' || b == b'\r'
}

/// Whether the break is the LF of a CR and LF.
pub fn ends_pair(b: u8, after_cr: bool) -> bool
    ensures { result ≡ ((b == 10) && after_cr) }
{
    b == b'\n' && after_cr
}

/// The bytes before the first break, the break, and the bytes behind it.
pub fn split_at_break(bytes: &[u8]) -> Option<(&[u8], u8, &[u8])>
    ensures parts { IfSome result (λ x. bytes.now ≡ x.0.now ++ x.1 ∷ x.2.now) }
    ensures plain { IfSome result (λ x. list_all is_plain x.0.now ≡ true) }
    ensures ended { IfSome result (λ x. is_break x.1 ≡ true) }
    ensures none { IfNone result (list_all is_plain bytes.now ≡ true) }
{
    for i in 0..bytes.len() {
        if is_break(bytes[i]) {
            return Some((&bytes[..i], bytes[i], &bytes[i + 1..]));
        }
    }
    None
}

/// Appends the triple of the line with this number to the others.
pub fn push_line_triple(
    alloc: Global,
    texts: &mut RecentTexts,
    scope: Scope,
    line: u64,
    piece: &[u8],
    triples: &mut Triples,
) -> Result<(), NtRefusal>
    ensures { ReadsLine scope line piece.now triples.old triples.new result }
{
    match parse_line(alloc, texts, scope, piece) {
        Ok(None) => Ok(()),
        Ok(Some(triple)) => {
            triples.push(triple)?;
            Ok(())
        }
        Err(ParseError::NoMatch) => Err(NtRefusal::Syntax { line }),
        Err(ParseError::OutOfMemory) => Err(NtRefusal::OutOfMemory),
    }
}
