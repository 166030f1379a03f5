ghost use Rattle.std.specs.Prelude.{◌≡◌, ◌≢◌, ◌++◌, ◌↔◌, ℕ, List, Some, IfOk, IfSome, IfNone, IsTrue};
ghost use Rattle.rdf_terms.specs.Statement.{Statement};
ghost use Rattle.rdf_grammar.specs.Answers.{GivesAll};
ghost use Rattle.proof_documents.specs.DocumentText.{line};
ghost use Rattle.proof_documents.specs.Lines.{IsTripleLine};

use ntriples_io::{parse_line, write_triple};
use rdf_grammar::{ParseError, RecentTexts};
use rdf_terms::{Scope, Triple};
use std::alloc::Global;

/// What follows the prefix.
fn strip_front<'a>(prefix: &str, text: &'a [u8]) -> Option<&'a [u8]>
    ensures found { IfSome result (λ rest. text.now ≡ prefix.now ++ rest.now) }
    ensures none { IfNone result ((rest : List ℕ) → text.now ≢ prefix.now ++ rest) }
{
    text.strip_prefix(prefix.as_bytes())
}

/// Whether the bytes are the text and an LF.
fn is_line_of(bytes: &[u8], text: &[u8]) -> bool
    ensures { IsTrue result ↔ (bytes.now ≡ line text.now) }
{
    bytes.strip_suffix(b"\n") == Some(text)
}

/// The triple whose canonical line follows the prefix, in these bytes without their LF. `NoMatch`
/// exactly where they are no such line.
pub fn parse_triple_line(alloc: Global, prefix: &str, text: &[u8]) -> Result<Triple, ParseError>
    ensures found { IfOk result (λ triple. IsTripleLine prefix.now text.now triple) }
    // A triple is read, unless memory runs out, and as no other.
    ensures only { (triple : Statement) → IsTripleLine prefix.now text.now triple →
        GivesAll (λ t. t) result (Some triple) }
{
    let rest = strip_front(prefix, text).ok_or(ParseError::NoMatch)?;
    let mut texts = RecentTexts::new(alloc);
    let triple = parse_line(alloc, &mut texts, Scope::Data, rest)?.ok_or(ParseError::NoMatch)?;
    let canonical = write_triple(alloc, &triple)?;
    // A triple has other lines too, but a document only one text.
    if !is_line_of(canonical.as_slice(), rest) {
        return Err(ParseError::NoMatch);
    }
    Ok(triple)
}
