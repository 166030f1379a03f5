ghost use Rattle.std.specs.Prelude.{◌≡◌, ◌++◌, IfSome, IfNone};
ghost use Rattle.proof_documents.specs.DocumentText.{line};
ghost use Rattle.proof_documents.specs.Text.{IsPlain, IsAnswer, IsOnlyAnswer};

use crate::draft::{Draft, Stage};
use crate::{DocRefusal, DocumentText};
use rdf_grammar::ParseError;
use std::alloc::Global;

/// Reads the text of a document. `Line` names the first line that can't stand where it stands, or
/// the line after the last where the end is missing.
pub fn read_document_text(alloc: Global, bytes: &[u8]) -> Result<DocumentText, DocRefusal>
    ensures answer { IsAnswer bytes.now result }
    ensures only { IsOnlyAnswer bytes.now result }
{
    let mut draft = Draft::new(alloc);
    let mut rest = bytes;
    let mut line = 1;
    'lines: while let Some((text, later)) = split_line(rest) {
        match draft.take(alloc, text) {
            Ok(()) => {}
            Err(ParseError::NoMatch) => return Err(DocRefusal::Line { line }),
            Err(ParseError::OutOfMemory) => return Err(DocRefusal::OutOfMemory),
        }
        rest = later;
        line += 1;
    }
    if draft.stage != Stage::Ended || !rest.is_empty() {
        return Err(DocRefusal::Line { line });
    }
    Ok(draft.into_document())
}

/// The first line without its LF, and the bytes behind it.
fn split_line(bytes: &[u8]) -> Option<(&[u8], &[u8])>
    ensures parts { IfSome result (λ x. bytes.now ≡ line x.0.now ++ x.1.now) }
    ensures plain { IfSome result (λ x. IsPlain x.0.now) }
    ensures none { IfNone result (IsPlain bytes.now) }
{
    for end in 0..bytes.len() {
        if bytes[end] == b'\n' {
            return Some((&bytes[..end], &bytes[end + 1..]));
        }
    }
    None
}
