ghost use Rattle.std.specs.Prelude.{◌<◌, ◌^◌, length, IfOk};
ghost use Rattle.ntriples_io.specs.RoundTrip.{HasScope};
ghost use Rattle.ntriples_io.specs.Text.{IsAnswer, IsOnlyAnswer, AreLawful, pieces_text};

use crate::{NtReader, NtRefusal};
use rdf_terms::{Bytes, Graph, Scope};
use std::alloc::Global;

/// Reads a whole text: the graph of its lines, or `Syntax` with the first line that is none of
/// N-Triples. Blank nodes have this scope.
pub fn read_ntriples(alloc: Global, scope: Scope, bytes: &[u8]) -> Result<Graph, NtRefusal>
    ensures answer { IsAnswer bytes.now scope result }
    ensures only { IsOnlyAnswer bytes.now scope result }
    ensures lawful { IfOk result AreLawful }
    ensures scope { IfOk result (HasScope scope) }
{
    let mut reader = NtReader::new(alloc, scope);
    reader.feed(bytes)?;
    reader.finish()
}

/// Reads a whole text that comes in pieces. However it is cut, the answer is that of
/// `read_ntriples` for the pieces one after another.
pub fn read_pieces(alloc: Global, scope: Scope, pieces: &[Bytes]) -> Result<Graph, NtRefusal>
    requires { length (pieces_text pieces.now) < 2 ^ 63 }
    ensures answer { IsAnswer (pieces_text pieces.now) scope result }
    ensures only { IsOnlyAnswer (pieces_text pieces.now) scope result }
    ensures lawful { IfOk result AreLawful }
    ensures scope { IfOk result (HasScope scope) }
{
    let mut reader = NtReader::new(alloc, scope);
    for piece in pieces {
        reader.feed(piece.as_slice())?;
    }
    reader.finish()
}
