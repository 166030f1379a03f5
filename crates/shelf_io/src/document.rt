ghost use Rattle.std.specs.Prelude.{◌≡◌, ◌≢◌, ℕ, ◌≤◌, ◌<◌, ◌^◌, ◌+◌, List, ◌⊎◌, take, IfOk, OnErr, IsErrOf, OnOk};
ghost use Rattle.shelf_io.specs.Causes.{HasCause, Rose};
ghost use Rattle.shelf_io.specs.Documents.{ReadsWhole, IsShort, IsCut, IsToldLong, IsToldMissing, Gained, GainedPrefix};

use crate::{Failed, Shelf, Sink};
use rdf_terms::{Bytes, OutOfMemory};
use std::alloc::Global;
use thiserror::Error;

/// Why a document was not read.
#[derive(Clone, Copy, Debug, PartialEq, Eq, Error)]
pub enum ReadRefusal {
    /// A pull failed.
    #[error("a read failed")]
    ReadFault,
    /// More than 2^30 bytes are held.
    #[error("the document is too long")]
    TooLong,
    /// Memory could not be had.
    #[error("out of memory")]
    OutOfMemory,
}

/// A sink did not take all bytes.
#[derive(Clone, Copy, Debug, PartialEq, Eq)]
pub struct WriteFault;

/// The most bytes of a document.
const LIMIT: u64 = 1 << 30;

/// How many bytes are asked for at a time.
const PIECE: usize = 1 << 14;

/// All bytes that are held under the name.
///
/// It asks first for one byte at place 2^30, and then reads from place 0 to the end. It returns
/// after at most 2^30 + 2 pulls of that name, and none of another.
///
/// - `ReadFault` comes only where the shelf's count of faults for that name rose in this call.
/// - `TooLong` comes only where more than 2^30 bytes are held, and where they are, nothing but a
///   read fault comes in its place.
/// - `OutOfMemory` may come at any place after the first pull.
///
/// What is said of the held bytes holds where the shelf tells them.
pub fn read_document<H: Shelf>(
    alloc: Global,
    shelf: &mut H,
    name: &str,
) -> Result<Bytes, ReadRefusal>
    ensures ok { IfOk result (λ b. ReadsWhole (H.held shelf.old) name.now b) }
    ensures short { OnOk result (IsShort (H.held shelf.old) name.now) }
    ensures long { IsErrOf result ReadRefusal.TooLong → IsCut (H.held shelf.old) name.now }
    ensures cut { IsToldLong (H.held shelf.old) name.now →
        IsErrOf result ReadRefusal.TooLong ⊎ IsErrOf result ReadRefusal.ReadFault }
    ensures missing { IsToldMissing (H.held shelf.old) name.now → IsErrOf result ReadRefusal.ReadFault }
    ensures fault { IsErrOf result ReadRefusal.ReadFault →
        Rose (H.faults shelf.old name.now) (H.faults shelf.new name.now) }
    ensures later { (any : List ℕ) → H.faults shelf.old any ≤ H.faults shelf.new any }
    ensures others { (other : List ℕ) → other ≢ name.now → H.faults shelf.new other ≡ H.faults shelf.old other }
    ensures kept { H.held shelf.new ≡ H.held shelf.old }
    ensures few { H.pulls shelf.new name.now ≤ H.pulls shelf.old name.now + (2 ^ 30 + 2) }
    ensures unasked { (other : List ℕ) → other ≢ name.now → H.pulls shelf.new other ≡ H.pulls shelf.old other }
{
    let mut probe = [0u8];
    match shelf.pull(name, LIMIT, &mut probe) {
        Err(_) => return Err(ReadRefusal::ReadFault),
        Ok(0) => {}
        Ok(_) => return Err(ReadRefusal::TooLong),
    }
    let mut bytes = Bytes::new(alloc);
    let mut at = 0u64;
    let mut buf = [0u8; PIECE];
    while at <= LIMIT {
        match shelf.pull(name, at, &mut buf) {
            Err(_) => return Err(ReadRefusal::ReadFault),
            Ok(0) => return Ok(bytes),
            Ok(count) => match bytes.append(&buf[..count]) {
                Ok(()) => at += count as u64,
                Err(_) => return Err(ReadRefusal::OutOfMemory),
            },
        }
    }
    Err(ReadRefusal::TooLong)
}

/// Hands all bytes to the sink, piece by piece. It takes no memory.
///
/// `WriteFault` comes only where the sink's count of faults rose in this call; then a part from the
/// front of the bytes was appended, where the sink tells what was written.
pub fn write_all_of<N: Sink>(sink: &mut N, bytes: &[u8]) -> Result<(), WriteFault>
    ensures ok { OnOk result (Gained (N.written sink.old) (N.written sink.new) bytes.now) }
    ensures prefix { OnErr result (GainedPrefix (N.written sink.old) (N.written sink.new) bytes.now) }
    ensures cause { HasCause (N.faults sink.old) (N.faults sink.new) result }
{
    let mut done = 0;
    while done < bytes.len() {
        match sink.write(&bytes[done..]) {
            Ok(count) => done += count,
            Err(_) => return Err(WriteFault),
        }
    }
    Ok(())
}
