ghost use Rattle.std.specs.Prelude.{◌≡◌, ℕ, IfOk, IfSome, ◌<◌, ◌≤◌, length, take};
ghost use Rattle.std.specs.Io.KnownBytes.{Appends};
ghost use Rattle.shelf_io.specs.Causes.{HasCause, count_after};
ghost use Rattle.shelf_io.specs.Streams.{unwritten};

use crate::{Failed, Sink};
use std::io::Write;
use std::marker::Model;

/// A sink over standard output, standard error or any other writer of std, seen as the writer and
/// its count of faults. It doesn't tell what was written, since a failed flush may leave bytes behind
/// that count as not written.
#[derive(Drop)]
pub struct StdSink<W> {
    writer: W,
    faults: u64,
}

impl<W> Model for StdSink<W> {
    ghost use Rattle.shelf_io.specs.Streams.{Stream};

    ghost Value = { Stream W };

    ghost view = { λ s. record { writer = s.writer; faults = s.faults } };
}

impl<W: Write> StdSink<W> {
    /// A sink over that writer, which has not failed. It takes no memory.
    pub fn new(writer: W) -> StdSink<W>
        ensures { result ≡ unwritten writer }
    {
        StdSink { writer, faults: 0 }
    }
}

/// Writes some of the bytes and flushes. It is `None` where either fails, or where nothing is
/// taken of a piece that isn't empty.
fn write_some<W: Write>(writer: &mut W, bytes: &[u8]) -> Option<usize>
    ensures taken { IfSome result (λ n. (0 < n) × (n ≤ length bytes.now)) }
    ensures content { IfSome result (λ n. Appends (W.contents writer.old) (W.contents writer.new) (take n bytes.now)) }
{
    let count = writer.write(bytes).ok()?;
    if count == 0 {
        return None;
    }
    writer.flush().ok()?;
    Some(count)
}

impl<W: Write> Sink for StdSink<W> {
    ghost use Rattle.std.specs.Prelude.{None};

    ghost written = { λ _. None };

    ghost faults = { λ s. s.faults };

    /// Writes and flushes. Each error of the writer counts as a failure, and so does a write that
    /// takes nothing. Where the writer tells what it holds, `Ok` appended the first bytes of the piece.
    fn write(&mut self, bytes: &[u8]) -> Result<usize, Failed>
        requires { 0 < length bytes.now }
        ensures count { self.new.faults ≡ count_after self.old.faults result }
        ensures content { IfOk result (λ n. Appends (W.contents self.old.writer) (W.contents self.new.writer)
            (take n bytes.now)) }
        ensures taken { IfOk result (λ n. (0 < n) × (n ≤ length bytes.now)) }
        ensures cause { HasCause self.old.faults self.new.faults result }
    {
        match write_some(&mut self.writer, bytes) {
            Some(count) => Ok(count),
            None => {
                self.faults = self.faults.saturating_add(1);
                Err(Failed)
            }
        }
    }
}
