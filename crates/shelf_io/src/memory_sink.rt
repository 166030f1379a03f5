ghost use Rattle.std.specs.Prelude.{◌≡◌, ◌≤◌, ◌<◌, ◌-◌, IfOk, OnOk, OnErr, length};
ghost use Rattle.shelf_io.specs.Calls.{with_failing};
ghost use Rattle.shelf_io.specs.Sunk.{empty_sink};

use crate::calls::CallLog;
use crate::{Failed, Sink};
use rdf_terms::OutOfMemory;
use std::alloc::Global;
use std::marker::Model;

/// A sink in memory, which takes bytes while it has room.
#[derive(Drop)]
pub struct MemorySink {
    bytes: Vec<u8>,
    room: usize,
    calls: CallLog,
}

impl Model for MemorySink {
    ghost use Rattle.std.specs.Prelude.{◌≤◌, vec_len, vec_capacity};
    ghost use Rattle.shelf_io.specs.Sunk.{Sunk};

    ghost Value = { Sunk };

    ghost view = { λ s. record { bytes = s.bytes.items; room = s.room; calls = s.calls } };

    ghost invariant = { λ s. (vec_len s.bytes ≤ s.room) × (s.room ≤ vec_capacity s.bytes) };
}

impl MemorySink {
    /// A sink with room for that many bytes. It takes the memory for all of them.
    pub fn new(alloc: Global, room: usize) -> Result<MemorySink, OutOfMemory>
        ensures { IfOk result (λ s. s ≡ empty_sink room) }
    {
        let bytes = Vec::with_capacity(alloc, room)?;
        Ok(MemorySink {
            bytes,
            room,
            calls: CallLog::new(alloc),
        })
    }

    /// The bytes that were written. It takes no memory.
    pub fn bytes(&self) -> &[u8]
        ensures { result.now ≡ self.now.bytes }
    {
        self.bytes.as_slice()
    }

    /// The write of that number is to fail, counted from 1 and from the first write on. After
    /// `OutOfMemory` the sink is as before.
    pub fn fail_at(&mut self, call: u64) -> Result<(), OutOfMemory>
        ensures ok { OnOk result (self.new ≡ record self.old { calls = with_failing call self.old.calls }) }
        ensures err { OnErr result (self.new ≡ self.old) }
    {
        self.calls.fail_at(call)
    }
}

impl Sink for MemorySink {
    ghost use Rattle.std.specs.Prelude.{Some};
    ghost use Rattle.shelf_io.specs.Causes.{HasCause};
    ghost use Rattle.shelf_io.specs.Held.{Writes};
    ghost use Rattle.shelf_io.specs.Sunk.{write_answer, after_write};

    ghost written = { λ s. Some s.bytes };

    ghost faults = { λ s. s.calls.faults };

    /// Takes what still fits. It fails exactly where the room is full or this write is to fail.
    /// It takes no memory.
    fn write(&mut self, bytes: &[u8]) -> Result<usize, Failed>
        requires { 0 < length bytes.now }
        ensures answer { result ≡ write_answer self.old bytes.now }
        ensures after { self.new ≡ after_write self.old bytes.now }
        ensures taken { IfOk result (λ n. (0 < n) × (n ≤ length bytes.now)) }
        ensures bytes { Writes (Some self.old.bytes) (Some self.new.bytes) result bytes.now }
        ensures cause { HasCause self.old.calls.faults self.new.calls.faults result }
    {
        let left = self.room - self.bytes.len();
        if self.calls.count(left == 0) {
            return Err(Failed);
        }
        let count = left.min(bytes.len());
        match self.bytes.extend_from_slice(&bytes[..count]) {
            Ok(()) => Ok(count),
            Err(_) => unreachable!(),
        }
    }
}
