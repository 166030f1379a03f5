ghost use Rattle.std.specs.Prelude.{◌≡◌, ℕ, ◌+◌, ◌<◌, ◌≤◌, ◌^◌, ◌++◌, [], List, length, None, Some, Err, IfOk, IfSome, IfErr, OnOk};

use crate::NtRefusal;
use crate::so_far::LinesSoFar;
use rdf_terms::{Graph, Scope};
use std::alloc::Global;
use std::marker::Model;

/// A reader of N-Triples that is fed the bytes in any pieces. It keeps the triples read so far and
/// the bytes of the line that has not ended yet. After a refusal every later call answers the same
/// refusal. Contracts see its `Progress`.
#[derive(Drop)]
pub struct NtReader {
    so_far: LinesSoFar,
}

impl Model for NtReader {
    ghost use Rattle.ntriples_io.specs.Feeding.{Progress, progress_of};

    ghost Value = { Progress };

    ghost view = { λ r. progress_of r.so_far };
}

impl NtReader {
    ghost use Rattle.ntriples_io.specs.RoundTrip.{HasScope};
    ghost use Rattle.ntriples_io.specs.Text.{IsAnswer, IsOnlyAnswer, AreLawful};
    ghost use Rattle.ntriples_io.specs.Feeding.{HasRead};

    /// A reader that has read nothing. Blank nodes will have this scope. It takes no memory.
    pub fn new(alloc: Global, scope: Scope) -> NtReader
        ensures read { HasRead result [] }
        ensures scope { result.scope ≡ scope }
        ensures taken { result.taken ≡ 0 }
    {
        NtReader {
            so_far: LinesSoFar::new(alloc, scope),
        }
    }

    /// How many bytes were taken.
    pub fn bytes_taken(&self) -> u64
        ensures { result ≡ self.now.taken }
    {
        self.so_far.bytes_taken()
    }

    /// Takes the next piece of the bytes. `Syntax` comes exactly where a line that ended within the
    /// bytes so far is none of N-Triples, and names the first such line.
    pub fn feed(&mut self, piece: &[u8]) -> Result<(), NtRefusal>
        // All bytes so far are fewer than 2 ^ 63.
        requires { self.old.taken + length piece.now < 2 ^ 63 }
        ensures read { (so_far : List ℕ) → HasRead self.old so_far →
            HasRead self.new (so_far ++ piece.now) }
        ensures ok { OnOk result (self.new.refusal ≡ None) }
        ensures err { IfErr result (λ e. self.new.refusal ≡ Some e) }
        ensures same { IfSome self.old.refusal (λ e. result ≡ Err e) }
        ensures scope { self.new.scope ≡ self.old.scope }
        ensures taken { OnOk result (self.new.taken ≡ self.old.taken + length piece.now) }
        ensures bound { self.new.taken ≤ self.old.taken + length piece.now }
    {
        self.so_far.feed(piece)
    }

    /// The graph of all bytes, the rest being the last line. `Syntax` names the first line that is
    /// none of N-Triples.
    pub fn finish(self) -> Result<Graph, NtRefusal>
        ensures answer { (so_far : List ℕ) → HasRead self so_far →
            IsAnswer so_far self.scope result }
        ensures only { (so_far : List ℕ) → HasRead self so_far →
            IsOnlyAnswer so_far self.scope result }
        ensures lawful { (so_far : List ℕ) → HasRead self so_far → IfOk result AreLawful }
        ensures scope { (so_far : List ℕ) → HasRead self so_far → IfOk result (HasScope self.scope) }
        ensures same { IfSome self.refusal (λ e. result ≡ Err e) }
    {
        let NtReader { so_far } = self;
        so_far.finish()
    }
}
