ghost use Rattle.std.specs.Prelude.{◌≡◌};
ghost use Rattle.ntriples_io.specs.declared.refusal.NtRefusal.TheVariants.{OutOfMemory as Memory};

use rdf_terms::OutOfMemory;
use std::alloc::{AllocError, AllocFailed};
use thiserror::Error;

/// Why a text of N-Triples was not read.
#[derive(Clone, Copy, Debug, PartialEq, Eq, Error)]
pub enum NtRefusal {
    /// A line that is none of N-Triples, the first one, by its number counted from 1.
    #[error("line {line} is no line of N-Triples")]
    Syntax { line: u64 },
    /// Memory could not be had. It says nothing of the text.
    #[error("out of memory")]
    OutOfMemory,
}

impl From<OutOfMemory> for NtRefusal {
    ghost from_gives = { λ _ e. e ≡ Memory };

    fn from(_: OutOfMemory) -> NtRefusal {
        NtRefusal::OutOfMemory
    }
}

impl From<AllocError> for NtRefusal {
    ghost from_gives = { λ _ e. e ≡ Memory };

    fn from(_: AllocError) -> NtRefusal {
        NtRefusal::OutOfMemory
    }
}
