ghost use Rattle.std.specs.Prelude.{◌≡◌};
ghost use Rattle.turtle_io.specs.Documents.{refusal_of};
ghost use Rattle.turtle_io.specs.declared.refusal.TurtleRefusal.TheVariants.{OutOfMemory as Memory};

use rdf_terms::OutOfMemory;
use std::alloc::{AllocError, AllocFailed};
use thiserror::Error;
use turtle_tokens::TokenFault;

/// Why a document of Turtle was not read. The first three speak of the first statement that is not accepted. Places are
/// numbers of bytes of the document.
#[derive(Clone, Copy, Debug, PartialEq, Eq, Error)]
pub enum TurtleRefusal {
    /// The statement that begins at this place is not in the grammar of Turtle, or it has no meaning: a prefix that is
    /// not declared, a relative reference without a base, an escape of no character that may stand there, or
    /// `rdf:langString` behind `^^`.
    #[error("statement at {statement_at}")]
    Syntax { statement_at: u64 },
    /// The bracket at this place is open beside 128 others.
    #[error("too deep at {at}")]
    TooDeep { at: u64 },
    /// The label of the blank node at this place begins with `x-anon-`.
    #[error("reserved label at {at}")]
    ReservedLabel { at: u64 },
    /// Memory could not be had. It says nothing of the document.
    #[error("out of memory")]
    OutOfMemory,
}

impl From<OutOfMemory> for TurtleRefusal {
    ghost from_gives = { λ _ e. e ≡ Memory };

    fn from(_: OutOfMemory) -> TurtleRefusal {
        TurtleRefusal::OutOfMemory
    }
}

impl From<AllocError> for TurtleRefusal {
    ghost from_gives = { λ _ e. e ≡ Memory };

    fn from(_: AllocError) -> TurtleRefusal {
        TurtleRefusal::OutOfMemory
    }
}

/// The refusal of a statement with this fault.
pub(crate) fn refusal_of(fault: TokenFault) -> TurtleRefusal
    ensures { result ≡ refusal_of fault }
{
    match fault {
        TokenFault::TooDeep { at } => TurtleRefusal::TooDeep { at },
        TokenFault::ReservedLabel { at } => TurtleRefusal::ReservedLabel { at },
    }
}
