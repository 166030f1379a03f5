ghost use Rattle.std.specs.Prelude.{◌≡◌};
ghost use Rattle.proof_documents.specs.declared.refusal.DocRefusal.TheVariants.{OutOfMemory as NoDocument};
ghost use Rattle.proof_documents.specs.declared.refusal.ApplyRefusal.TheVariants.{OutOfMemory as NoGraph};

use rdf_terms::OutOfMemory;
use thiserror::Error;

/// Why a text was not read as a document.
#[derive(Clone, Copy, Debug, PartialEq, Eq, Error)]
pub enum DocRefusal {
    /// The first line that can't stand where it stands, or the line after the last where the end is
    /// missing, by its number counted from 1.
    #[error("line {line} can't stand there")]
    Line { line: u64 },
    /// Memory could not be had. It says nothing of the text.
    #[error("out of memory")]
    OutOfMemory,
}

impl From<OutOfMemory> for DocRefusal {
    ghost from_gives = { λ _ e. e ≡ NoDocument };

    fn from(_: OutOfMemory) -> DocRefusal {
        DocRefusal::OutOfMemory
    }
}

/// Why a document was not applied to data.
#[derive(Clone, Copy, Debug, PartialEq, Eq, Error)]
pub enum ApplyRefusal {
    /// The document claims no pair.
    #[error("the document claims no pair")]
    NoPair,
    /// The line, counted from 1, of the first addition that is in the data already, or of the first
    /// deletion that is not in it.
    #[error("the pair is outside the data at line {line}")]
    OutsideData { line: u64 },
    /// Memory could not be had. It says nothing of the document.
    #[error("out of memory")]
    OutOfMemory,
}

impl From<OutOfMemory> for ApplyRefusal {
    ghost from_gives = { λ _ e. e ≡ NoGraph };

    fn from(_: OutOfMemory) -> ApplyRefusal {
        ApplyRefusal::OutOfMemory
    }
}
