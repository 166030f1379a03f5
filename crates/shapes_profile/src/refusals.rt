ghost use Rattle.std.specs.Prelude.{◌≡◌};
ghost use Rattle.shapes_profile.specs.declared.refusals.ShapeRefusal.TheVariants.{OutOfMemory as Memory};

use rdf_terms::{OutOfMemory, Term};
use std::alloc::{AllocError, AllocFailed};
use thiserror::Error;

/// Why a shapes graph was not read. Of several causes the first in the order of the variants is
/// named, at its first place in the order of triples (`Unsupported`) or of terms.
#[derive(Debug, Drop, Error)]
pub enum ShapeRefusal {
    /// A triple with a predicate of SHACL that this project leaves out.
    #[error("the predicate of a triple is not supported")]
    Unsupported { predicate: Term },
    /// A shape that breaks a rule on shapes, and the smallest rule that it breaks.
    #[error("a shape is ill formed by rule {rule}")]
    IllFormed { node: Term, rule: u8 },
    /// A shape that refers to itself, over one or more references.
    #[error("a shape is recursive")]
    Recursive { shape: Term },
    /// A path, or the rest of a sequence path, of a depth over 32.
    #[error("a path is nested too deep")]
    PathTooDeep { node: Term },
    /// A shape of a rank over 128.
    #[error("a shape is nested too deep")]
    ShapeTooDeep { shape: Term },
    /// Memory could not be had. It says nothing of the graph.
    #[error("out of memory")]
    OutOfMemory,
}

impl From<OutOfMemory> for ShapeRefusal {
    ghost from_gives = { λ _ e. e ≡ Memory };

    fn from(_: OutOfMemory) -> ShapeRefusal {
        ShapeRefusal::OutOfMemory
    }
}

impl From<AllocError> for ShapeRefusal {
    ghost from_gives = { λ _ e. e ≡ Memory };

    fn from(_: AllocError) -> ShapeRefusal {
        ShapeRefusal::OutOfMemory
    }
}

impl<T: Drop> From<AllocFailed<T>> for ShapeRefusal {
    ghost from_gives = { λ _ e. e ≡ Memory };

    fn from(_: AllocFailed<T>) -> ShapeRefusal {
        ShapeRefusal::OutOfMemory
    }
}
