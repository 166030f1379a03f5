ghost use Rattle.std.specs.Prelude.{◌≡◌};
ghost use Rattle.certificates.specs.declared.refusal.CheckRefusal.TheVariants.{OutOfMemory as NoCheck};
ghost use Rattle.certificates.specs.declared.refusal.LineRefusal.TheVariants.{OutOfMemory as NoLine};

use rdf_terms::OutOfMemory;
use std::error::Error;
use std::fmt;

/// Why a document is not accepted. Lines are those of the document, counted from 1.
#[derive(Clone, Copy, Debug, PartialEq, Eq)]
pub enum CheckRefusal {
    /// The triple of this line is no offer that could be added or no triple of the data, or the pair of this line names
    /// what is no candidate.
    PairOutside { line: u64 },
    /// The pair of this line is not below the one before it.
    NotBelow { line: u64 },
    /// The graph that the pair of this line edits does not conform.
    NotConforming { line: u64 },
    /// The rule of this line gives no clause, with the pairs above it.
    BadRule { line: u64 },
    /// The clauses of the ids of this line are chained to none.
    BadStep { line: u64 },
    /// The chain doesn't fit the claim: its last pair is not the claimed one, or there is a pair though the claim is
    /// that no pair explains.
    WrongClaim,
    /// The last clause isn't empty.
    NotEmpty,
    /// Memory could not be had. It says nothing of the document.
    OutOfMemory,
}

impl fmt::Display for CheckRefusal {
    ghost use Rattle.std.specs.Prelude.{Some};
    ghost use Rattle.certificates.specs.Reasons.{reason_text};

    ghost output = { λ refusal. Some (reason_text refusal) };

    fn fmt<W: fmt::Write>(&self, f: &mut fmt::Formatter<W>) -> fmt::Result {
        match self {
            CheckRefusal::PairOutside { line } => write!(f, "pair outside at line {line}"),
            CheckRefusal::NotBelow { line } => write!(f, "not below at line {line}"),
            CheckRefusal::NotConforming { line } => write!(f, "not conforming at line {line}"),
            CheckRefusal::BadRule { line } => write!(f, "bad rule at line {line}"),
            CheckRefusal::BadStep { line } => write!(f, "bad step at line {line}"),
            CheckRefusal::WrongClaim => f.write_str("wrong claim"),
            CheckRefusal::NotEmpty => f.write_str("not empty"),
            CheckRefusal::OutOfMemory => f.write_str("out of memory"),
        }
    }
}

impl Error for CheckRefusal {}

impl From<OutOfMemory> for CheckRefusal {
    ghost from_gives = { λ _ e. e ≡ NoCheck };

    fn from(_: OutOfMemory) -> CheckRefusal {
        CheckRefusal::OutOfMemory
    }
}

/// Why a line of a proof can't stand below the lines above it.
#[derive(Clone, Copy, Debug, PartialEq, Eq)]
pub(crate) enum LineRefusal {
    PairOutside,
    NotBelow,
    NotConforming,
    BadRule,
    BadStep,
    OutOfMemory,
}

impl From<OutOfMemory> for LineRefusal {
    ghost from_gives = { λ _ e. e ≡ NoLine };

    fn from(_: OutOfMemory) -> LineRefusal {
        LineRefusal::OutOfMemory
    }
}
