ghost use Rattle.std.specs.Prelude.{◌≡◌};
ghost use Rattle.refute_check.specs.declared.refusal.StepRefusal.TheVariants.{OutOfMemory as NoStep};

use rdf_terms::OutOfMemory;
use thiserror::Error;

/// Why a step was refused. Positions are those of the ids, counted from 0.
#[derive(Clone, Copy, Debug, PartialEq, Eq, Error)]
pub enum StepRefusal {
    /// The first id that is no place of the store; every earlier resolution is in order.
    #[error("the id at position {position} is no clause")]
    UnknownId { position: usize },
    /// The id of the first clause with which the resolution doesn't clash in exactly one literal.
    #[error("the resolution at position {position} does not clash in exactly one literal")]
    NoSingleClash { position: usize },
    /// Memory could not be had. It says nothing of the step.
    #[error("out of memory")]
    OutOfMemory,
}

impl From<OutOfMemory> for StepRefusal {
    ghost from_gives = { λ _ e. e ≡ NoStep };

    fn from(_: OutOfMemory) -> StepRefusal {
        StepRefusal::OutOfMemory
    }
}
