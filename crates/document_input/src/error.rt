ghost use Rattle.std.specs.Prelude.{◌≡◌};
ghost use Rattle.document_input.specs.declared.error.InputError.TheVariants.{OutOfMemory as NoInput};

use crate::{InputRefusal, Role};
use rdf_terms::OutOfMemory;
use thiserror::Error;

/// Why a command has no input that it could answer.
#[derive(Debug, PartialEq, Eq, Drop, Error)]
pub enum InputError {
    /// The document of that role could not be read: the shelf failed.
    #[error("{role} could not be read")]
    Unread { role: Role },
    /// The input is refused.
    #[error("the input is refused")]
    Refused(InputRefusal),
    /// Memory could not be had. It says nothing of the input.
    #[error("out of memory")]
    OutOfMemory,
}

impl From<OutOfMemory> for InputError {
    ghost from_gives = { λ _ error. error ≡ NoInput };

    fn from(_: OutOfMemory) -> InputError {
        InputError::OutOfMemory
    }
}
