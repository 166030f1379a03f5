ghost use Rattle.std.specs.Prelude.{◌≡◌};
ghost use Rattle.rdf_grammar.specs.declared.parse_error.ParseError.TheVariants.{OutOfMemory as Memory};

use rdf_terms::OutOfMemory;
use std::alloc::AllocError;

/// Why nothing was read.
#[derive(Clone, Copy, Debug, PartialEq, Eq)]
pub enum ParseError {
    /// Memory could not be had. It says nothing of the text.
    OutOfMemory,
    /// The text does not begin with what was to be read.
    NoMatch,
}

impl From<AllocError> for ParseError {
    ghost from_gives = { λ _ e. e ≡ Memory };

    fn from(_: AllocError) -> ParseError {
        ParseError::OutOfMemory
    }
}

impl From<OutOfMemory> for ParseError {
    ghost from_gives = { λ _ e. e ≡ Memory };

    fn from(_: OutOfMemory) -> ParseError {
        ParseError::OutOfMemory
    }
}
