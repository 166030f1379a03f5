//! The documents that the words of a command name: they are read from a shelf one after another, and
//! the first that can't be read or is refused ends the reading.
#![tactic(auto)]

mod error;
mod reader;
mod refusal;
mod role;
mod text;

pub use error::InputError;
pub use reader::Reader;
pub use refusal::{ClaimRefusal, DocumentRefusal, GraphRefusal, InputRefusal, ShapesRefusal};
pub use role::Role;
pub use text::bytes_of;
