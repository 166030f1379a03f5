//! The commands of `shacl-explain`: the words, the documents that they name, and the answer, over any
//! shelf of documents and any two sinks.
#![tactic(auto)]

mod apply;
mod check;
mod explain;
mod report;
mod shapes;
mod status;
mod top;
mod validate;

pub use command_words::{Command, WordsRefusal, read_words};
pub use document_input::{
    ClaimRefusal, DocumentRefusal, GraphRefusal, InputRefusal, Role, ShapesRefusal,
};
pub use status::Status;
pub use top::run;
