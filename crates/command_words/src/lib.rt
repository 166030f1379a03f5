//! The words of the command line: which command they are, or which of them is wrong.
#![tactic(auto)]

mod words;

pub use words::{Command, WordsRefusal, read_words};
