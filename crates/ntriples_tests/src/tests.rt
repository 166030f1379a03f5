//! What is no matter of the words and bytes of a command: scopes, pieces, and single calls of the writer.

mod ntriples;
mod writing;
