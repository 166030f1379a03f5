//! N-Triples (RDF 1.1 N-Triples): a reader that is fed bytes in any pieces, and a writer of the
//! canonical form.
#![tactic(auto)]

mod line;
mod pieces;
mod reader;
mod refusal;
mod so_far;
mod text;
mod writing;

pub use line::parse_line;
pub use reader::NtReader;
pub use refusal::NtRefusal;
pub use text::{read_ntriples, read_pieces};
pub use writing::{write_graph, write_term, write_triple};
