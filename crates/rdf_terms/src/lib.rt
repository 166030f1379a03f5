//! Terms, triples and graphs of RDF 1.1, each with one order, and sets of them.
#![tactic(auto)]

mod graph;
mod lists;
mod memory;
mod nodes;
mod presort;
mod term;
mod term_hash;
mod text;
mod triple;
pub mod vocab;

pub use graph::Graph;
pub use lists::{Bytes, Items, Numbers, Places, Terms, Triples};
pub use memory::OutOfMemory;
pub use nodes::{Nodes, nodes_of};
pub use term::{Scope, Term};
pub use text::Text;
pub use triple::Triple;
