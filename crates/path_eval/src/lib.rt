//! Which terms property paths lead to (SHACL 2017, section 2.3.1), and SHACL instances. Paths are made
//! automata, and one search over their states and the numbered nodes of a graph follows each of them.
#![tactic(auto)]

mod automaton;
mod direction;
mod evaluation;
mod instances;
mod numbered;
mod search;
mod term_numbers;
mod visits;

pub use direction::Direction;
pub use evaluation::reached;
pub use instances::{has_type_among, instances_from, is_instance};
pub use numbered::NumberedGraph;
pub use search::reached_from;
