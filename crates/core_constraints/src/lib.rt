//! Whether data graphs conform to shapes graphs, and their validation results (SHACL 2017, sections 3.4 to
//! 3.6 and 4).
#![tactic(auto)]

mod classes;
mod conformance;
mod constraint_rows;
mod counts;
mod evaluation;
mod input;
mod memo;
mod result_rows;
mod tags;
mod validation;
mod value_nodes;

pub use conformance::conforms;
pub use result_rows::{ResultRow, Rows};
pub use validation::results;
