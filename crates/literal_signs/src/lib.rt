//! Sets of literals that are kept as a sign for each variable: how a clause is resolved with such a set, and how its
//! literals are listed and taken out again at the cost of these, whatever the number of variables.
#![tactic(auto)]

mod growth;
mod resolution;
mod sign;
mod touched;

pub use growth::grow;
pub use resolution::{resolve, unite};
pub use sign::{Sign, is_marked, sign_of};
pub use touched::{clear, list_lits, take_lits};
