//! Numbers of atoms, and clauses in these numbers: each new atom takes the next number.
#![tactic(auto)]

mod numbering;

pub use numbering::{Atoms, number_clause};
