//! Clauses over numbered variables: literals, stores that only grow, and a plain store in memory.
#![tactic(auto)]

mod lit;
mod plain;
mod store;

pub use lit::{Lit, Lits};
pub use plain::PlainStore;
pub use store::ClauseStore;
