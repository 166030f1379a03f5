//! Counters of repair problems: whether at least so many of the first things that a constraint counts are to be
//! counted, and the clauses by which a counter follows from those over one thing less.
#![tactic(auto)]

mod counts;
mod parts;

pub use counts::{count_clause, counted, counters_fix};
pub use parts::{negation, opposite};
