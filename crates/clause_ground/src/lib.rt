//! The clauses of a repair problem whose models are exactly the changes that explain.
//!
//! A [`Ground`] has the premises that are needed: those of the nodes that can be focus nodes, and of each atom that
//! stands in a needed one. Tautologies are left out. Atoms have numbers, and the clauses stand in these numbers.
#![tactic(auto)]

mod atom_rules;
mod ground;
mod needed;
mod premise;
mod roots;

pub use ground::Ground;
pub use needed::ground_problem;
pub use premise::Premise;
