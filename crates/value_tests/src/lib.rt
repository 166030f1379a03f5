//! Tests of single terms, as constraints of shapes state them (SHACL 2017, section 4): whether a value
//! node passes one, and which literals of a document cannot be compared. No call takes memory.
#![tactic(auto)]

mod languages;
mod lengths;
mod node_tests;
mod order_literals;
mod range_constraints;

pub use datatypes::compare_integers;
pub use node_tests::good_node;
pub use order_literals::order_literal;
