//! Tests of terms, graphs, numerals and proof lines, and terms that tests are made with.
#![tactic(auto)]

pub mod making;
#[cfg(test)]
mod tests;
