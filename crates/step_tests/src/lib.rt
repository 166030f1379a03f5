//! Tests of stores of clauses, and of the checker of steps of resolution over them.
#![tactic(auto)]

#[cfg(test)]
mod tests;
