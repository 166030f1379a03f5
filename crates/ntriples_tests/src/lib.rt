//! Tests of the reader and the writer of N-Triples.
#![tactic(auto)]

#[cfg(test)]
mod tests;
