//! One happy path of each call that takes memory.

mod graphs;
mod navigation;
mod numbers;
mod proofs;
mod terms;
