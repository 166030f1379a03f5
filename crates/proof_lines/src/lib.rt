//! Proofs of claims about repairs: what is claimed, and the lines that show it.
#![tactic(auto)]

mod proof;
mod rule;

pub use proof::{Chain, Claim, Proof, ProofLine, ProofLines};
pub use rule::{Rule, RuleName};
