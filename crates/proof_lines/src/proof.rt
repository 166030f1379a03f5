use crate::Rule;
use rdf_terms::{Items, Numbers, Places};

/// What a proof claims.
#[derive(Clone, Copy, Debug, PartialEq, Eq)]
pub enum Claim {
    /// A pair of additions and deletions is minimal.
    Pair,
    /// No pair explains.
    NoPair,
    /// Nothing: the budget of search steps was used up first.
    Spent,
}

/// A line of a proof.
#[derive(Drop)]
pub enum ProofLine {
    /// A pair that explains, by the numbers of the candidates that it changes.
    Chain(Places),
    /// A premise.
    Rule(Rule),
    /// A step of resolution over the clauses of earlier premises and steps, by their numbers.
    Step(Numbers),
}

/// The lines of a proof.
pub type ProofLines = Items<ProofLine>;

/// The pairs that a proof has given so far, each by the numbers of the candidates that it changes.
pub type Chain = Items<Places>;

/// A claim and the lines that show it.
#[derive(Drop)]
pub struct Proof {
    pub claim: Claim,
    pub lines: ProofLines,
}
