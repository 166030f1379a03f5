//! Proofs of claims about repairs: what is claimed, the lines that show it, and the premises among them. A premise is a
//! clause of literals that is true of the edited graphs of a repair problem, and a rule names it by numbers.
//!
//! The clauses of an atom say what it comes down to, one for each of its places (`specs/PlaceClauses.antt`); those of
//! other rules, that focus nodes conform, and what a repair below a given one leaves as it is
//! (`specs/RuleClauses.antt`). A [`PremiseRules`] gives the clauses of a problem, and keeps what it finds of its paths.
#![tactic(auto)]

mod clause;
mod finish;
mod place_clauses;
mod refusal;
mod rule_parts;
mod rules;

pub use atom_parts::parts_of;
pub use clause::{Clause, ClauseList};
pub use proof_lines::{Chain, Claim, Proof, ProofLine, ProofLines, Rule, RuleName};
pub use refusal::RuleRefusal;
pub use rules::{PremiseRules, clause_of};
