use clause_store::Lit;
use rdf_terms::{Items, Numbers};

/// A literal that was made true.
#[derive(Clone, Copy, Debug, PartialEq, Eq)]
pub struct Entry {
    /// The literal.
    pub lit: Lit,
    /// The place of the clause that made it so; none where it was decided.
    pub reason: Option<usize>,
}

/// A learned clause, and the chain of resolutions that gives it.
#[derive(Drop)]
pub struct LogStep {
    /// The place of the clause in the store.
    pub place: usize,
    /// The places of the clauses that are resolved, in order.
    pub ids: Numbers,
}

/// The learned clauses, in the order in which they were learned.
pub type Log = Items<LogStep>;
