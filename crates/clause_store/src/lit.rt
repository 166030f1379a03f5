use rdf_terms::Items;

/// A literal: a variable or its negation.
#[derive(Clone, Copy, Debug, PartialEq, Eq)]
pub struct Lit {
    /// The number of the variable.
    pub var: usize,
    /// Whether the literal is the variable, and not its negation.
    pub positive: bool,
}

/// A list of literals.
pub type Lits = Items<Lit>;
