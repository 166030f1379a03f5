use rdf_terms::Items;
use repair_problem::LiteralList;

/// The clause of a rule or of a place of an atom, or why there is none.
#[derive(Drop)]
pub enum Clause {
    /// The literals of its clause, each once, in the order of its parts.
    Literals(LiteralList),
    /// The clause has a fixed true part, or an atom in both signs.
    Tautology,
    /// The numbers of the rule name no atom and place, no shape and node, no pair of the chain, or no candidate that isn't
    /// in it, or there are too many of them or too few.
    OutOfRange,
}

/// The clauses of an atom, in the order of their places.
pub type ClauseList = Items<Clause>;
