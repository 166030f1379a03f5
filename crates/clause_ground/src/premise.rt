use clause_store::Lits;
use premise_rules::Rule;

/// A premise: a rule, and its clause in the numbers of atoms.
#[derive(Drop)]
pub struct Premise {
    pub rule: Rule,
    pub lits: Lits,
}
