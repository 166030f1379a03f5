use rdf_terms::{Term, Terms, Text};

/// What a path node is made of: one of the forms of a property path (SHACL 2017, section 2.3.1), over
/// the nodes that are its parts.
#[derive(Drop)]
pub enum PathNode {
    Predicate(Text),
    Inverse(Term),
    Sequence(Term, Term),
    Alternative(Terms),
    ZeroOrMore(Term),
    OneOrMore(Term),
    ZeroOrOne(Term),
}
