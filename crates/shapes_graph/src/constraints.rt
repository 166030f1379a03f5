use rdf_terms::{Items, Places, Term, Terms, Text};

/// What a constraint asks, one variant for each predicate that states one (SHACL 2017, section 4).
/// Shapes are named by their numbers.
#[derive(Drop)]
pub enum Kind {
    /// `sh:class`: a SHACL instance of the class.
    Class(Term),
    /// `sh:datatype`: a well-formed literal of the datatype.
    Datatype(Term),
    /// `sh:nodeKind`: of the kind.
    NodeKind(Term),
    /// `sh:minExclusive`: more than the literal.
    MinExclusive(Term),
    /// `sh:minInclusive`: the literal or more.
    MinInclusive(Term),
    /// `sh:maxExclusive`: less than the literal.
    MaxExclusive(Term),
    /// `sh:maxInclusive`: the literal or less.
    MaxInclusive(Term),
    /// `sh:minLength`: at least so many characters.
    MinLength(u64),
    /// `sh:maxLength`: at most so many characters.
    MaxLength(u64),
    /// `sh:languageIn`: a tag that matches one of the ranges, in the order of the list.
    LanguageIn(Terms),
    /// `sh:in`: one of the terms, in the order of the list.
    In(Terms),
    /// `sh:not`: doesn't conform to the shape.
    Not(usize),
    /// `sh:node`: conforms to the shape.
    Node(usize),
    /// `sh:and`: conforms to all shapes, in the order of the list.
    And(Places),
    /// `sh:or`: conforms to at least one of the shapes, in the order of the list.
    Or(Places),
    /// `sh:xone`: conforms to exactly one of the distinct shapes, ascending.
    Xone(Places),
    /// `sh:property`: conforms to the property shape, whose results are those of the constraint.
    Property(usize),
    /// `sh:closed`: if on, has no predicate but the allowed ones, ascending.
    Closed {
        on: bool,
        allowed: Terms,
    },
    /// `sh:disjoint`: no value of the property.
    Disjoint(Text),
    /// `sh:equals`: the values of the property.
    Equals(Text),
    /// `sh:hasValue`: the term is a value node.
    HasValue(Term),
    /// `sh:uniqueLang`: if true, no two value nodes have the same language tag.
    UniqueLang(bool),
    /// `sh:minCount`: at least so many value nodes.
    MinCount(u64),
    /// `sh:maxCount`: at most so many value nodes.
    MaxCount(u64),
    /// `sh:qualifiedMinCount`: at least so many value nodes conform to the shape and to no sibling.
    /// The siblings ascend.
    QualifiedMinCount {
        count: u64,
        shape: usize,
        siblings: Places,
    },
    /// `sh:qualifiedMaxCount`: at most so many value nodes conform to the shape and to no sibling.
    /// The siblings ascend.
    QualifiedMaxCount {
        count: u64,
        shape: usize,
        siblings: Places,
    },
}

/// A constraint of the shape of this number (SHACL 2017, section 2.1.1).
#[derive(Drop)]
pub struct Constraint {
    pub shape: usize,
    pub kind: Kind,
}

/// For each triple of a graph the constraint that it states, if it states one.
pub type Constraints = Items<Option<Constraint>>;

/// Places of triples in a graph.
pub type TriplePlaces = Items<usize>;

/// For each shape the places of the triples that state its constraints.
pub type PlaceLists = Items<TriplePlaces>;
