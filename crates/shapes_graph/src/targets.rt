use rdf_terms::{Items, Term, Text};

/// A target of a shape (SHACL 2017, section 2.1.3).
#[derive(Drop)]
pub enum Target {
    /// `sh:targetNode`: the node itself.
    Node(Term),
    /// `sh:targetClass`, or an implicit class, which is a shape itself: the SHACL instances of the class.
    Class(Term),
    /// `sh:targetSubjectsOf`: the subjects of triples with the predicate.
    SubjectsOf(Text),
    /// `sh:targetObjectsOf`: the objects of triples with the predicate.
    ObjectsOf(Text),
}

/// A list of targets.
pub type Targets = Items<Target>;

/// For each shape its targets.
pub type TargetLists = Items<Targets>;
