use rdf_terms::{Items, Places, Text};

/// The form of a property path, over the numbers of paths (SHACL 2017, section 2.3.1).
#[derive(Drop)]
pub enum PathForm {
    Predicate(Text),
    Inverse(usize),
    /// One path and then the other. A list of more paths nests to the right.
    Sequence(usize, usize),
    /// The members in the order of their list, each as often as it stands there.
    Alternative(Places),
    ZeroOrMore(usize),
    OneOrMore(usize),
    ZeroOrOne(usize),
}

/// The forms of paths, by their numbers.
pub type PathForms = Items<PathForm>;

/// For each shape the number of its path, if it has one.
pub type PathNumbers = Items<Option<usize>>;
