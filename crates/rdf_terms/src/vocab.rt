//! IRIs that standards give a meaning, in modules named by their usual prefix. Each constant is the
//! whole IRI. In `specs/Vocab` it has the same name in small letters, which ends in `_` where it would
//! be a word of the language (`type_`, `in_`).

pub mod rdf;
pub mod rdfs;
pub mod sh;
pub mod xsd;
