//! What a repair problem is: a shapes graph, a data graph and offered triples, with numbers for what may be changed and
//! for the nodes. It also has the atoms by which its repairs are sought and checked.
//!
//! `specs/Repair.antt` defines the pairs of additions and deletions that explain why data doesn't conform, and those of
//! them that are minimal, for any meaning of conformance; `specs/Changes.antt` the same by candidates; and
//! `specs/Meaning.antt` what an atom means in an edited graph.
#![tactic(auto)]

mod atom;
mod places;
mod problem;
mod targets;

pub use atom::{Atom, Literal, LiteralList, Part, PartList, Parts};
pub use problem::Problem;
