use crate::constraints::{Constraints, PlaceLists};
use crate::paths::{PathForms, PathNumbers};
use crate::targets::TargetLists;
use rdf_terms::{Items, Terms};

/// What the triples of a shapes graph state, by the places of triples and the numbers of shapes and
/// paths.
#[derive(Drop)]
pub struct Tables {
    pub shapes: Terms,
    pub constraints: Constraints,
    pub places: PlaceLists,
    pub paths: PathForms,
    pub path_numbers: PathNumbers,
    pub targets: TargetLists,
    pub deactivated: Items<bool>,
    pub severities: Terms,
}
