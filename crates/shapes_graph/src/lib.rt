//! Shapes graphs (SHACL 2017) in numbered tables: which shapes, paths, targets and constraints the
//! triples of a graph state.
#![tactic(auto)]

mod constraint_triples;
mod constraints;
mod kinds;
mod path_table;
mod paths;
mod shape_numbers;
mod shape_settings;
mod shape_tables;
mod shape_targets;
mod shapes;
mod tables;
mod targets;

pub use constraints::{Constraint, Kind};
pub use paths::PathForm;
pub use shapes::{Shapes, read_shapes};
pub use shapes_profile::ShapeRefusal;
pub use targets::Target;
