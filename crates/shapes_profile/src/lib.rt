//! The profile of shapes graphs (SHACL 2017): which nodes are shapes and paths, which shapes refer to
//! which, and the first cause for which a graph is not in the profile of this project.
#![tactic(auto)]

mod declarations;
mod deep_paths;
mod ill_formed;
mod profile;
mod properties;
mod ranks;
mod references;
mod refusals;
mod rules;
mod shape_nodes;
mod unsupported;

pub use declarations::Declarations;
pub use profile::{ProfiledShapes, check_profile};
pub use properties::Property;
pub use references::{has_true_value, is_true_literal, siblings};
pub use refusals::ShapeRefusal;
pub use shape_nodes::{ShapeNodes, push_copies};
