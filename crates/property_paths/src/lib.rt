//! Property paths in shapes graphs (SHACL 2017, section 2.3.1): what the nodes of a graph are made of as
//! paths, and how deep they nest.
#![tactic(auto)]

mod names;
mod own_triples;
mod path_depths;
mod path_nodes;
mod paths;

pub use names::{is_named, is_one_of};
pub use own_triples::triples_with;
pub use path_depths::{DEPTH_CAP, PathDepths};
pub use path_nodes::path_node;
pub use paths::PathNode;
