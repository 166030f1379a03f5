//! The focus nodes of shapes (SHACL 2017, section 2.1.3).
#![tactic(auto)]

mod focus;
mod selection;

pub use focus::{focus_nodes, focus_numbers};
