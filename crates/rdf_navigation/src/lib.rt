//! How one gets from node to node in a graph, in the words of SHACL 2017, section 1.1: the values of
//! a property, SHACL lists, SHACL subclasses and instances.
#![tactic(auto)]

mod cell_kind;
mod instances;
mod lists;
mod numbers;
mod property;

pub use instances::{instances_of, subclasses_of};
pub use lists::Lists;
pub use numbers::{push_node, reached_terms};
pub use property::{
    count_values, has_subjects, has_value, has_values, only_value, push_subjects, subjects,
    value_of, values,
};
