//! Turtle documents (RDF 1.1 Turtle): a reader of whole documents.
#![tactic(auto)]

mod document;
mod refusal;

pub use document::read_turtle;
pub use refusal::TurtleRefusal;
pub use turtle_statements::Role;
