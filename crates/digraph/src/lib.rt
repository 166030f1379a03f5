//! Directed graphs over numbered nodes: the depths of nodes, what is reached, and which node is the first on a circle.
#![tactic(auto)]

mod circles;
mod components;
mod depth;
mod digraph;
mod reach;

pub use circles::first_on_circle;
pub use depth::depths;
pub use digraph::Digraph;
pub use reach::reached;
