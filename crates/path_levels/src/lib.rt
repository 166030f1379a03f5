//! Which nodes paths can lead to in the edited graphs of a repair problem, and what the atoms of paths come down to.
//!
//! A path leads from one node to another in an edited graph only where it does so with all candidates in the graph.
//! So these nodes, its possible ones, are found once for each path and node, and kept. A repeated path has a level for
//! each number of steps, up to the number of its possible nodes: in an edited graph it may need more steps than in the
//! full one, but never more than there are nodes to step to.
#![tactic(auto)]

mod forms;
mod lists;
mod numbers;
mod parts;
mod path_atoms;

pub use lists::{PossibleNodes, possible};
pub use numbers::NodeNumbers;
pub use parts::path_parts;
