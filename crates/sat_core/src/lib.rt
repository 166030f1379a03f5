//! A solver of sets of clauses by conflict-driven search, over any store of clauses. Each clause that it learns is
//! logged as the chain of resolutions in which it was found, so that a refutation can be checked without the solver.
//!
//! `propagation.rt` makes true what has to be; `walk.rt` and `learning.rt` find what follows from a clause that is
//! false; `search.rt` is the loop. Propagation alone walks over all clauses, beside the look that finds none open.
#![tactic(auto)]

mod choosing;
mod hints;
mod learning;
mod levels;
mod outcome;
mod propagation;
mod room;
mod scanning;
mod search;
mod solver;
mod trail;
mod undoing;
mod walk;

pub use outcome::Outcome;
pub use solver::Solver;
pub use trail::{Entry, Log, LogStep};
