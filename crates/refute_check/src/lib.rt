//! The checker of resolution steps, over any store of clauses.
#![tactic(auto)]

mod check;
mod gather;
mod marks;
mod refusal;

pub use check::{check_step, is_refuted};
pub use marks::Marks;
pub use refusal::StepRefusal;
