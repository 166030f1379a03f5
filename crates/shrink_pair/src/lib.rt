//! Minimal repairs of a problem, each with its proof: a search for changes that explain, each below the one before,
//! until none is left below the last one, no change explains, or the budget of steps is used up.
//!
//! A session (`session.rt`) keeps one solver over the clauses of the problem. Each model of these is a change that
//! explains. Once one is found, premises of two kinds are added, `Outside` and `Undo`, so that the models are then the
//! changes below it that explain; the steps that were learned before stay. Candidates (`candidates.rt`) are decided
//! first, and as in the data, so that the first change is small. A change that has no candidate ends the search, since
//! `Undo` is then empty.
#![tactic(auto)]

mod candidates;
mod explain;
mod rules;
mod session;

pub use explain::explain_problem;
