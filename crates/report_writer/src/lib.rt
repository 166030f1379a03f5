//! The report of validation results (SHACL 2017, section 3.6), in N-Triples.
#![tactic(auto)]

mod lines;
mod terms;
mod writing;

pub use writing::report_bytes;
