//! Grammars as forms: which lists of symbols have which meanings, put together by a dozen operators.
//!
//! `specs/Forms.antt` has the operators in which a grammar is written, `specs/Reading.antt` functions
//! that read each of them from the left, and `specs/Exact.antt` what it means that such a
//! function reads exactly a form. `proofs/Exactness.antt` has one lemma for each operator. The crate
//! has no functions: what the forms are for is said by the crates whose readers cite them.
#![tactic(auto)]
