//! Regular forms: sets of texts put together by the operators of regular expressions, as grammars describe tokens.
//!
//! `specs/Regular.antt` has the operators, and `specs/Longest.antt` what the longest text of some forms at the front
//! of a text is, and how a state machine looks for it. `proofs/Machines.antt` shows that a machine whose states have
//! certain forms left finds it, `proofs/Loops.antt` what a loop over such a machine keeps true. The crate has no
//! functions: what the forms are for is said by the crates whose readers cite them.
#![tactic(auto)]
