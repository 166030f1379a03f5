//! Documents that claim a repair and prove it: their text, what a claimed pair does to data, and when the proof shows
//! what is claimed.
//!
//! `specs/Checks.antt` says when a document is accepted and why it is not, over the atoms of its clauses, and
//! `specs/Shown.antt` what an accepted one shows. A checker keeps the clauses over numbers of atoms in a store: each
//! new atom, in the order of the clauses of the rules, takes the next number.
#![tactic(auto)]

mod changes;
mod check;
mod checker;
mod laws;
mod members;
mod refusal;
mod writing;

pub use check::{check_document, check_document_in};
pub use laws::{accepted_claims_are_true, fresh_proofs_are_bounded};
pub use proof_documents::{
    ApplyRefusal, DocRefusal, DocumentText, apply_document, read_document_text,
};
pub use refusal::CheckRefusal;
pub use writing::document_bytes;
