//! Documents that claim a repair and prove it: their text, and what a claimed pair does to data.
#![tactic(auto)]

mod apply;
mod claim_line;
mod document;
mod draft;
mod numbers;
mod proof_line;
mod refusal;
mod rising;
mod text;
mod triple_line;

pub use apply::apply_document;
pub use document::DocumentText;
pub use refusal::{ApplyRefusal, DocRefusal};
pub use text::read_document_text;
