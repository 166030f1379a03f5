//! The tokens of Turtle (RDF 1.1 Turtle, section 6), each with its place, and what of a statement can be said from
//! its tokens alone: where it ends, and whether it has a fault that has a place of its own.
//!
//! `specs/Tokens.antt` has the productions of tokens as regular forms. `next_token` reads the longest token of any of
//! them, `skip_filling` the white space and the comments between tokens, `cut_statement` the tokens of a statement.
//! `specs/Places.antt` says all of this over the bytes of a document, of which only the longest front that is UTF-8 is
//! read (`utf8_front`).
//!
//! Reading is a walk through the states of `State`, a character at a time: `ex:a..b` goes `Word`, `Word`, `Colon`,
//! `Local`, `LocalDots`, `LocalDots`, `Local`. A token ends at the last place where its state had a kind, so dots that
//! nothing follows are left. In the tokens of one statement no character is looked at more than a few times.
#![tactic(auto)]

mod faults;
mod filling;
mod front;
mod groups;
mod kinds;
mod reading;
mod statement;
mod states;
mod steps;

pub use faults::{TokenFault, token_fault};
pub use filling::skip_filling;
pub use front::utf8_front;
pub use kinds::TokenKind;
pub use reading::next_token;
pub use statement::{StatementTokens, Token, cut_statement};
