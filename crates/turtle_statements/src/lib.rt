//! The statements of Turtle (RDF 1.1 Turtle, section 6.5, rules [2] to [15]) over their tokens, and what they mean: a
//! directive changes the prefixes or the base of those behind it, and triples are added to what was said before.
//!
//! `specs/Grammar.antt` has the productions as forms over tokens, `specs/Meaning.antt` what each of them says, as a
//! function of the triples so far and of the number of anonymous nodes so far. `read_statement` reads all tokens of one
//! statement.
//!
//! Brackets are read by recursion, and lists by loops. An object has at most `MOST_OPEN` brackets inside one another, a
//! subject one more; that no more than these are open at a place of a document is for `token_fault` to see before.
#![tactic(auto)]

mod context;
mod marks;
mod objects;
mod output;
mod role;
mod statement;
mod terms;

pub use context::Context;
pub use output::Output;
pub use role::Role;
pub use statement::read_statement;
