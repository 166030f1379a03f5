//! What the grammars of N-Triples and Turtle share: characters, escapes, IRIs, strings, blank node
//! labels and language tags, each with its reader. The productions, in capital letters, are those of
//! RDF 1.1 N-Triples, section 7, and RDF 1.1 Turtle, section 6.5.
//!
//! A reader takes a text and answers what stands at its front and the rest. `specs/Productions.antt`
//! has the productions as forms, `specs/Lawful.antt` the terms that a document can have.
#![tactic(auto)]

mod characters;
mod dialect;
mod escapes;
mod iri;
mod labels;
mod language_tag;
mod laws;
mod parse_error;
mod quoted;
mod recent_texts;
mod strings;

pub use characters::{CharClass, char_of, first_char, front, skip, skip_some, strip_char};
pub use dialect::Dialect;
pub use escapes::{parse_echar, parse_uchar};
pub use iri::{IriChars, has_scheme, is_iri_char, parse_absolute_iri, parse_iriref};
pub use labels::{is_base, is_name_char, is_name_start, parse_blank_node_label};
pub use language_tag::{Alphanumerics, Letters, parse_langtag};
pub use laws::readers_are_exact;
pub use parse_error::ParseError;
pub use quoted::{Quoted, parse_quoted};
pub use recent_texts::RecentTexts;
pub use strings::{StringChars, is_string_char, parse_string_literal};
