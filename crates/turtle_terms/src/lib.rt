//! What the tokens of Turtle mean: the lexical form of a string, the IRI of a reference and of a prefixed name, the
//! label of a blank node, a language tag, the literals that are written without quotation marks, and the keywords.
//!
//! Each reader takes the text of a token as it is written. It answers `NoMatch` where that text has no meaning, as
//! where a UCHAR names no character, or where it is no token of that kind.
#![tactic(auto)]

mod ends;
mod keywords;
mod labels;
mod laws;
mod literals;
mod names;
mod references;
mod strings;

pub use keywords::{Keyword, keyword_of};
pub use labels::{parse_label, parse_tag};
pub use laws::meanings_are_single;
pub use literals::parse_unquoted;
pub use names::{PrefixedName, expand_name, split_name};
pub use references::parse_iri;
pub use strings::parse_string;
