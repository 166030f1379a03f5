//! Lexical forms and values of datatypes (XML Schema 1.1 Part 2, sections 3.3 and 3.4), as SHACL
//! needs them: of `xsd:boolean`, of `xsd:decimal`, and of `xsd:integer` and those derived from it.
//! Every text of another datatype counts as well formed. No call takes memory, and each takes
//! time linear in the texts that it is given.
#![tactic(auto)]

mod form;
mod integer;
mod literal;
mod range;

pub use form::is_well_formed;
pub use integer::Integer;
pub use literal::{
    boolean_of, compare_integers, count_of, integer_value, meets_max_exclusive,
    meets_max_inclusive, meets_min_exclusive, meets_min_inclusive, small_integer,
};
