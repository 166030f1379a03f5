ghost use Rattle.std.specs.Prelude.{◌≡◌, position};
ghost use Rattle.std.specs.List.{before_first, after_first};
ghost use Rattle.datatypes.specs.Forms.{is_boolean, is_decimal, is_point, is_well_formed};

use crate::integer::{are_digits, without_sign};
use crate::range::range_of;
use rdf_terms::vocab::xsd;

/// Whether the text is a lexical form of `xsd:boolean`.
fn is_boolean(text: &str) -> bool
    ensures { result ≡ is_boolean text.now }
{
    matches!(text, "true" | "false" | "1" | "0")
}

/// The place of the first point.
fn position_of_point(text: &[u8]) -> Option<usize>
    ensures { result ≡ position is_point text.now }
{
    text.iter().position(|c| *c == b'.')
}

/// What stands before the first point, or all where there is none, and what stands behind it.
fn split_at_point(text: &[u8]) -> (&[u8], &[u8])
    ensures whole { result.0.now ≡ before_first is_point text.now }
    ensures fraction { result.1.now ≡ after_first is_point text.now }
{
    match position_of_point(text) {
        None => (text, &[]),
        Some(point) => (&text[..point], &text[point + 1..]),
    }
}

/// Whether the text is a lexical form of `xsd:decimal`.
fn is_decimal(text: &[u8]) -> bool
    ensures { result ≡ is_decimal text.now }
{
    let (whole, fraction) = split_at_point(without_sign(text));
    are_digits(whole) && are_digits(fraction) && (!whole.is_empty() || !fraction.is_empty())
}

/// Whether the text is a lexical form of the datatype of this IRI: of `xsd:boolean`, `xsd:decimal`,
/// `xsd:integer` or one of the twelve derived from it (XML Schema 1.1 Part 2, sections 3.3.2, 3.3.3 and
/// 3.4.13 to 3.4.25). Of any other datatype, every text counts as one.
#[tactic(auto, unfolding(crate::specs::Forms::is_well_formed))]
pub fn is_well_formed(datatype: &str, lexical: &str) -> bool
    ensures { result ≡ is_well_formed datatype.now lexical.now }
{
    match range_of(datatype) {
        Some(values) => values.parse(lexical).is_some(),
        None => match datatype {
            xsd::DECIMAL => is_decimal(lexical.as_bytes()),
            xsd::BOOLEAN => is_boolean(lexical),
            _ => true,
        },
    }
}
