ghost use Rattle.std.specs.Prelude.{◌≡◌, ◌↔◌, Bool, option_map};
ghost use Rattle.datatypes.specs.Literals.{integer_value, by_size, small_integer, integer_order};
ghost use Rattle.datatypes.specs.Literals.{meets_min_exclusive, meets_min_inclusive};
ghost use Rattle.datatypes.specs.Literals.{meets_max_exclusive, meets_max_inclusive};
ghost use Rattle.datatypes.specs.Literals.{count_of, boolean_of, boolean_literal};

use crate::Integer;
use crate::integer::parse_integer;
use crate::range::range_of;
use rdf_terms::Term;
use rdf_terms::vocab::xsd;
use std::cmp::Ordering;

/// The value of a well-formed integer literal: one of `xsd:integer`, or of one of the twelve datatypes
/// derived from it, and well formed. `None` exactly where the term is none.
#[tactic(auto, unfolding(crate::specs::Literals::integer_value))]
pub fn integer_value(term: &Term) -> Option<Integer>
    ensures { result ≡ option_map by_size (integer_value term.now) }
{
    match term {
        Term::Literal {
            lexical,
            datatype,
            ..
        } => range_of(datatype.as_str())?.parse(lexical.as_str()),
        _ => None,
    }
}

/// The value of a well-formed integer literal within 128 bits. `None` exactly where the term is none.
pub fn small_integer(term: &Term) -> Option<i128>
    ensures { result ≡ small_integer term.now }
{
    match integer_value(term)? {
        Integer::Within(value) => Some(value),
        Integer::Below | Integer::Above => None,
    }
}

/// The order of the values of two well-formed integer literals within 128 bits (SHACL 2017, section
/// 4.3). `None` exactly where one of the terms is none.
pub fn compare_integers(a: &Term, b: &Term) -> Option<Ordering>
    ensures { result ≡ integer_order a.now b.now }
{
    let first = small_integer(a)?;
    let second = small_integer(b)?;
    Some(first.cmp(&second))
}

/// Whether the value meets this bound of `sh:minExclusive` (SHACL 2017, section 4.3.1): both are
/// well-formed integer literals within 128 bits, and the bound is less than the value.
pub fn meets_min_exclusive(bound: &Term, value: &Term) -> bool
    ensures { result ≡ meets_min_exclusive bound.now value.now }
{
    compare_integers(bound, value).is_some_and(|order| order.is_lt())
}

/// Whether the value meets this bound of `sh:minInclusive` (SHACL 2017, section 4.3.2): both are
/// well-formed integer literals within 128 bits, and the bound is less than or equal to the value.
pub fn meets_min_inclusive(bound: &Term, value: &Term) -> bool
    ensures { result ≡ meets_min_inclusive bound.now value.now }
{
    compare_integers(bound, value).is_some_and(|order| order.is_le())
}

/// Whether the value meets this bound of `sh:maxExclusive` (SHACL 2017, section 4.3.3): both are
/// well-formed integer literals within 128 bits, and the bound is greater than the value.
pub fn meets_max_exclusive(bound: &Term, value: &Term) -> bool
    ensures { result ≡ meets_max_exclusive bound.now value.now }
{
    compare_integers(bound, value).is_some_and(|order| order.is_gt())
}

/// Whether the value meets this bound of `sh:maxInclusive` (SHACL 2017, section 4.3.4): both are
/// well-formed integer literals within 128 bits, and the bound is greater than or equal to the value.
pub fn meets_max_inclusive(bound: &Term, value: &Term) -> bool
    ensures { result ≡ meets_max_inclusive bound.now value.now }
{
    compare_integers(bound, value).is_some_and(|order| order.is_ge())
}

/// The count that the term states in a shapes graph, as a value of `sh:minCount` does: the value of a
/// well-formed literal of `xsd:integer`, from 0 to 4,294,967,295. `None` exactly where it is no such
/// literal.
pub fn count_of(term: &Term) -> Option<u64>
    ensures { result ≡ count_of term.now }
{
    match term {
        Term::Literal {
            lexical,
            datatype,
            ..
        } if datatype.as_str() == xsd::INTEGER => {
            match parse_integer(lexical.as_str())? {
                Integer::Within(value) => Some(u64::from(u32::try_from(value).ok()?)),
                Integer::Below | Integer::Above => None,
            }
        }
        _ => None,
    }
}

/// The boolean that the term states in a shapes graph, as a value of `sh:closed` does: it is the
/// literal `true` or `false` of `xsd:boolean`. `None` exactly where it is neither, as for `1` and `0`.
pub fn boolean_of(term: &Term) -> Option<bool>
    ensures value { result ≡ boolean_of term.now }
    ensures literal { (b : Bool) → (result ≡ Some b) ↔ (term.now ≡ boolean_literal b) }
{
    match term {
        Term::Literal {
            lexical,
            datatype,
            tag: None,
        } if datatype.as_str() == xsd::BOOLEAN => match lexical.as_str() {
            "true" => Some(true),
            "false" => Some(false),
            _ => None,
        },
        _ => None,
    }
}
