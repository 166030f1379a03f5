ghost use Rattle.std.specs.Prelude.{◌≡◌, ◌⊎◌, ◌↔◌, IsTrue, IfSome, IfNone, ◌&&◌, ◌∷◌, [], is_some, is_none};
ghost use Rattle.std.specs.List.{list_any};
ghost use Rattle.std.specs.Option.{option_copied};
ghost use Rattle.std.specs.Str.{bytes_eq};
ghost use Rattle.rdf_terms.specs.declared.term.Term.{Term as T};
ghost use Rattle.rdf_terms.specs.Graph.{triples};
ghost use Rattle.rdf_terms.specs.Vocab.Xsd.{decimal, float, double};
ghost use Rattle.datatypes.specs.Literals.{integer_value, small_integer};
ghost use Rattle.shapes_graph.specs.OrderLiterals.{ComparesAll, IsCompared, is_out_of_reach, IsOrderLiteral};
ghost use Rattle.value_tests.specs.FirstTerms.{IsFirstWith, first_of_two};
ghost use Rattle.value_tests.specs.RangePlaces.{ComparesValuesOfTerm, IsOrderTerm, IsOrderTermIn};
ghost use Rattle.value_tests.specs.RangePlaces.{IsOrderTarget, IsOrderTargetIn};

use crate::range_constraints::{compares_all, compares_values_of};
use datatypes::{Integer, integer_value};
use property_paths::is_named;
use rdf_terms::vocab::{sh, xsd};
use rdf_terms::{Graph, Term, Triple};
use shapes_graph::Shapes;

/// Whether the datatype is one of numbers that this project does not compare.
fn is_datatype_out_of_reach(datatype: &str) -> bool
    ensures { result ≡ list_any (bytes_eq datatype.now) (decimal ∷ float ∷ double ∷ []) }
{
    matches!(datatype, xsd::DECIMAL | xsd::FLOAT | xsd::DOUBLE)
}

/// Whether the term is a well-formed integer literal that 128 bits do not hold.
fn is_large_integer(term: &Term) -> bool
    ensures { result ≡ (is_some (integer_value term.now) && is_none (small_integer term.now)) }
{
    matches!(integer_value(term), Some(Integer::Below | Integer::Above))
}

/// Whether the term is a literal that has an order and that this project cannot compare.
fn is_out_of_reach(term: &Term) -> bool
    ensures { result ≡ is_out_of_reach term.now }
{
    match term {
        Term::Literal { datatype, .. } => {
            is_datatype_out_of_reach(datatype.as_str()) || is_large_integer(term)
        }
        Term::Iri(_) | Term::Blank { .. } => false,
    }
}

/// The first of two terms in the order of terms, where there are such.
fn first_of_two<'a>(a: Option<&'a Term>, b: Option<&'a Term>) -> Option<&'a Term>
    ensures { option_copied result ≡ first_of_two (option_copied a.entry) (option_copied b.entry) }
{
    match a {
        None => b,
        Some(x) => match b {
            None => Some(x),
            Some(y) => if x.compare(y).is_gt() {
                Some(y)
            } else {
                Some(x)
            },
        },
    }
}

/// Whether the values of the predicate are compared. `all` says whether every literal is.
fn is_compared(shapes: &Shapes, all: bool, predicate: &Term) -> bool
    requires { IsTrue all ↔ ComparesAll shapes.now }
    ensures { IsTrue result ↔ (ComparesAll shapes.now ⊎ ComparesValuesOfTerm shapes.now predicate.now) }
{
    all || compares_values_of(shapes, predicate)
}

/// The object of the triple, if it is compared and out of reach. `all` says whether every literal is
/// compared.
fn order_object<'a>(shapes: &Shapes, all: bool, triple: &'a Triple) -> Option<&'a Term>
    requires { IsTrue all ↔ ComparesAll shapes.now }
    ensures { IsFirstWith (IsOrderTerm shapes.now triple.now) (option_copied result) }
{
    let object = &triple.object;
    if is_out_of_reach(object) && is_compared(shapes, all, &triple.predicate) {
        Some(object)
    } else {
        None
    }
}

/// The first literal of the triples that is compared and out of reach. `all` says whether every literal is
/// compared.
fn first_object<'a>(shapes: &Shapes, all: bool, triples: &'a [Triple]) -> Option<&'a Term>
    requires { IsTrue all ↔ ComparesAll shapes.now }
    ensures { IsFirstWith (IsOrderTermIn shapes.now triples.now) (option_copied result) }
{
    let mut first = None;
    'triples: for triple in triples {
        first = first_of_two(first, order_object(shapes, all, triple));
    }
    first
}

/// The value of `sh:targetNode` that the triple states, if it is out of reach.
fn order_target(triple: &Triple) -> Option<&Term>
    ensures { IsFirstWith (IsOrderTarget triple.now) (option_copied result) }
{
    let object = &triple.object;
    if is_named(&triple.predicate, sh::TARGET_NODE) && is_out_of_reach(object) {
        Some(object)
    } else {
        None
    }
}

/// The first value of `sh:targetNode` in the triples that is out of reach.
fn first_target(triples: &[Triple]) -> Option<&Term>
    ensures { IsFirstWith (IsOrderTargetIn triples.now) (option_copied result) }
{
    let mut first = None;
    'triples: for triple in triples {
        first = first_of_two(first, order_target(triple));
    }
    first
}

/// The first literal in the order of terms that a range constraint compares (SHACL 2017, section 4.3) and
/// that this project cannot compare: one of `xsd:decimal`, `xsd:float` or `xsd:double`, or a well-formed
/// integer literal outside 128 bits. Where a range constraint stands on a node shape, or on a property
/// shape whose path is no predicate, every literal of both graphs and every value of `sh:targetNode` is
/// compared. Else the objects of the triples of both graphs whose predicate is the path of a property
/// shape with a range constraint are. `None` comes exactly where no compared literal is such. It goes once
/// over the triples of both graphs, looks up the predicate of a literal only where it can't compare the
/// literal, and takes no memory.
pub fn order_literal<'a>(
    shapes: &'a Shapes,
    present: &'a Graph,
    offered: &'a Graph,
) -> Option<&'a Term>
    ensures some { IfSome result (λ y. IsOrderLiteral shapes.now present.now offered.now y.now) }
    ensures none { IfNone result
        ((y : T) → IsCompared shapes.now present.now offered.now y → ¬ (IsTrue (is_out_of_reach y))) }
{
    let all = compares_all(shapes);
    let present = first_object(shapes, all, present.as_slice());
    let offered = first_object(shapes, all, offered.as_slice());
    let first = first_of_two(present, offered);
    if all {
        first_of_two(first, first_target(shapes.triples().as_slice()))
    } else {
        first
    }
}
