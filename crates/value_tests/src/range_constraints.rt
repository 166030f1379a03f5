ghost use Rattle.std.specs.Prelude.{◌≡◌, ◌<◌, ◌↔◌, IsTrue, IsFalse, IfSome, length};
ghost use Rattle.std.specs.Option.{option_copied};
ghost use Rattle.rdf_terms.specs.Graph.{triples};
ghost use Rattle.shapes_profile.specs.Shapes.{shape_terms};
ghost use Rattle.shapes_graph.specs.OrderLiterals.{is_range, path_form_of, ComparesAll};
ghost use Rattle.value_tests.specs.RangePlaces.{range_shape, predicate_of, compares_all_at, compares_values_at};
ghost use Rattle.value_tests.specs.RangePlaces.{has_path, ComparesValuesOfTerm, HasNone, HasNoneAt};

use property_paths::is_named;
use rdf_terms::{Term, Text};
use shapes_graph::{Kind, PathForm, Shapes};

/// Whether the constraint is one of the four ranges (SHACL 2017, section 4.3).
fn is_range(kind: &Kind) -> bool
    ensures { result ≡ is_range kind.now }
{
    matches!(
        kind,
        Kind::MinExclusive(_)
            | Kind::MinInclusive(_)
            | Kind::MaxExclusive(_)
            | Kind::MaxInclusive(_)
    )
}

/// The number of the shape whose range constraint the triple at the place states, if it states one.
fn range_shape(shapes: &Shapes, place: usize) -> Option<usize>
    requires { place < length (triples shapes.now) }
    ensures shape { result ≡ range_shape shapes.now place }
    ensures within { IfSome result (λ n. n < length (shape_terms shapes.now)) }
{
    match shapes.constraint(place) {
        Some(constraint) if is_range(&constraint.kind) => Some(constraint.shape),
        _ => None,
    }
}

/// The predicate that the path of the shape is, if it has a path and this is one.
fn predicate_of(shapes: &Shapes, shape: usize) -> Option<&Text>
    requires { shape < length (shape_terms shapes.now) }
    ensures { option_copied result ≡ predicate_of (path_form_of shapes.now shape) }
{
    match shapes.path(shapes.path_of(shape)?) {
        PathForm::Predicate(predicate) => Some(predicate),
        _ => None,
    }
}

/// Whether the triple at the place states a range constraint on a node shape, or on a property shape
/// whose path is no predicate.
fn compares_all_at(shapes: &Shapes, place: usize) -> bool
    requires { place < length (triples shapes.now) }
    ensures { result ≡ compares_all_at shapes.now place }
{
    match range_shape(shapes, place) {
        Some(shape) => predicate_of(shapes, shape).is_none(),
        None => false,
    }
}

/// Whether the path of the shape is this predicate.
fn has_path(shapes: &Shapes, shape: usize, predicate: &Term) -> bool
    requires { shape < length (shape_terms shapes.now) }
    ensures { result ≡ has_path shapes.now predicate.now shape }
{
    match predicate_of(shapes, shape) {
        Some(own) => is_named(predicate, own.as_str()),
        None => false,
    }
}

/// Whether the triple at the place states a range constraint on a property shape whose path is this
/// predicate.
fn compares_values_at(shapes: &Shapes, predicate: &Term, place: usize) -> bool
    requires { place < length (triples shapes.now) }
    ensures { result ≡ compares_values_at shapes.now predicate.now place }
{
    match range_shape(shapes, place) {
        Some(shape) => has_path(shapes, shape, predicate),
        None => false,
    }
}

/// Whether a node shape, or a property shape whose path is no predicate, has a range constraint: then
/// every literal is compared.
pub fn compares_all(shapes: &Shapes) -> bool
    ensures { IsTrue result ↔ ComparesAll shapes.now }
{
    'places: for place in 0..shapes.triples().len() {
        if compares_all_at(shapes, place) {
            return true;
        }
    }
    false
}

/// Whether a triple of the subject states a range constraint on a property shape whose path is this
/// predicate.
fn subject_compares_values(shapes: &Shapes, predicate: &Term, subject: &Term) -> bool
    ensures found { IsTrue result → ComparesValuesOfTerm shapes.now predicate.now }
    ensures none { IsFalse result → HasNone shapes.now predicate.now subject.now }
{
    let (first, after) = shapes.triples().places_of(subject);
    'places: for place in first..after {
        if compares_values_at(shapes, predicate, place) {
            return true;
        }
    }
    false
}

/// Whether a triple with the same subject as the triple at the place states such a range constraint.
fn subject_at_compares_values(shapes: &Shapes, predicate: &Term, place: usize) -> bool
    ensures found { IsTrue result → ComparesValuesOfTerm shapes.now predicate.now }
    ensures none { IsFalse result → HasNoneAt shapes.now predicate.now place }
{
    match shapes.triples().as_slice().get(place) {
        Some(triple) => subject_compares_values(shapes, predicate, &triple.subject),
        None => false,
    }
}

/// Whether a property shape whose path is this predicate has a range constraint: then the values of the
/// predicate are compared. It looks at the subjects of the triples that have the predicate as their
/// object, as those of `sh:path` have.
pub fn compares_values_of(shapes: &Shapes, predicate: &Term) -> bool
    ensures { IsTrue result ↔ ComparesValuesOfTerm shapes.now predicate.now }
{
    'places: for place in shapes.triples().places_of_object(predicate) {
        if subject_at_compares_values(shapes, predicate, *place) {
            return true;
        }
    }
    false
}
