ghost use Rattle.std.specs.Prelude.{◌≡◌, ◌++◌, ◌↔◌, IsTrue, OnOk, IfOk, length, slice_get, is_some};
ghost use Rattle.std.specs.List.{list_any};
ghost use Rattle.std.specs.Option.{option_copied};
ghost use Rattle.rdf_terms.specs.Members.{InGraph};
ghost use Rattle.rdf_navigation.specs.Values.{same_term, among, values, has_values, value_of, only_value};
ghost use Rattle.rdf_navigation.specs.Values.{subject_by, subjects, has_subjects};

use rdf_terms::{Graph, OutOfMemory, Term, Terms, Triple};
use std::alloc::Global;

/// Whether the property has a value for the subject (SHACL 2017, section 1.1). It takes no memory.
pub fn has_values(graph: &Graph, subject: &Term, predicate: &str) -> bool
    ensures { result ≡ has_values graph.now subject.now (Term.Iri predicate.now) }
{
    match graph.triples_of(subject, predicate) {
        [] => false,
        [_, ..] => true,
    }
}

/// How many values the property has for the subject. It takes no memory.
pub fn count_values(graph: &Graph, subject: &Term, predicate: &str) -> usize
    ensures { result ≡ length (values graph.now subject.now (Term.Iri predicate.now)) }
{
    graph.triples_of(subject, predicate).len()
}

fn has_object(triple: &Triple, object: &Term) -> bool
    ensures { result ≡ same_term object.now triple.now.object }
{
    *object == triple.object
}

/// Whether one of the triples has this object.
fn any_has_object(triples: &[Triple], object: &Term) -> bool
    ensures { result ≡ list_any (λ t. same_term object.now t.object) triples.now }
{
    triples.iter().any(|triple| has_object(triple, object))
}

/// Whether the property has this value for the subject. It looks at its values one by one, and takes
/// no memory.
pub fn has_value(graph: &Graph, subject: &Term, predicate: &str, value: &Term) -> bool
    ensures value { result ≡ among (values graph.now subject.now (Term.Iri predicate.now)) value.now }
    ensures exact { IsTrue result ↔ InGraph graph.now subject.now (Term.Iri predicate.now) value.now }
{
    any_has_object(graph.triples_of(subject, predicate), value)
}

/// The first value of the property for the subject, which is its value where it has at most one. It
/// takes no memory.
pub fn value_of<'a>(graph: &'a Graph, subject: &Term, predicate: &str) -> Option<&'a Term>
    ensures { option_copied result ≡ value_of graph.now subject.now (Term.Iri predicate.now) }
{
    match graph.triples_of(subject, predicate) {
        [] => None,
        [triple, ..] => Some(&triple.object),
    }
}

/// The value of the property for the subject, where it has exactly one. It takes no memory.
pub fn only_value<'a>(graph: &'a Graph, subject: &Term, predicate: &str) -> Option<&'a Term>
    ensures { option_copied result ≡ only_value graph.now subject.now (Term.Iri predicate.now) }
{
    match graph.triples_of(subject, predicate) {
        [triple] => Some(&triple.object),
        _ => None,
    }
}

/// Copies of the values of the property for the subject, in order, each once.
pub fn values(
    alloc: Global,
    graph: &Graph,
    subject: &Term,
    predicate: &str,
) -> Result<Terms, OutOfMemory>
    ensures { IfOk result (λ ts. ts ≡ values graph.now subject.now (Term.Iri predicate.now)) }
{
    let mut values = Terms::new(alloc);
    'copying: for triple in graph.triples_of(subject, predicate) {
        values.push(triple.object.copy(alloc)?)?;
    }
    Ok(values)
}

/// The subject of the triple, where it has this predicate.
fn subject_with<'a>(triple: &'a Triple, predicate: &str) -> Option<&'a Term>
    ensures { option_copied result ≡ subject_by (Term.Iri predicate.now) (Some triple.now) }
{
    if triple.predicate.compare_to_iri(predicate).is_eq() {
        Some(&triple.subject)
    } else {
        None
    }
}

/// The subject of the triple at a place, where there is one with this predicate.
fn subject_at<'a>(triples: &'a [Triple], place: usize, predicate: &str) -> Option<&'a Term>
    ensures { option_copied result ≡ subject_by (Term.Iri predicate.now) (slice_get triples.now place) }
{
    triples
        .get(place)
        .and_then(|triple| subject_with(triple, predicate))
}

/// Whether there is a triple with this predicate at a place.
fn is_predicate_at(triples: &[Triple], place: usize, predicate: &str) -> bool
    ensures { result ≡ is_some (subject_by (Term.Iri predicate.now) (slice_get triples.now place)) }
{
    subject_at(triples, place, predicate).is_some()
}

/// Whether there is a triple with this predicate at one of the places.
fn any_has_predicate(triples: &[Triple], places: &[usize], predicate: &str) -> bool
    ensures { result ≡ list_any
        (λ i. is_some (subject_by (Term.Iri predicate.now) (slice_get triples.now i))) places.now }
{
    places
        .iter()
        .any(|place| is_predicate_at(triples, *place, predicate))
}

/// Whether some subject has this value of the property. It looks at the triples with this object one
/// by one, and takes no memory.
pub fn has_subjects(graph: &Graph, predicate: &str, object: &Term) -> bool
    ensures { result ≡ has_subjects graph.now (Term.Iri predicate.now) object.now }
{
    any_has_predicate(graph.as_slice(), graph.places_of_object(object), predicate)
}

/// Appends copies of the subjects that have this value of the property, in order, each once. After
/// `OutOfMemory` some of them may stand there.
pub fn push_subjects(
    alloc: Global,
    terms: &mut Terms,
    graph: &Graph,
    predicate: &str,
    object: &Term,
) -> Result<(), OutOfMemory>
    ensures { OnOk result (terms.new ≡ terms.old ++ subjects graph.now (Term.Iri predicate.now) object.now) }
{
    let triples = graph.as_slice();
    'places: for place in graph.places_of_object(object) {
        if let Some(subject) = subject_at(triples, *place, predicate) {
            terms.push(subject.copy(alloc)?)?;
        }
    }
    Ok(())
}

/// Copies of the subjects that have this value of the property, in order, each once.
pub fn subjects(
    alloc: Global,
    graph: &Graph,
    predicate: &str,
    object: &Term,
) -> Result<Terms, OutOfMemory>
    ensures { IfOk result (λ ts. ts ≡ subjects graph.now (Term.Iri predicate.now) object.now) }
{
    let mut subjects = Terms::new(alloc);
    push_subjects(alloc, &mut subjects, graph, predicate, object)?;
    Ok(subjects)
}
