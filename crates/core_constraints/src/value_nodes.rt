ghost use Rattle.std.specs.Prelude.{◌≡◌, ◌<◌, ◌↔◌, ℕ, IsTrue, not, IfOk, IfSome, Some, Contains, length, slice_get};
ghost use Rattle.shapes_graph.specs.declared.paths.PathForm.TheVariants.{Predicate, Inverse};
ghost use Rattle.std.specs.List.{list_any};
ghost use Rattle.std.specs.List.Sorted.{IsStrictlyIncreasing};
ghost use Rattle.rdf_terms.specs.Statement.{Statement};
ghost use Rattle.rdf_terms.specs.Graph.{has};
ghost use Rattle.rdf_terms.specs.Members.{InGraph};
ghost use Rattle.rdf_navigation.specs.Values.{among};
ghost use Rattle.shapes_graph.specs.PathForms.{paths};
ghost use Rattle.shapes_graph.specs.Reach.{Reaches};
ghost use Rattle.shapes_graph.specs.Conformance.{IsOpen};
ghost use Rattle.path_eval.specs.Directions.{Towards};
ghost use Rattle.path_eval.specs.Numbered.{terms_at, AreNumbers};
ghost use Rattle.core_constraints.specs.Decisions.{Says};
ghost use Rattle.core_constraints.specs.NumberLists.{AreNumbersOf, IsStep};
ghost use Rattle.core_constraints.specs.Findings.{shapes_of, data_of, term_of, IsNodeNumber};
ghost use Rattle.core_constraints.specs.Findings.{IsShapeNumber, AreValueNodes};

use crate::input::Input;
use path_eval::{Direction, reached_from};
use rdf_terms::{OutOfMemory, Term, Text, Triple};
use shapes_graph::PathForm;
use std::alloc::Global;

/// The nodes to which triples with this predicate lead from a node, or backwards from which they lead
/// there, ascending and each once.
fn linked_nodes(
    alloc: Global,
    input: &Input<'_>,
    predicate: &str,
    direction: Direction,
    node: usize,
) -> Result<Vec<usize>, OutOfMemory>
    requires { IsNodeNumber input.now node }
    ensures { IfOk result (λ v. AreNumbersOf input.now.graph.nodes
        (Towards direction (λ x y. InGraph (data_of input.now) x (Term.Iri predicate.now) y) (term_of input.now node))
        v.items) }
{
    let mut found = input.graph.neighbours(alloc, predicate, direction, node)?;
    found.sort_unstable();
    found.dedup();
    Ok(found)
}

/// The objects of triples with this subject and this predicate, ascending and each once.
pub(crate) fn objects_of(
    alloc: Global,
    input: &Input<'_>,
    subject: usize,
    predicate: &str,
) -> Result<Vec<usize>, OutOfMemory>
    requires { IsNodeNumber input.now subject }
    ensures { IfOk result (λ v. AreNumbersOf input.now.graph.nodes
        (InGraph (data_of input.now) (term_of input.now subject) (Term.Iri predicate.now)) v.items) }
{
    linked_nodes(alloc, input, predicate, Direction::Forward, subject)
}

/// The predicate of a predicate path, by its number.
fn predicate_at(forms: &[PathForm], path: usize) -> Option<&Text>
    ensures { IfSome result (λ i. slice_get forms.now path ≡ Some (Predicate i.now)) }
{
    match forms.get(path) {
        Some(PathForm::Predicate(iri)) => Some(iri),
        _ => None,
    }
}

/// The path of which a path is the inverse, by its number.
fn inverse_part(forms: &[PathForm], path: usize) -> Option<usize>
    ensures { IfSome result (λ q. slice_get forms.now path ≡ Some (Inverse q)) }
{
    match forms.get(path) {
        Some(PathForm::Inverse(part)) => Some(*part),
        _ => None,
    }
}

/// The predicate that a path follows by a single triple, and which way, where it does so.
fn single_step(forms: &[PathForm], path: usize) -> Option<(&Text, Direction)>
    ensures { IfSome result (λ r. IsStep forms.now path r.0.now r.1) }
{
    if let Some(iri) = predicate_at(forms, path) {
        return Some((iri, Direction::Forward));
    }
    let part = inverse_part(forms, path)?;
    let iri = predicate_at(forms, part)?;
    Some((iri, Direction::Backward))
}

/// The nodes that a path reaches from a node, ascending and each once.
fn reached_nodes(
    alloc: Global,
    input: &Input<'_>,
    path: usize,
    node: usize,
) -> Result<Vec<usize>, OutOfMemory>
    requires path { path < length (paths input.now.shapes.now) }
    requires node { IsNodeNumber input.now node }
    ensures { IfOk result (λ v. AreNumbersOf input.now.graph.nodes
        (Reaches (shapes_of input.now) path (data_of input.now) (term_of input.now node)) v.items) }
{
    match single_step(input.shapes.paths(), path) {
        Some((predicate, direction)) => {
            linked_nodes(alloc, input, predicate.as_str(), direction, node)
        }
        None => reached_from(
            alloc,
            &input.graph,
            input.shapes.paths(),
            path,
            Direction::Forward,
            &[node],
        ),
    }
}

/// The value nodes of a node for a shape, ascending and each once (SHACL 2017, section 3.7).
pub(crate) fn value_nodes(
    alloc: Global,
    input: &Input<'_>,
    shape: usize,
    node: usize,
) -> Result<Vec<usize>, OutOfMemory>
    requires shape { IsShapeNumber input.now shape }
    requires node { IsNodeNumber input.now node }
    ensures { IfOk result (λ v. AreValueNodes input.now shape node v.items) }
{
    match input.shapes.path_of(shape) {
        None => Ok(vec![in alloc; node]?),
        Some(path) => reached_nodes(alloc, input, path, node),
    }
}

/// Whether the ascending numbers have this one.
pub(crate) fn contains(numbers: &[usize], number: usize) -> bool
    requires { IsStrictlyIncreasing numbers.now }
    ensures { Says result (Contains numbers.now number) }
{
    numbers.binary_search(&number).is_ok()
}

/// Whether the term is one of the nodes.
pub(crate) fn contains_term(input: &Input<'_>, values: &[usize], term: &Term) -> bool
    requires rises { IsStrictlyIncreasing values.now }
    requires within { AreNumbers input.now.graph.nodes values.now }
    ensures { Says result (Contains (terms_at input.now.graph.nodes values.now) term.now) }
{
    match input.graph.nodes().index_of_term(term) {
        Some(number) => contains(values, number),
        None => false,
    }
}

/// Whether a number is in both lists.
pub(crate) fn have_common(values: &[usize], objects: &[usize]) -> bool
    requires { IsStrictlyIncreasing objects.now }
    ensures { Says result ((n : ℕ) × Contains values.now n × Contains objects.now n) }
{
    values.iter().any(|value| contains(objects, *value))
}

/// Whether the term is among the terms.
pub(crate) fn is_among(terms: &[Term], term: &Term) -> bool
    ensures { result ≡ among terms.now term.now }
{
    terms.iter().any(|other| *term == *other)
}

/// The triples of the data graph with this subject.
pub(crate) fn triples_of<'a>(input: &'a Input<'_>, subject: usize) -> &'a [Triple]
    requires { IsNodeNumber input.now subject }
    ensures { (t : Statement) → Contains result.now t
        ↔ (IsTrue (has (data_of input.now) t) × (t.subject ≡ term_of input.now subject)) }
{
    let graph = input.graph.graph();
    let (first, after) = graph.places_of(input.term(subject));
    &graph.as_slice()[first..after]
}

/// Whether a triple has a predicate that isn't allowed.
fn has_open_triple(triples: &[Triple], allowed: &[Term]) -> bool
    ensures { result ≡ list_any (λ t. not (among allowed.now t.predicate)) triples.now }
{
    triples
        .iter()
        .any(|triple| !is_among(allowed, &triple.predicate))
}

/// Whether a triple with a value node as subject has a predicate that isn't allowed (SHACL 2017, section
/// 4.8.1).
pub(crate) fn is_any_open(input: &Input<'_>, values: &[usize], allowed: &[Term]) -> bool
    requires { AreNumbers input.now.graph.nodes values.now }
    ensures { Says result ((t : Statement) × IsOpen allowed.now (data_of input.now)
        (Contains (terms_at input.now.graph.nodes values.now)) t) }
{
    'values: for value in values {
        if has_open_triple(triples_of(input, *value), allowed) {
            return true;
        }
    }
    false
}
