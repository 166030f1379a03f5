ghost use Rattle.std.specs.Prelude.{◌≡◌, ◌<◌, ◌+◌, ◌++◌, ◌⊎◌, ◌↔◌, ℕ, List, Option};
ghost use Rattle.std.specs.Prelude.{IsTrue, OnOk, IfOk, length, map, Contains, false, slice_get, slice_index_or};
ghost use Rattle.std.specs.Option.{ForSome};
ghost use Rattle.rdf_terms.specs.declared.term.Term.{Term as T};
ghost use Rattle.rdf_terms.specs.Nodes.{terms, has_term};
ghost use Rattle.rdf_terms.specs.Members.{IsSetOf};
ghost use Rattle.digraph.specs.Reach.{IsReached};
ghost use Rattle.rdf_navigation.specs.Numbers.{term_at, IsNumbered, ends_by, IsEndOf};

use digraph::{Digraph, reached};
use rdf_terms::{Graph, Nodes, OutOfMemory, Term, Terms, Triple};
use std::alloc::Global;

/// Appends copies of the triple's subject and object, where it has this predicate.
fn push_ends(
    alloc: Global,
    terms: &mut Terms,
    triple: &Triple,
    predicate: &str,
) -> Result<(), OutOfMemory>
    ensures { OnOk result (terms.new ≡ terms.old ++ ends_by (Term.Iri predicate.now) triple.now) }
{
    if triple.predicate.compare_to_iri(predicate).is_eq() {
        terms.push(triple.subject.copy(alloc)?)?;
        terms.push(triple.object.copy(alloc)?)?;
    }
    Ok(())
}

/// The subjects and the objects of the triples with this predicate, and one more term.
pub(crate) fn ends_of(
    alloc: Global,
    graph: &Graph,
    predicate: &str,
    more: &Term,
) -> Result<Nodes, OutOfMemory>
    ensures { IfOk result (λ n. IsSetOf (λ x. IsEndOf graph.now (Term.Iri predicate.now) x ⊎ (x ≡ more.now)) n) }
{
    let mut terms = Terms::new(alloc);
    terms.push(more.copy(alloc)?)?;
    'triples: for triple in graph.as_slice() {
        push_ends(alloc, &mut terms, triple, predicate)?;
    }
    Nodes::from_terms(alloc, terms)
}

/// The places of terms in a set that has them all.
fn places_of(alloc: Global, nodes: &Nodes, sought: &[Term]) -> Result<Vec<usize>, OutOfMemory>
    requires { (t : T) → Contains sought.now t → IsTrue (has_term nodes.now t) }
    ensures places { IfOk result (λ v. map (term_at nodes.now) v.items ≡ sought.now) }
    ensures within { IfOk result (λ v. (i : ℕ) → Contains v.items i → i < length (terms nodes.now)) }
{
    let mut places = Vec::new(alloc);
    'terms: for term in sought {
        match nodes.index_of_term(term) {
            Some(place) => places.push(place)?,
            None => unreachable!(),
        }
    }
    Ok(places)
}

/// Gives the next number its successors, which are terms of the set; with `None` it is no node.
pub fn push_node(
    alloc: Global,
    digraph: &mut Digraph,
    nodes: &Nodes,
    successors: Option<Terms>,
) -> Result<(), OutOfMemory>
    requires { ForSome successors (λ ts. (t : T) → Contains ts t → IsTrue (has_term nodes.now t)) }
    ensures len { OnOk result (length digraph.new ≡ length digraph.old + 1) }
    ensures numbered { OnOk result ((next : T → Option (List T)) → IsNumbered next nodes.now digraph.old
        → next (term_at nodes.now (length digraph.old)) ≡ successors → IsNumbered next nodes.now digraph.new) }
{
    match successors {
        Some(terms) => {
            let places = places_of(alloc, nodes, terms.as_slice())?;
            digraph.push(Some(places.as_slice()))
        }
        None => digraph.push(None),
    }
}

fn is_marked(marks: &[bool], place: usize) -> bool
    ensures { result ≡ slice_index_or marks.now place false }
{
    if place < marks.len() {
        marks[place]
    } else {
        false
    }
}

/// Copies of the terms that have a mark.
fn marked_terms(alloc: Global, nodes: &Nodes, marks: &[bool]) -> Result<Terms, OutOfMemory>
    ensures { IfOk result (λ ts. (x : T) → Contains ts x
        ↔ ((i : ℕ) × (slice_get (terms nodes.now) i ≡ Some x) × IsTrue (slice_index_or marks.now i false))) }
{
    let mut marked = Terms::new(alloc);
    'places: for place in 0..nodes.len() {
        if is_marked(marks, place) {
            marked.push(nodes.nth_term(place).copy(alloc)?)?;
        }
    }
    Ok(marked)
}

/// The terms to which walks lead from the starts, which are reached themselves, along a relation between
/// terms of the set that the graph has as one between their places. Each term is looked at once, also
/// where walks go round.
pub fn reached_terms(
    alloc: Global,
    nodes: &Nodes,
    digraph: &Digraph,
    starts: &[Term],
) -> Result<Nodes, OutOfMemory>
    requires len { length digraph.now ≡ length (terms nodes.now) }
    requires starts { (t : T) → Contains starts.now t → IsTrue (has_term nodes.now t) }
    ensures { IfOk result (λ n. (next : T → Option (List T)) → IsNumbered next nodes.now digraph.now
        → IsSetOf (IsReached next starts.now) n) }
{
    let places = places_of(alloc, nodes, starts)?;
    let marks = reached(alloc, digraph, places.as_slice())?;
    let terms = marked_terms(alloc, nodes, marks.as_slice())?;
    Nodes::from_terms(alloc, terms)
}
