ghost use Rattle.std.specs.Prelude.{◌≡◌, ◌<◌, ◌++◌, [], ◌∷◌, true, false, not, OnOk, IfOk, filter_map, length};
ghost use Rattle.rdf_terms.specs.declared.term.Term.TheVariants.{Iri};
ghost use Rattle.rdf_terms.specs.Graph.{is_of, triples as triples_in};
ghost use Rattle.rdf_navigation.specs.Values.{among, same_term};
ghost use Rattle.repair_problem.specs.declared.atom.Atom.TheVariants as variant;
ghost use Rattle.repair_problem.specs.Candidates.{candidate_number};
ghost use Rattle.path_levels.specs.PossibleNodes.{node_count};
ghost use Rattle.path_levels.specs.PathParts.{literal as literal_part};
ghost use Rattle.atom_parts.specs.CandidateLists.{number_there, places_from, candidates_if, is_to, is_open};
ghost use Rattle.atom_parts.specs.CandidateLists.{linked_nodes};
ghost use Rattle.atom_parts.specs.ValueParts.{node_number};
ghost use Rattle.atom_parts.specs.PartsTable.{triple_parts};

use crate::value_parts::literal;
use rdf_terms::{Graph, OutOfMemory, Term, Triple};
use repair_problem::{Atom, PartList, Problem};
use std::alloc::Global;

/// Appends that the candidate is in the graph, or that it isn't.
fn push_triple(list: &mut PartList, t: usize, positive: bool) -> Result<(), OutOfMemory>
    ensures { OnOk result (list.new ≡ list.old ++ literal_part (variant.Triple t) positive ∷ []) }
{
    list.push(literal(Atom::Triple { t: t as u64 }, positive))
}

/// Appends that each of these triples, which are candidates, is in the graph.
fn push_all(list: &mut PartList, problem: &Problem, triples: &[Triple]) -> Result<(), OutOfMemory>
    ensures { OnOk result (list.new
        ≡ list.old ++ triple_parts (filter_map (candidate_number problem.now) triples.now) true) }
{
    'triples: for triple in triples {
        if let Some(t) = problem.candidate_of(triple) {
            push_triple(list, t, true)?;
        }
    }
    Ok(())
}

/// Appends that a candidate with this subject and this predicate is in the graph, for each.
pub(crate) fn push_subjects_of(
    list: &mut PartList,
    problem: &Problem,
    subject: &Term,
    predicate: &str,
) -> Result<(), OutOfMemory>
    ensures { OnOk result (list.new
        ≡ list.old ++ triple_parts (candidates_if problem.now (is_of subject.now (Iri predicate.now))) true) }
{
    push_all(
        list,
        problem,
        problem.present().triples_of(subject, predicate),
    )?;
    push_all(
        list,
        problem,
        problem.offers().triples_of(subject, predicate),
    )
}

/// The number as a candidate of the triple at a place, where it has this predicate; so many candidates stand before: of a
/// triple of the data none, of an offer all triples of the data.
fn number_with(
    before: &[Triple],
    triples: &[Triple],
    place: usize,
    predicate: &str,
) -> Option<usize>
    ensures { result
        ≡ number_there triples.now (λ t. same_term t.predicate (Iri predicate.now)) (length before.now) place }
{
    let triple = triples.get(place)?;
    if triple.predicate.compare_to_iri(predicate).is_eq() {
        Some(before.len() + place)
    } else {
        None
    }
}

/// Appends that a triple of the graph with this object and this predicate is in the edited graph, for each; these
/// candidates stand before.
fn push_to(
    list: &mut PartList,
    before: &[Triple],
    graph: &Graph,
    object: &Term,
    predicate: &str,
) -> Result<(), OutOfMemory>
    ensures { OnOk result (list.new ≡ list.old ++ triple_parts
        (places_from (length before.now) (is_to object.now (Iri predicate.now)) (triples_in graph.now)) true) }
{
    let triples = graph.as_slice();
    'places: for place in graph.places_of_object(object) {
        if let Some(t) = number_with(before, triples, *place, predicate) {
            push_triple(list, t, true)?;
        }
    }
    Ok(())
}

/// Appends that a candidate with this object and this predicate is in the graph, for each.
pub(crate) fn push_objects_of(
    list: &mut PartList,
    problem: &Problem,
    object: &Term,
    predicate: &str,
) -> Result<(), OutOfMemory>
    ensures { OnOk result (list.new
        ≡ list.old ++ triple_parts (candidates_if problem.now (is_to object.now (Iri predicate.now))) true) }
{
    let present = problem.present();
    push_to(list, &[], present, object, predicate)?;
    push_to(
        list,
        present.as_slice(),
        problem.offers(),
        object,
        predicate,
    )
}

/// Whether the term is among the terms.
fn is_among(terms: &[Term], term: &Term) -> bool
    ensures { result ≡ among terms.now term.now }
{
    terms.iter().any(|other| *term == *other)
}

/// The number as a candidate of the triple at a place, where its predicate isn't allowed; so many candidates stand
/// before.
fn open_number(
    before: &[Triple],
    triples: &[Triple],
    place: usize,
    allowed: &[Term],
) -> Option<usize>
    ensures { result ≡ number_there triples.now (λ t. not (among allowed.now t.predicate)) (length before.now) place }
{
    let triple = triples.get(place)?;
    if is_among(allowed, &triple.predicate) {
        None
    } else {
        Some(before.len() + place)
    }
}

/// Appends that a triple of the graph with this subject and a predicate that isn't allowed is not in the edited graph,
/// for each; these candidates stand before.
fn push_open(
    list: &mut PartList,
    before: &[Triple],
    graph: &Graph,
    subject: &Term,
    allowed: &[Term],
) -> Result<(), OutOfMemory>
    ensures { OnOk result (list.new ≡ list.old ++ triple_parts
        (places_from (length before.now) (is_open allowed.now subject.now) (triples_in graph.now)) false) }
{
    let (first, after) = graph.places_of(subject);
    let triples = graph.as_slice();
    'places: for place in first..after {
        if let Some(t) = open_number(before, triples, place, allowed) {
            push_triple(list, t, false)?;
        }
    }
    Ok(())
}

/// That no candidate with this subject and a predicate that isn't allowed is in the graph. It compares the predicate of
/// each candidate of the subject with each allowed one.
pub(crate) fn closed_list(
    alloc: Global,
    problem: &Problem,
    subject: &Term,
    allowed: &[Term],
) -> Result<PartList, OutOfMemory>
    ensures { IfOk result (λ list. list
        ≡ triple_parts (candidates_if problem.now (is_open allowed.now subject.now)) false) }
{
    let mut list = PartList::new(alloc);
    let present = problem.present();
    push_open(&mut list, &[], present, subject, allowed)?;
    push_open(
        &mut list,
        present.as_slice(),
        problem.offers(),
        subject,
        allowed,
    )?;
    Ok(list)
}

/// Appends the numbers of the objects of the triples.
fn push_objects(
    numbers: &mut Vec<u64>,
    problem: &Problem,
    triples: &[Triple],
) -> Result<(), OutOfMemory>
    ensures { OnOk result (numbers.new.items
        ≡ numbers.old.items ++ filter_map (λ t. node_number problem.now t.object) triples.now) }
{
    let nodes = problem.nodes();
    'triples: for triple in triples {
        if let Some(y) = nodes.index_of_term(&triple.object) {
            numbers.push(y as u64)?;
        }
    }
    Ok(())
}

/// The nodes to which candidates with this predicate lead from a node, ascending.
pub(crate) fn linked_nodes(
    alloc: Global,
    problem: &Problem,
    predicate: &str,
    x: u64,
) -> Result<Vec<u64>, OutOfMemory>
    requires { x < node_count problem.now }
    ensures { IfOk result (λ ys. ys.items ≡ linked_nodes problem.now predicate.now x) }
{
    let subject = problem.nodes().nth_term(x as usize);
    let mut numbers = Vec::new(alloc);
    push_objects(
        &mut numbers,
        problem,
        problem.present().triples_of(subject, predicate),
    )?;
    push_objects(
        &mut numbers,
        problem,
        problem.offers().triples_of(subject, predicate),
    )?;
    numbers.sort_unstable();
    numbers.dedup();
    Ok(numbers)
}
