ghost use Rattle.std.specs.Prelude.{◌≡◌, ◌<◌, IfSome, IfOk, OnErr, Some, false, length, slice_get};
ghost use Rattle.rdf_terms.specs.Statement.{statement_cmp};
ghost use Rattle.rdf_terms.specs.Graph.{triples, has};
ghost use Rattle.repair_problem.specs.Candidates.{place_among};

use rdf_terms::{Graph, Term, Triple};
use std::cmp::Ordering;

/// The order of a triple against one that is given by its terms.
fn compare_terms(triple: &Triple, subject: &Term, predicate: &str, object: &Term) -> Ordering
    ensures { result ≡ statement_cmp triple.now
        (record { subject = subject.now; predicate = Term.Iri predicate.now; object = object.now }) }
{
    triple
        .subject
        .compare(subject)
        .then_with(|| triple.predicate.compare_to_iri(predicate))
        .then_with(|| triple.object.compare(object))
}

/// The place in a graph of the triple of these terms, or the place where it would stand.
fn search_terms(
    graph: &Graph,
    subject: &Term,
    predicate: &str,
    object: &Term,
) -> Result<usize, usize>
    ensures found { IfOk result (λ i. slice_get (triples graph.now) i
        ≡ Some (record { subject = subject.now; predicate = Term.Iri predicate.now; object = object.now })) }
    ensures absent { OnErr result (has graph.now
        (record { subject = subject.now; predicate = Term.Iri predicate.now; object = object.now }) ≡ false) }
{
    graph
        .as_slice()
        .binary_search_by(|triple| compare_terms(triple, subject, predicate, object))
}

/// The place in a graph of the triple of these terms, and `None` exactly where the graph has it not. It takes no
/// memory.
pub(crate) fn place_of_terms(
    graph: &Graph,
    subject: &Term,
    predicate: &str,
    object: &Term,
) -> Option<usize>
    ensures value { result ≡ place_among (triples graph.now)
        (record { subject = subject.now; predicate = Term.Iri predicate.now; object = object.now }) }
    ensures within { IfSome result (λ i. i < length (triples graph.now)) }
{
    match search_terms(graph, subject, predicate, object) {
        Ok(place) => Some(place),
        Err(_) => None,
    }
}

/// The place of the triple in a graph, and `None` exactly where the graph has it not. It takes no memory.
pub(crate) fn place_of_triple(graph: &Graph, triple: &Triple) -> Option<usize>
    ensures value { result ≡ place_among (triples graph.now) triple.now }
    ensures within { IfSome result (λ i. i < length (triples graph.now)) }
{
    graph.index_of(triple)
}
