ghost use Rattle.std.specs.Prelude.{◌≡◌, IfOk, MatchOption, not, position};
ghost use Rattle.std.specs.List.{All};
ghost use Rattle.rdf_terms.specs.Graph.{has, of_list};
ghost use Rattle.proof_documents.specs.Applying.{Applies, changes, Fits, IsOutside};

use crate::{ApplyRefusal, DocumentText};
use proof_lines::Claim;
use rdf_terms::{Graph, OutOfMemory, Triple, Triples};
use std::alloc::Global;

/// The line of the first change of a claimed pair, behind those of the version and the claim.
const FIRST_CHANGE: u64 = 3;

/// The data without the deletions of a claimed pair, and then with its additions. The proof isn't
/// checked.
///
/// `NoPair` comes exactly where the document claims no pair, and `OutsideData` exactly for the first
/// line whose added triple is in the data or whose deleted triple isn't.
pub fn apply_document(
    alloc: Global,
    present: &Graph,
    text: &DocumentText,
) -> Result<Graph, ApplyRefusal>
    ensures { Applies present.now text.now result }
{
    if text.proof.claim != Claim::Pair {
        return Err(ApplyRefusal::NoPair);
    }
    if let Some(line) = first_outside(present, text) {
        return Err(ApplyRefusal::OutsideData { line });
    }
    let add = graph_of_copies(alloc, text.adds.as_slice())?;
    let delete = graph_of_copies(alloc, text.deletes.as_slice())?;
    Ok(present.edited(alloc, &add, &delete)?)
}

/// The line of the first addition that is in the data already, or of the first deletion that isn't
/// in it, and `None` exactly where all changes fit.
fn first_outside(present: &Graph, text: &DocumentText) -> Option<u64>
    ensures { MatchOption result (All (Fits present.now) (changes text.now)) (IsOutside present.now text.now) }
{
    let adds = text.adds.as_slice();
    if let Some(place) = first_present(present, adds) {
        return Some(FIRST_CHANGE + place as u64);
    }
    let place = first_absent(present, text.deletes.as_slice())?;
    Some(FIRST_CHANGE + (adds.len() + place) as u64)
}

/// The place of the first of these triples that the graph has.
fn first_present(graph: &Graph, triples: &[Triple]) -> Option<usize>
    ensures { result ≡ position (has graph.now) triples.now }
{
    triples.iter().position(|triple| graph.contains(triple))
}

/// The place of the first of these triples that the graph hasn't.
fn first_absent(graph: &Graph, triples: &[Triple]) -> Option<usize>
    ensures { result ≡ position (λ t. not (has graph.now t)) triples.now }
{
    triples.iter().position(|triple| !graph.contains(triple))
}

/// The graph of copies of these triples.
fn graph_of_copies(alloc: Global, triples: &[Triple]) -> Result<Graph, OutOfMemory>
    ensures { IfOk result (λ g. g ≡ of_list triples.now) }
{
    Graph::from_triples(alloc, copies(alloc, triples)?)
}

/// A copy of each of these triples, in order.
fn copies(alloc: Global, triples: &[Triple]) -> Result<Triples, OutOfMemory>
    ensures { IfOk result (λ made. made ≡ triples.now) }
{
    let mut made = Triples::new(alloc);
    'copying: for triple in triples {
        made.push(triple.copy(alloc)?)?;
    }
    Ok(made)
}
