ghost use Rattle.std.specs.Prelude.{◌≡◌, IfOk, IsTrue, MatchOption, not, position, ◌↔◌};
ghost use Rattle.rdf_terms.specs.Graph.{has, of_list};
ghost use Rattle.repair_problem.specs.Candidates.{additions, deletions};
ghost use Rattle.repair_problem.specs.Changes.{AreCandidates};
ghost use Rattle.certificates.specs.Checks.{AreChangesThere, IsChangeOutside};

use proof_documents::DocumentText;
use proof_lines::Claim;
use rdf_terms::{Graph, OutOfMemory, Places, Triple, Triples};
use repair_problem::Problem;
use std::alloc::Global;

/// The line of the first change of a claimed pair, behind those of the version and the claim.
pub(crate) const FIRST_CHANGE: u64 = 3;

/// The line of the first change of a claimed pair that is not there: an addition that is no offer, or a deletion that
/// is not in the data. `None` exactly where all are there.
pub(crate) fn first_change_outside(problem: &Problem, text: &DocumentText) -> Option<u64>
    ensures { MatchOption result (AreChangesThere problem.now text.now) (IsChangeOutside problem.now text.now) }
{
    if text.proof.claim != Claim::Pair {
        return None;
    }
    let adds = text.adds.as_slice();
    if let Some(place) = first_absent(problem.offers(), adds) {
        return Some(FIRST_CHANGE + place as u64);
    }
    let place = first_absent(problem.present(), text.deletes.as_slice())?;
    Some(FIRST_CHANGE + (adds.len() + place) as u64)
}

/// The place of the first of these triples that the graph hasn't.
fn first_absent(graph: &Graph, triples: &[Triple]) -> Option<usize>
    ensures { result ≡ position (λ t. not (has graph.now t)) triples.now }
{
    triples.iter().position(|triple| !graph.contains(triple))
}

/// A copy of each of these triples, in order.
fn copies(alloc: Global, triples: &[Triple]) -> Result<Triples, OutOfMemory>
    ensures { IfOk result (λ made. made ≡ triples.now) }
{
    let mut made = Triples::new(alloc);
    'copying: for triple in triples {
        made.push(triple.copy(alloc)?)?;
    }
    Ok(made)
}

/// Whether the graph has exactly these triples.
fn is_graph_of(alloc: Global, graph: &Graph, triples: &[Triple]) -> Result<bool, OutOfMemory>
    ensures { IfOk result (λ b. IsTrue b ↔ (graph.now ≡ of_list triples.now)) }
{
    let listed = Graph::from_triples(alloc, copies(alloc, triples)?)?;
    Ok(*graph == listed)
}

/// Whether a pair of candidates is that of these additions and deletions.
pub(crate) fn is_pair_of(
    alloc: Global,
    problem: &Problem,
    pair: &Places,
    text: &DocumentText,
) -> Result<bool, OutOfMemory>
    requires { AreCandidates problem.now pair.now }
    ensures { IfOk result (λ b. IsTrue b ↔ ((additions problem.now pair.now ≡ of_list text.now.adds)
        × (deletions problem.now pair.now ≡ of_list text.now.deletes))) }
{
    let added = problem.additions(alloc, pair)?;
    if !is_graph_of(alloc, &added, text.adds.as_slice())? {
        return Ok(false);
    }
    let deleted = problem.deletions(alloc, pair)?;
    is_graph_of(alloc, &deleted, text.deletes.as_slice())
}
