//! Triples are brought near their order by a part of their subjects that is kept in a table, so
//! that the sort by whole triples looks at few of them more than once. Whatever this makes of a
//! list, that sort alone decides.
ghost use Rattle.std.specs.Prelude.{◌≡◌, ◌<◌, ◌≤◌, IfOk, length, vec_len};
ghost use Rattle.std.specs.List.Sorted.{IsPermutation};

use crate::{OutOfMemory, Term, Text, Triple};
use std::alloc::Global;

/// The place of a triple, with the head of its subject: the kind of the node, and the first bytes of
/// its text behind those that are skipped in IRIs.
#[derive(Clone, Copy, Debug)]
struct HeadedPlace {
    head: u128,
    place: usize,
}

/// Sorts triples by the heads of their subjects, and those that share a head in full.
pub(crate) fn presort(alloc: Global, triples: &mut [Triple]) -> Result<(), OutOfMemory>
    ensures { IsPermutation triples.old triples.new }
{
    let mut headed = headed_places(alloc, triples)?;
    headed.sort_by_key(|at| at.head)?;
    let mut sources = sources_of(alloc, headed.as_slice())?;
    gather(triples, sources.as_mut_slice());
    sort_shared_heads(triples, headed.as_slice());
    Ok(())
}

/// The places of triples, with the heads of their subjects.
fn headed_places(alloc: Global, triples: &[Triple]) -> Result<Vec<HeadedPlace>, OutOfMemory>
    ensures { IfOk result (λ headed. vec_len headed ≡ length triples.now) }
{
    let skipped = common_len(triples);
    let mut headed = Vec::with_capacity(alloc, triples.len())?;
    'listing: for place in 0..triples.len() {
        let head = head_of(triples[place].subject(), skipped);
        headed.push(HeadedPlace { head, place })?;
    }
    Ok(headed)
}

/// The places alone.
fn sources_of(alloc: Global, headed: &[HeadedPlace]) -> Result<Vec<usize>, OutOfMemory>
    ensures { IfOk result (λ places. vec_len places ≡ length headed.now) }
{
    Ok(headed.iter().map(|at| at.place).collect(alloc)?)
}

/// Exchanges triples until each place has the triple whose place the list names there, where it
/// names each place once. It follows one cycle after another, and marks the places that are done
/// as their own sources.
fn gather(triples: &mut [Triple], sources: &mut [usize])
    requires { length sources.old ≡ length triples.old }
    ensures { IsPermutation triples.old triples.new }
{
    'cycles: for first in 0..sources.len() {
        let mut place = first;
        'cycle: for _ in first..sources.len() {
            let source = sources[place];
            sources[place] = place;
            if source == first || source >= triples.len() {
                break;
            }
            triples.swap(place, source);
            place = source;
        }
    }
}

/// Sorts each stretch of triples whose subjects share a head.
fn sort_shared_heads(triples: &mut [Triple], headed: &[HeadedPlace])
    requires { length headed.now ≡ length triples.old }
    ensures { IsPermutation triples.old triples.new }
{
    let mut start = 0;
    'stretches: while start < headed.len() {
        let end = end_of_head(headed, start);
        triples[start..end].sort_unstable();
        start = end;
    }
}

/// The place behind the stretch that shares a head, from its first place on.
fn end_of_head(headed: &[HeadedPlace], start: usize) -> usize
    requires { start < length headed.now }
    ensures { (start < result) × (result ≤ length headed.now) }
{
    let head = headed[start].head;
    let mut end = start + 1;
    'sharing: while end < headed.len() && headed[end].head == head {
        end += 1;
    }
    end
}

/// How many bytes all subjects that are IRIs begin with in common.
fn common_len(triples: &[Triple]) -> usize {
    let mut first: Option<&Text> = None;
    let mut len = 0;
    'subjects: for triple in triples {
        if let Term::Iri(iri) = triple.subject() {
            match first {
                None => {
                    first = Some(iri);
                    len = iri.as_str().len();
                }
                Some(first) => len = len.min(shared_len(first.as_str(), iri.as_str())),
            }
        }
    }
    len
}

/// How many bytes two texts begin with in common.
fn shared_len(a: &str, b: &str) -> usize {
    a.as_bytes()
        .iter()
        .zip(b.as_bytes())
        .take_while(|(x, y)| x == y)
        .count()
}

/// The kind of a node, and the bytes of its text behind those that are skipped in IRIs. In the
/// order of these numbers, IRIs come before blank nodes, and both go by their bytes.
fn head_of(node: &Term, skipped: usize) -> u128 {
    match node {
        Term::Iri(iri) => pack(0, iri.as_str(), skipped),
        Term::Blank { label, .. } => pack(1, label.as_str(), 0),
        Term::Literal { lexical, .. } => pack(2, lexical.as_str(), 0),
    }
}

/// A kind, and behind it 15 bytes of a text from one on, filled up with zeros.
fn pack(kind: u8, text: &str, skipped: usize) -> u128 {
    let mut head = [0u8; 16];
    head[0] = kind;
    let bytes = text.as_bytes().get(skipped..).unwrap_or(&[]);
    for (to, byte) in head[1..].iter_mut().zip(bytes) {
        *to = *byte;
    }
    u128::from_be_bytes(head)
}
