//! Numbers for the terms of a list: their places among its distinct terms, in the order of terms. The
//! terms are sorted by a part of them that is kept in a table, so that few of them are compared in full.
//! Whatever this makes of a list, the set of its terms alone decides, and each number is looked at there.
ghost use Rattle.std.specs.Prelude.{◌≡◌, ◌<◌, ◌≤◌, ◌↔◌, ◌⊎◌, ◌++◌, ◌∷◌, [], IsTrue, IfOk, OnOk, length};
ghost use Rattle.std.specs.Prelude.{Some, slice_get, slice_index, map, All, Contains};
ghost use Rattle.std.specs.List.Sorted.{IsPermutation};
ghost use Rattle.rdf_terms.specs.declared.term.Term.{Term as T};
ghost use Rattle.rdf_terms.specs.Nodes.{terms, has_term};
ghost use Rattle.path_eval.specs.Numbered.{terms_at, AreNumbers};
ghost use Rattle.path_eval.specs.TermNumbers.{terms_in, places_in, AreRanked, AreAllPlaces, ArePlaces};

use rdf_terms::{Nodes, OutOfMemory, Term, Terms};
use std::alloc::Global;

/// The place of a term in a list, with the head of the term: its kind, and the first bytes of its text,
/// in IRIs behind a start that most of them have.
#[derive(Clone, Copy, Debug)]
struct HeadedPlace {
    head: u128,
    place: usize,
}

/// The set of the terms of a list, and for each of them its number there. It is made fastest where most
/// IRIs begin with `start`.
pub(crate) fn number_terms(
    alloc: Global,
    list: &[&Term],
    start: &[u8],
) -> Result<(Nodes, Vec<usize>), OutOfMemory>
    ensures nodes { IfOk result (λ r. (t : T) → IsTrue (has_term r.0 t) ↔ Contains (terms_in list.now) t) }
    ensures numbers { IfOk result (λ r. terms_at r.0 r.1.items ≡ terms_in list.now) }
    ensures within { IfOk result (λ r. AreNumbers r.0 r.1.items) }
{
    let (distinct, mut ranks) = rank(alloc, list, start)?;
    let nodes = Nodes::from_terms(alloc, copies(alloc, distinct.as_slice())?)?;
    let numbers = numbers_of(alloc, &nodes, distinct.as_slice())?;
    look_up(ranks.as_mut_slice(), numbers.as_slice());
    Ok((nodes, ranks))
}

/// Appends the term, unless it may be the last one and is. Answers its place.
pub(crate) fn put_last<'a>(
    terms: &mut Vec<&'a Term>,
    term: &'a Term,
    may_be_last: bool,
) -> Result<usize, OutOfMemory>
    ensures place { IfOk result (λ place. slice_get (terms_in terms.new.items) place ≡ Some term.now) }
    ensures kept { OnOk result ((terms_in terms.new.items ≡ terms_in terms.old.items)
        ⊎ (terms_in terms.new.items ≡ terms_in terms.old.items ++ term.now ∷ [])) }
{
    let len = terms.len();
    if may_be_last && len > 0 && *terms[len - 1] == *term {
        return Ok(len - 1);
    }
    terms.push(term)?;
    Ok(len)
}

/// Puts for each place in a table what stands there.
pub(crate) fn look_up(places: &mut [usize], table: &[usize])
    requires { All (λ place. place < length table.now) places.old }
    ensures { places.new ≡ map (slice_index table.now) places.old }
{
    'places: for place in places.iter_mut() {
        *place = table[*place];
    }
}

/// The distinct terms of a list, in order, and for each term of the list its place among them.
fn rank<'a>(
    alloc: Global,
    list: &[&'a Term],
    start: &[u8],
) -> Result<(Vec<&'a Term>, Vec<usize>), OutOfMemory>
    ensures ranked { IfOk result (λ r. AreRanked (terms_in list.now) (terms_in r.0.items) r.1.items) }
    ensures listed { IfOk result (λ r. All (Contains (terms_in list.now)) (terms_in r.0.items)) }
{
    let headed = sorted_places(alloc, list, start)?;
    let mut distinct = Vec::new(alloc);
    let mut ranks = vec![in alloc; 0; list.len()]?;
    let mut head = 0;
    'places: for at in &headed {
        let rank = put_last(&mut distinct, list[at.place], at.head == head)?;
        ranks[at.place] = rank;
        head = at.head;
    }
    Ok((distinct, ranks))
}

/// Copies of terms.
fn copies(alloc: Global, terms: &[&Term]) -> Result<Terms, OutOfMemory>
    ensures { IfOk result (λ ts. ts ≡ terms_in terms.now) }
{
    let mut copies = Vec::with_capacity(alloc, terms.len())?;
    'copying: for term in terms {
        copies.push(term.copy(alloc)?)?;
    }
    Ok(Terms::from_vec(copies))
}

/// The numbers of terms of the set. Each is looked for at the place that the term has in the list.
fn numbers_of(alloc: Global, nodes: &Nodes, list: &[&Term]) -> Result<Vec<usize>, OutOfMemory>
    requires { All (λ t. IsTrue (has_term nodes.now t)) (terms_in list.now) }
    ensures numbers { IfOk result (λ ns. terms_at nodes.now ns.items ≡ terms_in list.now) }
    ensures within { IfOk result (λ ns. AreNumbers nodes.now ns.items) }
{
    let mut numbers = Vec::with_capacity(alloc, list.len())?;
    'terms: for place in 0..list.len() {
        numbers.push(number_near(nodes, place, list[place]))?;
    }
    Ok(numbers)
}

/// The number of a term of the set. It is looked for at one place, and then in the whole set.
fn number_near(nodes: &Nodes, place: usize, term: &Term) -> usize
    requires { IsTrue (has_term nodes.now term.now) }
    ensures { slice_get (terms nodes.now) result ≡ Some term.now }
{
    if is_at(nodes, place, term) {
        return place;
    }
    match nodes.index_of_term(term) {
        Some(number) => number,
        None => unreachable!(),
    }
}

/// Whether the term has this number in the set.
fn is_at(nodes: &Nodes, number: usize, term: &Term) -> bool
    ensures { IsTrue result → slice_get (terms nodes.now) number ≡ Some term.now }
{
    number < nodes.len() && *nodes.nth_term(number) == *term
}

/// The places of the terms of a list, in the order of the terms.
fn sorted_places(
    alloc: Global,
    list: &[&Term],
    start: &[u8],
) -> Result<Vec<HeadedPlace>, OutOfMemory>
    ensures { IfOk result (λ headed. ArePlaces (length list.now) (places_in headed.items)) }
{
    let mut headed = headed_places(alloc, list, start)?;
    headed.sort_unstable_by_key(|at| at.head);
    sort_shared_heads(list, headed.as_mut_slice());
    Ok(headed)
}

/// The places of the terms of a list, with the heads of the terms.
fn headed_places(
    alloc: Global,
    list: &[&Term],
    start: &[u8],
) -> Result<Vec<HeadedPlace>, OutOfMemory>
    ensures { IfOk result (λ headed. AreAllPlaces (length list.now) (places_in headed.items)) }
{
    let mut headed = Vec::with_capacity(alloc, list.len())?;
    'listing: for place in 0..list.len() {
        let head = head_of(list[place], start);
        headed.push(HeadedPlace { head, place })?;
    }
    Ok(headed)
}

/// Sorts each stretch of places whose terms share a head.
fn sort_shared_heads(list: &[&Term], headed: &mut [HeadedPlace])
    ensures { IsPermutation headed.old headed.new }
{
    let mut start = 0;
    'stretches: while start < headed.len() {
        let end = end_of_head(headed, start);
        sort_stretch(list, &mut headed[start..end]);
        start = end;
    }
}

/// Sorts places whose terms share a head. Where the head has all of an IRI, the terms are equal.
fn sort_stretch(list: &[&Term], stretch: &mut [HeadedPlace])
    ensures { IsPermutation stretch.old stretch.new }
{
    if !stretch.first().is_some_and(|at| is_whole(at.head)) {
        stretch.sort_unstable_by(|a, b| list.get(a.place).cmp(&list.get(b.place)));
    }
}

/// Whether a head has all of the text of an IRI behind the start: it is filled up then.
fn is_whole(head: u128) -> bool {
    head >> 120 == 1 && head % 256 == 0
}

/// The place behind the stretch that shares a head, from its first place on.
fn end_of_head(headed: &[HeadedPlace], start: usize) -> usize
    requires { start < length headed.now }
    ensures { (start < result) × (result ≤ length headed.now) }
{
    let head = headed[start].head;
    let mut end = start + 1;
    'sharing: while end < headed.len() && headed[end].head == head {
        end += 1;
    }
    end
}

/// What all terms that are IRIs begin with in common.
pub(crate) fn common_start<'a>(list: &[&'a Term]) -> &'a [u8] {
    let mut common: Option<&'a [u8]> = None;
    'terms: for term in list {
        if let Term::Iri(iri) = *term {
            let bytes = iri.as_str().as_bytes();
            common = Some(match common {
                None => bytes,
                Some(common) => shared_start(common, bytes),
            });
        }
    }
    common.unwrap_or(&[])
}

/// What two texts begin with in common, which mostly is all of the first.
fn shared_start<'a>(a: &'a [u8], b: &[u8]) -> &'a [u8] {
    if b.starts_with(a) {
        return a;
    }
    let len = a.iter().zip(b).take_while(|(x, y)| x == y).count();
    &a[..len.min(a.len())]
}

/// The kind of a term, and the first bytes of its text. In the order of these numbers, IRIs come before
/// blank nodes and these before literals, and each go by their bytes.
fn head_of(term: &Term, start: &[u8]) -> u128 {
    match term {
        Term::Iri(iri) => head_of_iri(iri.as_str().as_bytes(), start),
        Term::Blank { label, .. } => pack(3, label.as_str().as_bytes()),
        Term::Literal { lexical, .. } => pack(4, lexical.as_str().as_bytes()),
    }
}

/// The head of an IRI: whether it is before those with this start, among them or behind them, and its
/// first bytes, in those with the start the first bytes behind it.
fn head_of_iri(bytes: &[u8], start: &[u8]) -> u128 {
    match bytes.strip_prefix(start) {
        Some(rest) => pack(1, rest),
        None if bytes < start => pack(0, bytes),
        None => pack(2, bytes),
    }
}

/// A kind, and behind it 15 bytes of a text, filled up with zeros.
fn pack(kind: u8, bytes: &[u8]) -> u128 {
    let mut head = [0u8; 16];
    head[0] = kind;
    for (to, byte) in head[1..].iter_mut().zip(bytes) {
        *to = *byte;
    }
    u128::from_be_bytes(head)
}
