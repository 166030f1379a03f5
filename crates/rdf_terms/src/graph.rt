ghost use Rattle.std.specs.Prelude.{◌≡◌, ◌-◌, ◌^◌, ◌<◌, ◌≤◌, ◌↔◌, ◌&&◌, ◌||◌, ◌==◌, List, length, map, insert, vec_len};
ghost use Rattle.std.specs.Prelude.{IsTrue, OnOk, OnErr, IfOk, IfErr, IfSome, IfNone, All, Contains, slice_get, not};
ghost use Rattle.std.specs.Prelude.{true, false};
ghost use Rattle.std.specs.Ordering.{ordering_then};
ghost use Rattle.std.specs.Option.{option_copied};
ghost use Rattle.rdf_terms.specs.Term.{term_cmp};
ghost use Rattle.rdf_terms.specs.Statement.{Statement};
ghost use Rattle.rdf_terms.specs.Graph.{Graph as Triples, triples, has, with, empty, of_list, graph_of, is_rising};
ghost use Rattle.rdf_terms.specs.Graph.{without as difference, edited as edited_graph, IsPlace, ArePlacesOf};
ghost use Rattle.rdf_terms.specs.Graph.{triples_of as triples_of_graph};
ghost use Rattle.rdf_terms.specs.Graph.{object_at as object_at_place, ArePlacesOfObject};
ghost use Rattle.rdf_terms.specs.ObjectOrder.{place_cmp, sought_cmp, IsObjectOrder, moved_place};
ghost use Rattle.rdf_terms.specs.ObjectOrder.{AreAllPlaces, HasHash, object_hash, places_in};
ghost use Rattle.rdf_terms.specs.Set.{is_rising as is_set_rising};
ghost use Rattle.std.specs.declared.cmp.Ordering.TheVariants.{Less};

use crate::presort::presort;
use crate::term_hash::{compare_hashed, hash_term};
use crate::{OutOfMemory, Term, Triple, Triples};
use std::alloc::Global;
use std::cmp::Ordering;
use std::marker::Model;

/// A finite set of triples (RDF 1.1 Concepts 3), walked in the order of [`Triple::compare`]. This
/// order is the project's own, and RDF gives none. Contracts see the set, so two graphs are equal
/// exactly where they have the same triples.
///
/// Beside the triples it keeps their places, ordered by their objects, a hash of these first, so that
/// triples are found by their object as fast as by their subject.
#[derive(Drop)]
pub struct Graph {
    items: Vec<Triple>,
    by_object: Vec<usize>,
}

impl Model for Graph {
    ghost use Rattle.std.specs.Prelude.{IsTrue};
    ghost use Rattle.rdf_terms.specs.Graph.{Graph as Triples, code, graph_of, is_rising};
    ghost use Rattle.rdf_terms.specs.ObjectOrder.{IsObjectOrder};

    ghost Value = { Triples };

    ghost coded = { code };

    ghost view = { λ g. graph_of g.items.items };

    ghost invariant = { λ g. IsTrue (is_rising g.items.items) × IsObjectOrder g.items.items g.by_object.items };
}

impl Graph {
    /// The empty graph. It takes no memory.
    pub fn new(alloc: Global) -> Graph
        ensures { result ≡ empty }
    {
        Graph {
            items: Vec::new(alloc),
            by_object: Vec::new(alloc),
        }
    }

    /// The graph of triples that rise.
    fn from_rising(alloc: Global, items: Vec<Triple>) -> Result<Graph, OutOfMemory>
        requires { IsTrue (is_rising items.items) }
        ensures { IfOk result (λ g. g ≡ graph_of items.items) }
    {
        let by_object = object_order(alloc, items.as_slice())?;
        Ok(Graph { items, by_object })
    }

    /// The graph of the triples of a list, which may stand there in any order and repeatedly. The
    /// triples are moved and not copied.
    pub fn from_triples(alloc: Global, triples: Triples) -> Result<Graph, OutOfMemory>
        ensures value { IfOk result (λ g. g ≡ of_list triples) }
        ensures exact { IfOk result (λ g. (t : Statement) → IsTrue (has g t) ↔ Contains triples t) }
    {
        let items = put_in_order(alloc, triples.into_vec())?;
        Graph::from_rising(alloc, items)
    }

    /// The triples, in order. It takes no memory.
    pub fn as_slice(&self) -> &[Triple]
        ensures { result.now ≡ triples self.now }
    {
        self.items.as_slice()
    }

    /// The number of triples.
    pub fn len(&self) -> usize
        ensures { result ≡ length (triples self.now) }
    {
        self.as_slice().len()
    }

    /// Whether there is no triple.
    pub fn is_empty(&self) -> bool
        ensures { result ≡ (length (triples self.now) == 0) }
    {
        self.as_slice().is_empty()
    }

    /// The triple at a place, counted from 0 in the order of triples.
    pub fn nth(&self, i: usize) -> &Triple
        requires { i < length (triples self.now) }
        ensures { slice_get (triples self.now) i ≡ Some result.now }
    {
        &self.as_slice()[i]
    }

    /// The place of the triple, or the place where it would stand.
    fn place(&self, triple: &Triple) -> Result<usize, usize>
        ensures found { IfOk result (λ i. slice_get (triples self.now) i ≡ Some triple.now) }
        ensures absent { IfErr result (λ i. IsPlace (triples self.now) triple.now i) }
        ensures within { IfErr result (λ i. i ≤ length (triples self.now)) }
    {
        self.as_slice().binary_search(triple)
    }

    /// The place of the triple, and `None` exactly where the graph has it not.
    pub fn index_of(&self, triple: &Triple) -> Option<usize>
        ensures some { IfSome result (λ i. slice_get (triples self.now) i ≡ Some triple.now) }
        ensures none { IfNone result (has self.now triple.now ≡ false) }
    {
        match self.place(triple) {
            Ok(i) => Some(i),
            Err(_) => None,
        }
    }

    /// Whether the graph has the triple. What it has is exactly what it lists.
    pub fn contains(&self, triple: &Triple) -> bool
        ensures value { result ≡ has self.now triple.now }
        ensures listed { (t : Statement) → IsTrue (has self.now t) ↔ Contains (triples self.now) t }
    {
        match self.place(triple) {
            Ok(_) => true,
            Err(_) => false,
        }
    }

    /// The first place of the triples with this subject, and the place after their last. The two
    /// are equal where there is none.
    pub fn places_of(&self, subject: &Term) -> (usize, usize)
        ensures { ArePlacesOf (triples self.now) subject.now result.0 result.1 }
    {
        let triples = self.as_slice();
        let first = triples.partition_point(|triple| triple.subject.compare(subject).is_lt());
        let after = triples.partition_point(|triple| triple.subject.compare(subject).is_le());
        (first, after)
    }

    /// The triples with this subject and this predicate, in order. They stand side by side, so two
    /// binary searches find them. It takes no memory.
    pub fn triples_of(&self, subject: &Term, predicate: &str) -> &[Triple]
        ensures value { result.now ≡ triples_of_graph self.now subject.now (Term.Iri predicate.now) }
        ensures exact { (t : Statement) → Contains result.now t
            ↔ (IsTrue (has self.now t) × (t.subject ≡ subject.now) × (t.predicate ≡ Term.Iri predicate.now)) }
    {
        let triples = self.as_slice();
        let first = triples.partition_point(|t| compare_key(t, subject, predicate).is_lt());
        let after = triples.partition_point(|t| compare_key(t, subject, predicate).is_le());
        &triples[first..after]
    }

    /// The places of the triples with this object, in order, by two binary searches. It takes no
    /// memory.
    pub fn places_of_object(&self, object: &Term) -> &[usize]
        ensures { ArePlacesOfObject (triples self.now) object.now result.now }
    {
        let triples = self.items.as_slice();
        let places = self.by_object.as_slice();
        let hash = hash_term(object);
        let first = places.partition_point(|place| compare_object(
            triples, *place, hash, object,
        ).is_lt());
        let after = places.partition_point(|place| compare_object(
            triples, *place, hash, object,
        ).is_le());
        &places[first..after]
    }

    /// Inserts the triple, and answers whether it was new. After `OutOfMemory` the graph is as
    /// before, and the triple is dropped.
    pub fn insert(&mut self, triple: Triple) -> Result<bool, OutOfMemory>
        ensures ok { OnOk result (self.new ≡ with self.old triple) }
        ensures new { IfOk result (λ fresh. fresh ≡ not (has self.old triple)) }
        ensures err { OnErr result (self.new ≡ self.old) }
    {
        match self.place(&triple) {
            Ok(_) => Ok(false),
            Err(place) => {
                insert_at(&mut self.items, &mut self.by_object, place, triple)?;
                Ok(true)
            }
        }
    }

    /// The triples of this graph that the other has not. The graph is new, and both stay.
    pub fn without(&self, alloc: Global, other: &Graph) -> Result<Graph, OutOfMemory>
        ensures value { IfOk result (λ g. g ≡ difference self.now other.now) }
        ensures exact { IfOk result (λ g. (t : Statement) → has g t ≡ (has self.now t && not (has other.now t))) }
    {
        let items = self.triples_without(alloc, other)?;
        Graph::from_rising(alloc, items)
    }

    /// Copies of the triples that the other graph has not, in order.
    fn triples_without(&self, alloc: Global, other: &Graph) -> Result<Vec<Triple>, OutOfMemory>
        ensures { IfOk result (λ ts. ts.items ≡ triples (difference self.now other.now)) }
    {
        let mut kept = Vec::new(alloc);
        'keeping: for triple in self.as_slice() {
            if !other.contains(triple) {
                kept.push(triple.copy(alloc)?)?;
            }
        }
        Ok(kept)
    }

    /// This graph without the triples of `delete`, and then with those of `add`: a triple of both
    /// is there. The graph is new, and all three stay.
    pub fn edited(&self, alloc: Global, add: &Graph, delete: &Graph) -> Result<Graph, OutOfMemory>
        ensures value { IfOk result (λ g. g ≡ edited_graph self.now add.now delete.now) }
        ensures exact { IfOk result (λ g. (t : Statement)
            → has g t ≡ ((has self.now t && not (has delete.now t)) || has add.now t)) }
    {
        let mut items = self.triples_without(alloc, delete)?;
        'adding: for triple in add.as_slice() {
            items.push(triple.copy(alloc)?)?;
        }
        // Two parts that rise, which a stable sort merges in one pass.
        items.sort()?;
        items.dedup();
        Graph::from_rising(alloc, items)
    }
}

impl PartialEq for Graph {
    ghost use Rattle.std.specs.Prelude.{◌≡◌, ◌↔◌, IsTrue};
    ghost use Rattle.std.specs.Cmp.{partial_equiv_from_equiv};
    ghost use Rattle.std.proofs.lemmas.Cmp.{eq_by_cmp_equiv, lists_equiv, on_equiv};
    ghost use Rattle.rdf_terms.specs.Statement.{Statement};
    ghost use Rattle.rdf_terms.specs.Graph.{triples, has, same_triples};
    ghost use Rattle.rdf_terms.specs.TermOrder.{statement_cmp_total};

    ghost eq = { same_triples };

    ghost laws = { partial_equiv_from_equiv (on_equiv triples (lists_equiv (eq_by_cmp_equiv statement_cmp_total))) };

    /// Whether two graphs are equal, as they are where they have the same triples.
    fn eq(&self, other: &Graph) -> bool
        ensures value { result ≡ same_triples self.now other.now }
        ensures equal { IsTrue result ↔ (self.now ≡ other.now) }
        ensures exact { IsTrue result ↔ ((t : Statement) → has self.now t ≡ has other.now t) }
    {
        self.as_slice() == other.as_slice()
    }
}

impl Eq for Graph {
    ghost use Rattle.std.proofs.lemmas.Cmp.{eq_by_cmp_equiv, lists_equiv, on_equiv};
    ghost use Rattle.rdf_terms.specs.Graph.{triples};
    ghost use Rattle.rdf_terms.specs.TermOrder.{statement_cmp_total};

    ghost laws = { on_equiv triples (lists_equiv (eq_by_cmp_equiv statement_cmp_total)) };
}

/// The triples of a list in order, each once.
fn put_in_order(alloc: Global, triples: Vec<Triple>) -> Result<Vec<Triple>, OutOfMemory>
    ensures rises { IfOk result (λ ts. IsTrue (is_rising ts.items)) }
    ensures value { IfOk result (λ ts. graph_of ts.items ≡ of_list triples.items) }
{
    let mut items = triples;
    if do_rise(items.as_slice()) {
        return Ok(items);
    }
    presort(alloc, items.as_mut_slice())?;
    if do_rise(items.as_slice()) {
        return Ok(items);
    }
    items.sort_unstable();
    items.dedup();
    Ok(items)
}

/// Whether each triple is below the next.
fn do_rise(triples: &[Triple]) -> bool
    ensures { IsTrue result → IsTrue (is_rising triples.now) }
{
    'neighbours: for i in 1..triples.len() {
        if !triples[i - 1].compare(&triples[i]).is_lt() {
            return false;
        }
    }
    true
}

/// The order of a triple's subject and predicate against a subject and the IRI of a predicate.
fn compare_key(triple: &Triple, subject: &Term, predicate: &str) -> Ordering
    ensures { result ≡ ordering_then (term_cmp triple.now.subject subject.now)
        (term_cmp triple.now.predicate (Term.Iri predicate.now)) }
{
    triple
        .subject
        .compare(subject)
        .then_with(|| triple.predicate.compare_to_iri(predicate))
}

/// The object of the triple at a place, where there is one.
fn object_at(triples: &[Triple], place: usize) -> Option<&Term>
    ensures { option_copied result ≡ object_at_place triples.now place }
{
    triples.get(place).map(|triple| &triple.object)
}

/// The order of the object at a place against an object that has this hash.
fn compare_object(triples: &[Triple], place: usize, hash: u64, object: &Term) -> Ordering
    ensures { result ≡ sought_cmp hash object.now (object_at_place triples.now place) }
{
    match object_at(triples, place) {
        Some(own) => hash_term(own).cmp(&hash).then_with(|| own.compare(object)),
        None => Ordering::Less,
    }
}

/// The order of two places, by the objects there, and then by the places.
fn compare_places(triples: &[Triple], i: usize, j: usize) -> Ordering
    ensures { result ≡ place_cmp triples.now i j }
{
    match object_at(triples, i) {
        Some(own) => match object_at(triples, j) {
            Some(object) => compare_hashed(own, object).then_with(|| i.cmp(&j)),
            None => Ordering::Greater,
        },
        None => match object_at(triples, j) {
            Some(_) => Ordering::Less,
            None => i.cmp(&j),
        },
    }
}

/// The place of a triple, with the hash of its object.
#[derive(Clone, Copy, Debug)]
pub(crate) struct HashedPlace {
    hash: u64,
    place: usize,
}

/// The hash of the object at a place, where there is one.
fn hash_at(triples: &[Triple], place: usize) -> u64
    ensures { result ≡ object_hash (object_at_place triples.now place) }
{
    match object_at(triples, place) {
        Some(object) => hash_term(object),
        None => 0,
    }
}

/// The places of triples, with the hashes of their objects.
fn hashed_places(alloc: Global, triples: &[Triple]) -> Result<Vec<HashedPlace>, OutOfMemory>
    ensures places { IfOk result (λ hashed. AreAllPlaces triples.now (places_in hashed.items)) }
    ensures hashes { IfOk result (λ hashed. All (HasHash triples.now) hashed.items) }
{
    let mut hashed = Vec::with_capacity(alloc, triples.len())?;
    'listing: for place in 0..triples.len() {
        let hash = hash_at(triples, place);
        hashed.push(HashedPlace { hash, place })?;
    }
    Ok(hashed)
}

/// Whether one place stands before another by its object, as far as their hashes tell.
fn is_before(triples: &[Triple], a: HashedPlace, b: HashedPlace) -> bool
    requires first { HasHash triples.now a }
    requires second { HasHash triples.now b }
    ensures { IsTrue result → place_cmp triples.now a.place b.place ≡ Less }
{
    if a.hash != b.hash {
        return a.hash < b.hash;
    }
    a.place < b.place && object_at(triples, a.place) == object_at(triples, b.place)
}

/// Whether places stand in the order of their objects.
fn do_rise_by_object(triples: &[Triple], hashed: &[HashedPlace]) -> bool
    requires { All (HasHash triples.now) hashed.now }
    ensures { IsTrue result → IsTrue (is_set_rising (place_cmp triples.now) (places_in hashed.now)) }
{
    'neighbours: for i in 1..hashed.len() {
        if !is_before(triples, hashed[i - 1], hashed[i]) {
            return false;
        }
    }
    true
}

/// The places of triples in the order of their objects. Sorted by hash alone they are in this order
/// already, unless two objects share a hash.
fn object_order(alloc: Global, triples: &[Triple]) -> Result<Vec<usize>, OutOfMemory>
    ensures { IfOk result (λ places. IsObjectOrder triples.now places.items) }
{
    let mut hashed = hashed_places(alloc, triples)?;
    hashed.sort_by_key(|at| at.hash)?;
    let mut places = places_of(alloc, hashed.as_slice())?;
    if do_rise_by_object(triples, hashed.as_slice()) {
        return Ok(places);
    }
    places.sort_unstable_by(|i, j| compare_places(triples, *i, *j));
    Ok(places)
}

/// The places alone.
fn places_of(alloc: Global, hashed: &[HashedPlace]) -> Result<Vec<usize>, OutOfMemory>
    ensures { IfOk result (λ places. places.items ≡ places_in hashed.now) }
{
    Ok(hashed.iter().map(|at| at.place).collect(alloc)?)
}

/// Inserts a triple into a list at a place, and the place into the order of their objects. After
/// `OutOfMemory` both are as before, and the triple is dropped.
fn insert_at(
    items: &mut Vec<Triple>,
    by_object: &mut Vec<usize>,
    place: usize,
    triple: Triple,
) -> Result<(), OutOfMemory>
    requires within { place ≤ vec_len items.old }
    requires order { IsObjectOrder items.old.items by_object.old.items }
    ensures inserted { OnOk result (items.new.items ≡ insert items.old.items place triple) }
    ensures order { OnOk result (IsObjectOrder items.new.items by_object.new.items) }
    ensures err { OnErr result ((items.new.items ≡ items.old.items) × (by_object.new.items ≡ by_object.old.items)) }
{
    items.reserve(1)?;
    by_object.reserve(1)?;
    if items.insert(place, triple).is_err() {
        unreachable!();
    }
    move_places(by_object.as_mut_slice(), place);
    let triples = items.as_slice();
    let at = by_object.partition_point(|other| compare_places(triples, *other, place).is_lt());
    if by_object.insert(at, place).is_err() {
        unreachable!();
    }
    Ok(())
}

/// Moves each place from the given one on by one place.
fn move_places(places: &mut [usize], from: usize)
    requires { All (λ place. place < 2 ^ 64 - 1) places.old }
    ensures { places.new ≡ map (moved_place from) places.old }
{
    'moving: for place in places.iter_mut() {
        if *place >= from {
            *place += 1;
        }
    }
}
