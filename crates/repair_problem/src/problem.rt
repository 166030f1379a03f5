ghost use Rattle.std.specs.Prelude.{◌≡◌, ◌<◌, ◌+◌, [], ◌++◌, ◌↔◌, ℕ, OnOk, IfOk, IfSome, length, slice_get, Some};
ghost use Rattle.std.specs.Prelude.{option_map};
ghost use Rattle.std.specs.List.{cons_option};
ghost use Rattle.rdf_terms.specs.Graph.{triples, without};
ghost use Rattle.shapes_graph.specs.Conformance.{Conforms};
ghost use Rattle.repair_problem.specs.Repair.{Apart};
ghost use Rattle.repair_problem.specs.Setting.{setting, full, nodes, IsEdit};
ghost use Rattle.repair_problem.specs.Candidates.{candidates, in_data, candidate_number, deletion_at, addition_at};
ghost use Rattle.repair_problem.specs.Candidates.{additions, deletions, edited_by};
ghost use Rattle.repair_problem.specs.Changes.{AreCandidates, ChangesArePairs};

use crate::places::{place_of_terms, place_of_triple};
use crate::targets::target_nodes;
use rdf_terms::{Graph, Nodes, OutOfMemory, Places, Term, Triple, Triples, nodes_of};
use shapes_graph::Shapes;
use std::alloc::Global;
use std::marker::Model;

/// A shapes graph, a data graph, and offers: triples that may be added and that the data hasn't got. Contracts see
/// these three graphs.
///
/// A candidate is a triple of the data, which may be deleted, or an offer. Candidates are numbered from 0, the data in
/// order and then the offers in order, and nodes in the order of terms. Only making a problem or a graph takes memory.
#[derive(Drop)]
pub struct Problem {
    shapes: Shapes,
    present: Graph,
    offers: Graph,
    full: Graph,
    nodes: Nodes,
}

impl Model for Problem {
    ghost use Rattle.repair_problem.specs.Setting.{Setting, code, setting};
    ghost use Rattle.repair_problem.specs.Kept.{AreKept};

    ghost Value = { Setting };

    ghost coded = { code };

    ghost view = { λ p. setting p.shapes p.present p.offers };

    ghost invariant = { λ p. AreKept (setting p.shapes p.present p.offers) p.full p.nodes };
}

/// The data with all offers, and the nodes.
fn full_and_nodes(
    alloc: Global,
    shapes: &Graph,
    present: &Graph,
    offers: &Graph,
) -> Result<(Graph, Nodes), OutOfMemory>
    ensures full { IfOk result (λ r. r.0 ≡ full (setting shapes.now present.now offers.now)) }
    ensures nodes { IfOk result (λ r. r.1 ≡ nodes (setting shapes.now present.now offers.now)) }
{
    let full = present.edited(alloc, offers, &Graph::new(alloc))?;
    let named = target_nodes(alloc, shapes)?;
    let nodes = nodes_of(alloc, present, offers, named.as_slice())?;
    Ok((full, nodes))
}

impl Problem {
    /// The problem of a shapes graph, a data graph and offered triples. Of the offered ones, those that the data has
    /// are no offers. The nodes are the subjects and objects of all triples but those of the shapes graph, and the
    /// nodes that targets name.
    pub fn new(
        alloc: Global,
        shapes: Shapes,
        present: Graph,
        offered: Graph,
    ) -> Result<Problem, OutOfMemory>
        ensures shapes { IfOk result (λ p. p.shapes ≡ shapes) }
        ensures present { IfOk result (λ p. p.present ≡ present) }
        ensures offers { IfOk result (λ p. p.offers ≡ without offered present) }
    {
        let offers = offered.without(alloc, &present)?;
        let (full, nodes) = full_and_nodes(alloc, shapes.triples(), &present, &offers)?;
        Ok(Problem {
            shapes,
            present,
            offers,
            full,
            nodes,
        })
    }

    /// The shapes graph.
    pub fn shapes(&self) -> &Shapes
        ensures { result.now ≡ self.now.shapes }
    {
        &self.shapes
    }

    /// The data.
    pub fn present(&self) -> &Graph
        ensures { result.now ≡ self.now.present }
    {
        &self.present
    }

    /// The offers, none of which is in the data.
    pub fn offers(&self) -> &Graph
        ensures value { result.now ≡ self.now.offers }
        ensures apart { Apart self.now.present self.now.offers }
    {
        &self.offers
    }

    /// The data with all offers.
    pub fn full(&self) -> &Graph
        ensures { result.now ≡ full self.now }
    {
        &self.full
    }

    /// The nodes, by their numbers.
    pub fn nodes(&self) -> &Nodes
        ensures { result.now ≡ nodes self.now }
    {
        &self.nodes
    }

    /// The number of candidates.
    pub fn candidate_count(&self) -> usize
        ensures { result ≡ length (candidates self.now) }
    {
        self.present.as_slice().len() + self.offers.as_slice().len()
    }

    /// The candidate of this number.
    pub fn candidate(&self, t: usize) -> &Triple
        requires { t < length (candidates self.now) }
        ensures { slice_get (candidates self.now) t ≡ Some result.now }
    {
        let count = self.present.len();
        if t < count {
            self.present.nth(t)
        } else {
            self.offers.nth(t - count)
        }
    }

    /// Whether the candidate is a triple of the data. Any other is an offer.
    pub fn in_data(&self, t: usize) -> bool
        requires { t < length (candidates self.now) }
        ensures { result ≡ in_data self.now t }
    {
        t < self.present.len()
    }

    /// The number of the triple as a candidate, and `None` exactly where it is none.
    pub fn candidate_of(&self, triple: &Triple) -> Option<usize>
        ensures value { result ≡ candidate_number self.now triple.now }
        ensures exact { (t : ℕ) → (result ≡ Some t) ↔ (slice_get (candidates self.now) t ≡ Some triple.now) }
    {
        match place_of_triple(&self.present, triple) {
            Some(place) => Some(place),
            None => self.offer_number(place_of_triple(&self.offers, triple)),
        }
    }

    /// The number of the triple of these terms as a candidate, and `None` exactly where it is none. Any three terms may
    /// be asked for, also those of no triple.
    pub fn candidate_of_terms(
        &self,
        subject: &Term,
        predicate: &str,
        object: &Term,
    ) -> Option<usize>
        ensures { result ≡ candidate_number self.now
            (record { subject = subject.now; predicate = Term.Iri predicate.now; object = object.now }) }
    {
        match place_of_terms(&self.present, subject, predicate, object) {
            Some(place) => Some(place),
            None => self.offer_number(place_of_terms(&self.offers, subject, predicate, object)),
        }
    }

    /// The number of the offer at a place among the offers.
    fn offer_number(&self, place: Option<usize>) -> Option<usize>
        requires { IfSome place (λ i. i < length (triples self.now.offers)) }
        ensures { result ≡ option_map (λ i. length (triples self.now.present) + i) place }
    {
        // Both slices are in memory, so the sum of their lengths fits.
        let _offers = self.offers.as_slice();
        Some(self.present.as_slice().len() + place?)
    }

    /// The offers among these candidates.
    pub fn additions(&self, alloc: Global, change: &Places) -> Result<Graph, OutOfMemory>
        requires { AreCandidates self.now change.now }
        ensures { IfOk result (λ g. g ≡ additions self.now change.now) }
    {
        let mut added = Triples::new(alloc);
        'candidates: for t in change.as_slice() {
            self.push_addition(alloc, &mut added, *t as usize)?;
        }
        Graph::from_triples(alloc, added)
    }

    /// The triples of the data among these candidates.
    pub fn deletions(&self, alloc: Global, change: &Places) -> Result<Graph, OutOfMemory>
        requires { AreCandidates self.now change.now }
        ensures { IfOk result (λ g. g ≡ deletions self.now change.now) }
    {
        let mut deleted = Triples::new(alloc);
        'candidates: for t in change.as_slice() {
            self.push_deletion(alloc, &mut deleted, *t as usize)?;
        }
        Graph::from_triples(alloc, deleted)
    }

    /// Appends a copy of the candidate, if it is an offer.
    fn push_addition(&self, alloc: Global, added: &mut Triples, t: usize) -> Result<(), OutOfMemory>
        requires { t < length (candidates self.now) }
        ensures { OnOk result (added.new ≡ added.old ++ cons_option (addition_at self.now t) []) }
    {
        let count = self.present.len();
        if t >= count {
            added.push(self.offers.nth(t - count).copy(alloc)?)?;
        }
        Ok(())
    }

    /// Appends a copy of the candidate, if it is a triple of the data.
    fn push_deletion(
        &self,
        alloc: Global,
        deleted: &mut Triples,
        t: usize,
    ) -> Result<(), OutOfMemory>
        ensures { OnOk result (deleted.new ≡ deleted.old ++ cons_option (deletion_at self.now t) []) }
    {
        if t < self.present.len() {
            deleted.push(self.present.nth(t).copy(alloc)?)?;
        }
        Ok(())
    }

    /// The data without the triples of the data among these candidates, and with the offers among them.
    pub fn edited_by(&self, alloc: Global, changed: &Places) -> Result<Graph, OutOfMemory>
        requires { AreCandidates self.now changed.now }
        ensures value { IfOk result (λ g. g ≡ edited_by self.now changed.now) }
        ensures edit { IfOk result (λ g. IsEdit self.now g) }
    {
        let added = self.additions(alloc, changed)?;
        let deleted = self.deletions(alloc, changed)?;
        self.present.edited(alloc, &added, &deleted)
    }

    /// Of a change by its candidates and of the pair of graphs that it stands for the same is true: whether it
    /// explains, and whether it is minimal. Each pair and each edited graph is that of a change.
    pub fn changes_are_pairs(&self)
        ensures { ChangesArePairs (Conforms self.now.shapes) self.now }
    {}
}
