ghost use Rattle.std.specs.Prelude.{◌≡◌, ◌<◌, IsTrue, IfOk, OnOk, IfSome, IfNone, length, slice_get, Some};
ghost use Rattle.std.specs.Prelude.{All, Contains, ◌++◌};
ghost use Rattle.rdf_terms.specs.declared.term.Term.{Term as T};
ghost use Rattle.rdf_terms.specs.Statement.{Statement};
ghost use Rattle.rdf_terms.specs.Graph.{triples, empty, ArePlacesOf};
ghost use Rattle.rdf_terms.specs.Members.{InGraph, IsListOf};
ghost use Rattle.rdf_terms.specs.Nodes.{terms, has_term, nodes_of as nodes_of_graphs, IsNodeOf};
ghost use Rattle.rdf_navigation.specs.Numbers.{term_at};
ghost use Rattle.path_eval.specs.Directions.{Towards};
ghost use Rattle.path_eval.specs.Numbered.{terms_at, AreNumbers, AreNumbered};
ghost use Rattle.path_eval.specs.Links.{far_end, IsLinked};
ghost use Rattle.path_eval.specs.TermNumbers.{terms_in, AreRanked, subjects_of, objects_of};

use crate::Direction;
use crate::term_numbers::{common_start, look_up, number_terms, put_last};
use rdf_terms::{Graph, Nodes, OutOfMemory, Term, Terms};
use std::alloc::Global;
use std::marker::Model;

/// A graph and numbers for its nodes and for further terms, counted from 0 in the order of terms.
/// Contracts see the graph and the set of these terms.
///
/// It is made once, and then each step along a triple is one from number to number.
#[derive(Drop)]
pub struct NumberedGraph<'g> {
    graph: &'g Graph,
    nodes: Nodes,
    subjects: Vec<usize>,
    objects: Vec<usize>,
}

impl<'g> Model for NumberedGraph<'g> {
    ghost use Rattle.path_eval.specs.Numbered.{Numbered, code, AreNumbered};

    ghost Value = { Numbered };

    ghost coded = { code };

    ghost view = { λ n. record { graph = n.graph.now; nodes = n.nodes } };

    ghost invariant = { λ n. AreNumbered n.graph.now n.nodes n.subjects.items n.objects.items };
}

/// The subjects of the triples, those of neighbours once, and for each triple the place of its subject
/// among them.
fn lead_subjects<'g>(
    alloc: Global,
    graph: &'g Graph,
) -> Result<(Vec<&'g Term>, Vec<usize>), OutOfMemory>
    ensures ranked { IfOk result (λ r. AreRanked (subjects_of (triples graph.now)) (terms_in r.0.items) r.1.items) }
    ensures listed { IfOk result (λ r. All (Contains (subjects_of (triples graph.now))) (terms_in r.0.items)) }
{
    let mut leads = Vec::new(alloc);
    let mut places = Vec::with_capacity(alloc, graph.len())?;
    'triples: for triple in graph.as_slice() {
        let place = put_last(&mut leads, &triple.subject, true)?;
        places.push(place)?;
    }
    Ok((leads, places))
}

/// Appends the object of each triple.
fn push_objects<'g>(terms: &mut Vec<&'g Term>, graph: &'g Graph) -> Result<(), OutOfMemory>
    ensures { OnOk result (terms_in terms.new.items
        ≡ terms_in terms.old.items ++ objects_of (triples graph.now)) }
{
    'triples: for triple in graph.as_slice() {
        terms.push(&triple.object)?;
    }
    Ok(())
}

/// Appends further terms.
fn push_more<'g>(terms: &mut Vec<&'g Term>, more: &'g [Term]) -> Result<(), OutOfMemory>
    ensures { OnOk result (terms_in terms.new.items ≡ terms_in terms.old.items ++ more.now) }
{
    'terms: for term in more {
        terms.push(term)?;
    }
    Ok(())
}

/// The set of the nodes of the graph and of further terms, and the numbers of the subjects and of the
/// objects of the triples, in their order.
fn number_ends(
    alloc: Global,
    graph: &Graph,
    more: &[Term],
) -> Result<(Nodes, Vec<usize>, Vec<usize>), OutOfMemory>
    ensures nodes { IfOk result (λ r. r.0 ≡ nodes_of_graphs graph.now empty more.now) }
    ensures numbers { IfOk result (λ r. AreNumbered graph.now r.0 r.1.items r.2.items) }
{
    let (mut ends, mut subjects) = lead_subjects(alloc, graph)?;
    let leads = ends.len();
    let start = common_start(ends.as_slice());
    push_objects(&mut ends, graph)?;
    push_more(&mut ends, more)?;
    let (nodes, mut numbers) = number_terms(alloc, ends.as_slice(), start)?;
    look_up(subjects.as_mut_slice(), numbers.as_slice());
    let mut objects = numbers.split_off(leads)?;
    objects.truncate(graph.len());
    Ok((nodes, subjects, objects))
}

impl<'g> NumberedGraph<'g> {
    /// The graph with numbers for its nodes and for these terms.
    pub fn new(
        alloc: Global,
        graph: &'g Graph,
        more: &[Term],
    ) -> Result<NumberedGraph<'g>, OutOfMemory>
        ensures graph { IfOk result (λ n. n.graph ≡ graph.now) }
        ensures nodes { IfOk result (λ n. n.nodes ≡ nodes_of_graphs graph.now empty more.now) }
    {
        let (nodes, subjects, objects) = number_ends(alloc, graph, more)?;
        Ok(NumberedGraph {
            graph,
            nodes,
            subjects,
            objects,
        })
    }

    /// The graph.
    pub fn graph(&self) -> &Graph
        ensures { result.now ≡ self.now.graph }
    {
        self.graph
    }

    /// The terms, by their numbers. All nodes of the graph are among them.
    pub fn nodes(&self) -> &Nodes
        ensures nodes { result.now ≡ self.now.nodes }
        ensures whole { (x : T) → IsNodeOf self.now.graph x → IsTrue (has_term self.now.nodes x) }
    {
        &self.nodes
    }

    /// The number of the other end of the triple at a place, where it has the predicate.
    fn link(&self, predicate: &str, direction: Direction, place: usize) -> Option<usize>
        requires { place < length (triples self.now.graph) }
        ensures within { IfSome result (λ i. i < length (terms self.now.nodes)) }
        ensures some { IfSome result (λ i. (t : Statement) × (slice_get (triples self.now.graph) place ≡ Some t)
            × (t.predicate ≡ Term.Iri predicate.now) × (far_end direction t ≡ term_at self.now.nodes i)) }
        ensures none { IfNone result ((t : Statement) → slice_get (triples self.now.graph) place ≡ Some t
            → ¬ (t.predicate ≡ Term.Iri predicate.now)) }
    {
        let triple = self.graph.nth(place);
        if triple.predicate.compare_to_iri(predicate).is_ne() {
            return None;
        }
        match direction {
            Direction::Forward => Some(self.objects[place]),
            Direction::Backward => Some(self.subjects[place]),
        }
    }

    /// The places of the triples with this subject: the first, and the one after the last. Numbers are
    /// compared and no terms.
    fn places_of(&self, subject: usize) -> (usize, usize)
        requires { subject < length (terms self.now.nodes) }
        ensures { ArePlacesOf (triples self.now.graph) (term_at self.now.nodes subject) result.0 result.1 }
    {
        let subjects = self.subjects.as_slice();
        let first = subjects.partition_point(|number| *number < subject);
        let after = subjects.partition_point(|number| *number <= subject);
        (first, after)
    }

    /// The objects of triples with this subject and this predicate.
    fn objects_of(
        &self,
        alloc: Global,
        subject: usize,
        predicate: &str,
    ) -> Result<Vec<usize>, OutOfMemory>
        requires { subject < length (terms self.now.nodes) }
        ensures within { IfOk result (λ v. AreNumbers self.now.nodes v.items) }
        ensures exact { IfOk result (λ v. IsListOf
            (λ y. InGraph self.now.graph (term_at self.now.nodes subject) (Term.Iri predicate.now) y)
            (terms_at self.now.nodes v.items)) }
    {
        let (first, after) = self.places_of(subject);
        let mut found = Vec::new(alloc);
        'places: for place in first..after {
            if let Some(object) = self.link(predicate, Direction::Forward, place) {
                found.push(object)?;
            }
        }
        Ok(found)
    }

    /// The subjects of triples with this object and this predicate.
    fn subjects_of(
        &self,
        alloc: Global,
        object: usize,
        predicate: &str,
    ) -> Result<Vec<usize>, OutOfMemory>
        requires { object < length (terms self.now.nodes) }
        ensures within { IfOk result (λ v. AreNumbers self.now.nodes v.items) }
        ensures exact { IfOk result (λ v. IsListOf
            (λ x. InGraph self.now.graph x (Term.Iri predicate.now) (term_at self.now.nodes object))
            (terms_at self.now.nodes v.items)) }
    {
        let mut found = Vec::new(alloc);
        'places: for place in self.graph.places_of_object(self.nodes.nth_term(object)) {
            if let Some(subject) = self.link(predicate, Direction::Backward, *place) {
                found.push(subject)?;
            }
        }
        Ok(found)
    }

    /// The nodes to which triples with this predicate lead from a node, or backwards from which they
    /// lead there.
    pub fn neighbours(
        &self,
        alloc: Global,
        predicate: &str,
        direction: Direction,
        node: usize,
    ) -> Result<Vec<usize>, OutOfMemory>
        requires { node < length (terms self.now.nodes) }
        ensures within { IfOk result (λ v. AreNumbers self.now.nodes v.items) }
        ensures exact { IfOk result (λ v. IsListOf
            (Towards direction (λ x y. InGraph self.now.graph x (Term.Iri predicate.now) y)
            (term_at self.now.nodes node))
            (terms_at self.now.nodes v.items)) }
    {
        match direction {
            Direction::Forward => self.objects_of(alloc, node, predicate),
            Direction::Backward => self.subjects_of(alloc, node, predicate),
        }
    }

    /// The nodes to which triples with this predicate lead, or backwards from which they lead, by one
    /// pass over the graph.
    pub fn ends_along(
        &self,
        alloc: Global,
        predicate: &str,
        direction: Direction,
    ) -> Result<Vec<usize>, OutOfMemory>
        ensures within { IfOk result (λ v. AreNumbers self.now.nodes v.items) }
        ensures exact { IfOk result (λ v. IsListOf
            (λ y. (x : T) × Towards direction (λ a b. InGraph self.now.graph a (Term.Iri predicate.now) b) x y)
            (terms_at self.now.nodes v.items)) }
    {
        let mut found = Vec::new(alloc);
        'places: for place in 0..self.graph.len() {
            if let Some(node) = self.link(predicate, direction, place) {
                found.push(node)?;
            }
        }
        Ok(found)
    }

    /// Copies of the terms of these numbers.
    pub fn terms_at(&self, alloc: Global, numbers: &[usize]) -> Result<Terms, OutOfMemory>
        requires { AreNumbers self.now.nodes numbers.now }
        ensures { IfOk result (λ ts. ts ≡ terms_at self.now.nodes numbers.now) }
    {
        let mut terms = Terms::new(alloc);
        'numbers: for number in numbers {
            terms.push(self.nodes.nth_term(*number).copy(alloc)?)?;
        }
        Ok(terms)
    }
}
