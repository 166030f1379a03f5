ghost use Rattle.std.specs.Prelude.{◌≡◌, ◌<◌, ◌≤◌, ◌==◌, ◌++◌, ◌↔◌, ◌⊎◌, length, slice_get, Contains, false};
ghost use Rattle.std.specs.Prelude.{IsTrue, OnOk, IfOk, IfErr, IfSome, IfNone};
ghost use Rattle.rdf_terms.specs.declared.term.Term.{Term as T};
ghost use Rattle.rdf_terms.specs.Graph.{triples};
ghost use Rattle.rdf_terms.specs.Nodes.{Nodes as TermSet, terms, has_term, nodes_of_list, nodes_of_rising, is_rising};
ghost use Rattle.rdf_terms.specs.Nodes.{ends, nodes_of as nodes_of_graphs, IsNodeOf, IsTermPlace, empty};

use crate::{Graph, OutOfMemory, Term, Terms};
use std::alloc::Global;
use std::marker::Model;

/// A finite set of terms, walked in the order of [`Term::compare`]. Contracts see the set.
#[derive(Drop)]
pub struct Nodes {
    items: Vec<Term>,
}

impl Model for Nodes {
    ghost use Rattle.std.specs.Prelude.{IsTrue};
    ghost use Rattle.rdf_terms.specs.Nodes.{Nodes as TermSet, code, nodes_of_rising, is_rising};

    ghost Value = { TermSet };

    ghost coded = { code };

    ghost view = { λ n. nodes_of_rising n.items.items };

    ghost invariant = { λ n. IsTrue (is_rising n.items.items) };
}

impl Nodes {
    /// The set of the terms of a list, which may stand there in any order and repeatedly. The
    /// terms are moved and not copied.
    pub fn from_terms(alloc: Global, terms: Terms) -> Result<Nodes, OutOfMemory>
        ensures value { IfOk result (λ n. n ≡ nodes_of_list terms) }
        ensures exact { IfOk result (λ n. (t : T) → IsTrue (has_term n t) ↔ Contains terms t) }
    {
        let mut items = terms.into_vec();
        items.sort_unstable();
        items.dedup();
        Ok(Nodes { items })
    }

    /// The terms, in order. It takes no memory.
    pub fn as_slice(&self) -> &[Term]
        ensures value { result.now ≡ terms self.now }
        ensures exact { (t : T) → IsTrue (has_term self.now t) ↔ Contains result.now t }
    {
        self.items.as_slice()
    }

    /// The number of terms.
    pub fn len(&self) -> usize
        ensures { result ≡ length (terms self.now) }
    {
        self.as_slice().len()
    }

    /// Whether there is no term.
    pub fn is_empty(&self) -> bool
        ensures { result ≡ (length (terms self.now) == 0) }
    {
        self.as_slice().is_empty()
    }

    /// The term at a place, counted from 0 in the order of terms.
    pub fn nth_term(&self, i: usize) -> &Term
        requires { i < length (terms self.now) }
        ensures { slice_get (terms self.now) i ≡ Some result.now }
    {
        &self.as_slice()[i]
    }

    /// The place of the term, or the place where it would stand.
    fn place(&self, term: &Term) -> Result<usize, usize>
        ensures found { IfOk result (λ i. slice_get (terms self.now) i ≡ Some term.now) }
        ensures absent { IfErr result (λ i. IsTermPlace (terms self.now) term.now i) }
        ensures within { IfErr result (λ i. i ≤ length (terms self.now)) }
    {
        self.as_slice().binary_search(term)
    }

    /// The place of the term, and `None` exactly where the set has it not.
    pub fn index_of_term(&self, term: &Term) -> Option<usize>
        ensures some { IfSome result (λ i. slice_get (terms self.now) i ≡ Some term.now) }
        ensures none { IfNone result (has_term self.now term.now ≡ false) }
    {
        match self.place(term) {
            Ok(i) => Some(i),
            Err(_) => None,
        }
    }
}

/// The set of all subjects and objects of two graphs, and of more terms.
pub fn nodes_of(
    alloc: Global,
    first: &Graph,
    second: &Graph,
    more: &[Term],
) -> Result<Nodes, OutOfMemory>
    ensures value { IfOk result (λ n. n ≡ nodes_of_graphs first.now second.now more.now) }
    ensures exact { IfOk result (λ n. (t : T) → IsTrue (has_term n t)
        ↔ ((IsNodeOf first.now t ⊎ IsNodeOf second.now t) ⊎ Contains more.now t)) }
{
    let mut terms = Terms::new(alloc);
    push_ends(alloc, &mut terms, first)?;
    push_ends(alloc, &mut terms, second)?;
    'copying: for term in more {
        terms.push(term.copy(alloc)?)?;
    }
    Nodes::from_terms(alloc, terms)
}

/// Appends a copy of each triple's subject and object.
fn push_ends(alloc: Global, terms: &mut Terms, graph: &Graph) -> Result<(), OutOfMemory>
    ensures { OnOk result (terms.new ≡ terms.old ++ ends (triples graph.now)) }
{
    'pushing: for triple in graph.as_slice() {
        terms.push(triple.subject.copy(alloc)?)?;
        terms.push(triple.object.copy(alloc)?)?;
    }
    Ok(())
}
