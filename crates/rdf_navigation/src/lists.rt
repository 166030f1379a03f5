ghost use Rattle.std.specs.Prelude.{◌≡◌, ◌≢◌, ◌↔◌, ◌⊎◌, Bool, false, List, IsTrue, IfOk, Some};
ghost use Rattle.std.specs.Prelude.{IsSome, is_some, length, nat_le};
ghost use Rattle.std.specs.List.{AllPairs};
ghost use Rattle.std.specs.Option.{option_map, option_map_or};
ghost use Rattle.rdf_terms.specs.declared.term.Term.{Term as T};
ghost use Rattle.rdf_terms.specs.Graph.{Graph as Triples};
ghost use Rattle.rdf_terms.specs.Members.{IsSetOf, InGraph};
ghost use Rattle.rdf_terms.specs.Nodes.{terms, has_term};
ghost use Rattle.rdf_terms.specs.Vocab.Rdf.{rest as rdf_rest, nil as rdf_nil};
ghost use Rattle.digraph.specs.Digraph.{look};
ghost use Rattle.rdf_navigation.specs.Lists.{is_nil, members, blank_members, members_of, IsList, IsBlankList};
ghost use Rattle.rdf_navigation.specs.ListTable.{rests, capped_length, AreLengths};
ghost use Rattle.rdf_navigation.specs.CellKind.{is_cell};
ghost use Rattle.rdf_navigation.specs.Numbers.{IsNumbered, IsEndOf};

use crate::cell_kind::CellKind;
use crate::numbers::{ends_of, push_node};
use crate::property::{has_values, only_value};
use digraph::{Digraph, depths};
use rdf_terms::vocab::rdf;
use rdf_terms::{Graph, Nodes, OutOfMemory, Term, Terms, Text};
use std::alloc::Global;
use std::marker::Model;

/// Whether it is `rdf:nil`, without a value for `rdf:first` or `rdf:rest`.
fn is_nil(graph: &Graph, node: &Term) -> bool
    ensures { result ≡ is_nil graph.now node.now }
{
    node.compare_to_iri(rdf::NIL).is_eq()
        && !has_values(graph, node, rdf::FIRST)
        && !has_values(graph, node, rdf::REST)
}

/// What follows a node in a list: nothing after the empty list, the rest after a cell, and `None`
/// where the node is neither.
fn rests(
    alloc: Global,
    graph: &Graph,
    kind: CellKind,
    node: &Term,
) -> Result<Option<Terms>, OutOfMemory>
    ensures { IfOk result (λ o. o ≡ rests (is_cell kind) graph.now node.now) }
{
    let mut rests = Terms::new(alloc);
    if is_nil(graph, node) {
        return Ok(Some(rests));
    }
    if !kind.fits(node) {
        return Ok(None);
    }
    if only_value(graph, node, rdf::FIRST).is_none() {
        return Ok(None);
    }
    let Some(rest) = only_value(graph, node, rdf::REST) else {
        return Ok(None);
    };
    rests.push(rest.copy(alloc)?)?;
    Ok(Some(rests))
}

/// The graph that leads from each node to its rest.
fn rest_digraph(
    alloc: Global,
    graph: &Graph,
    nodes: &Nodes,
    kind: CellKind,
) -> Result<Digraph, OutOfMemory>
    requires { (x r : T) → InGraph graph.now x rdf_rest r → IsTrue (has_term nodes.now r) }
    ensures len { IfOk result (λ g. length g ≡ length (terms nodes.now)) }
    ensures numbered { IfOk result (λ g. IsNumbered (rests (is_cell kind) graph.now) nodes.now g) }
{
    let mut digraph = Digraph::new(alloc);
    'nodes: for node in nodes.as_slice() {
        let successors = rests(alloc, graph, kind, node)?;
        push_node(alloc, &mut digraph, nodes, successors)?;
    }
    Ok(digraph)
}

/// For each of the nodes the number of members of the list that begins there, where 2 stands for two
/// and more, and `None` where no list begins.
fn lengths(
    alloc: Global,
    graph: &Graph,
    nodes: &Nodes,
    kind: CellKind,
) -> Result<Vec<Option<usize>>, OutOfMemory>
    requires { IsSetOf (λ x. IsEndOf graph.now rdf_rest x ⊎ (x ≡ rdf_nil)) nodes.now }
    ensures { IfOk result (λ v. AreLengths (is_cell kind) graph.now nodes.now v.items) }
{
    let digraph = rest_digraph(alloc, graph, nodes, kind)?;
    depths(alloc, &digraph, 2)
}

fn length_at(lengths: &[Option<usize>], place: usize) -> Option<usize>
    ensures { result ≡ look lengths.now place }
{
    if place < lengths.len() {
        lengths[place]
    } else {
        None
    }
}

/// The number of members of the list that begins at a node, by a table of these, where 2 stands for
/// two and more, and `None` where no list begins.
fn length_of(nodes: &Nodes, lengths: &[Option<usize>], node: &Term) -> Option<usize>
    ensures { (test : T → Bool) (s : Triples) → AreLengths test s nodes.now lengths.now
        → result ≡ option_map capped_length (members_of test s node.now) }
{
    match nodes.index_of_term(node) {
        Some(place) => length_at(lengths, place),
        None => None,
    }
}

/// Copies of the members of a list, in order.
fn read_members(
    alloc: Global,
    graph: &Graph,
    kind: CellKind,
    head: &Term,
) -> Result<Terms, OutOfMemory>
    requires { IsSome (members_of (is_cell kind) graph.now head.now) }
    ensures { IfOk result (λ ts. members_of (is_cell kind) graph.now head.now ≡ Some ts) }
{
    let mut members = Terms::new(alloc);
    let mut cell = head;
    'cells: while !is_nil(graph, cell) {
        let Some(first) = only_value(graph, cell, rdf::FIRST) else {
            unreachable!();
        };
        let Some(rest) = only_value(graph, cell, rdf::REST) else {
            unreachable!();
        };
        members.push(first.copy(alloc)?)?;
        cell = rest;
    }
    Ok(members)
}

/// The lists of a graph (SHACL 2017, section 1.1). A SHACL list is `rdf:nil`, provided that it has no
/// value for `rdf:first` or `rdf:rest`, or an IRI or blank node with exactly one value for `rdf:first`,
/// which is its first member, and exactly one for `rdf:rest`, which is a SHACL list and has the other
/// members. Contracts see the graph.
///
/// It is made once, in near linear time, and tells then by a binary search whether a list begins at
/// a node, so that no cells are walked that lead to no list.
#[derive(Drop)]
pub struct Lists<'a> {
    graph: &'a Graph,
    nodes: Nodes,
    lengths: Vec<Option<usize>>,
    blank_lengths: Vec<Option<usize>>,
}

impl<'a> Model for Lists<'a> {
    ghost use Rattle.rdf_terms.specs.Graph.{Graph as Triples, code};
    ghost use Rattle.rdf_terms.specs.Statement.{is_node};
    ghost use Rattle.rdf_navigation.specs.Lists.{is_blank};
    ghost use Rattle.rdf_navigation.specs.ListTable.{AreLengths};

    ghost Value = { Triples };

    ghost coded = { code };

    ghost view = { λ l. l.graph.now };

    ghost invariant = { λ l. AreLengths is_node l.graph.now l.nodes l.lengths.items
        × AreLengths is_blank l.graph.now l.nodes l.blank_lengths.items };
}

impl<'a> Lists<'a> {
    /// The lists of the graph.
    pub fn new(alloc: Global, graph: &'a Graph) -> Result<Lists<'a>, OutOfMemory>
        ensures { IfOk result (λ l. l ≡ graph.now) }
    {
        let nil = Term::Iri(Text::from_str(alloc, rdf::NIL)?);
        let nodes = ends_of(alloc, graph, rdf::REST, &nil)?;
        let node_lengths = lengths(alloc, graph, &nodes, CellKind::Node)?;
        let blank_lengths = lengths(alloc, graph, &nodes, CellKind::Blank)?;
        Ok(Lists {
            graph,
            nodes,
            lengths: node_lengths,
            blank_lengths,
        })
    }

    /// Whether the node is a SHACL list, none of which repeats a cell. It takes no memory.
    pub fn is_list(&self, node: &Term) -> bool
        ensures value { result ≡ is_some (members self.now node.now) }
        ensures repeats { (cs ms : List T) → IsList self.now node.now cs ms → AllPairs (λ a b. a ≢ b) cs }
    {
        length_of(&self.nodes, self.lengths.as_slice(), node).is_some()
    }

    /// Copies of the members of the SHACL list, in order, and `None` where the node is none.
    pub fn members(&self, alloc: Global, node: &Term) -> Result<Option<Terms>, OutOfMemory>
        ensures value { IfOk result (λ o. o ≡ members self.now node.now) }
        ensures exact { (ms : List T) → (members self.now node.now ≡ Some ms)
            ↔ ((cs : List T) × IsList self.now node.now cs ms) }
    {
        if !self.is_list(node) {
            return Ok(None);
        }
        Ok(Some(read_members(alloc, self.graph, CellKind::Node, node)?))
    }

    /// Whether the node is a SHACL list whose cells are all blank nodes. It takes no memory.
    pub fn is_blank_list(&self, node: &Term) -> bool
        ensures { result ≡ is_some (blank_members self.now node.now) }
    {
        length_of(&self.nodes, self.blank_lengths.as_slice(), node).is_some()
    }

    /// Whether the node is a SHACL list of two members or more whose cells are all blank nodes, as a
    /// sequence path is. It takes no memory.
    pub fn is_blank_list_of_two(&self, node: &Term) -> bool
        ensures { result ≡ option_map_or (λ ms. nat_le 2 (length ms)) (blank_members self.now node.now) false }
    {
        length_of(&self.nodes, self.blank_lengths.as_slice(), node) == Some(2)
    }

    /// Copies of the members of the SHACL list whose cells are all blank nodes, in order, and `None`
    /// where the node is none.
    pub fn blank_members(&self, alloc: Global, node: &Term) -> Result<Option<Terms>, OutOfMemory>
        ensures value { IfOk result (λ o. o ≡ blank_members self.now node.now) }
        ensures exact { (ms : List T) → (blank_members self.now node.now ≡ Some ms)
            ↔ ((cs : List T) × IsBlankList self.now node.now cs ms) }
    {
        if !self.is_blank_list(node) {
            return Ok(None);
        }
        Ok(Some(read_members(alloc, self.graph, CellKind::Blank, node)?))
    }
}
