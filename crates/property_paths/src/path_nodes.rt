ghost use Rattle.std.specs.Prelude.{◌≡◌, ◌<◌, ◌+◌, ℕ, IfOk, IfSome, IsTrue, length, is_none, true, false};
ghost use Rattle.std.specs.List.{list_any};
ghost use Rattle.std.specs.Option.{option_map, option_map_or};
ghost use Rattle.rdf_terms.specs.Graph.{triples};
ghost use Rattle.rdf_terms.specs.Nodes.{terms, has_term};
ghost use Rattle.rdf_navigation.specs.Lists.{members, blank_members};
ghost use Rattle.rdf_navigation.specs.Numbers.{IsNumbered};
ghost use Rattle.property_paths.specs.Paths.{alternative_of, node_of_triple, node_of_triples, node_of_blank};
ghost use Rattle.property_paths.specs.Paths.{path_node, path_parts, parts_of};
ghost use Rattle.property_paths.specs.PathTable.{is_pair, node_of_subject};

use crate::names::is_named;
use crate::own_triples::triples_with;
use crate::paths::PathNode;
use rdf_navigation::{Lists, only_value};
use rdf_terms::vocab::{rdf, sh};
use rdf_terms::{Graph, OutOfMemory, Term, Terms, Triple};
use std::alloc::Global;

/// An alternative path with these members, if there are at least two.
fn alternative(members: Option<Terms>) -> Option<PathNode>
    ensures { result ≡ alternative_of members }
{
    let members = members?;
    match members.as_slice() {
        [] | [_] => None,
        [_, _, ..] => Some(PathNode::Alternative(members)),
    }
}

/// What a blank node is made of that is the subject of this triple alone.
fn node_of_triple(
    alloc: Global,
    lists: &Lists<'_>,
    triple: &Triple,
) -> Result<Option<PathNode>, OutOfMemory>
    ensures { IfOk result (λ o. o ≡ node_of_triple lists.now triple.now) }
{
    let predicate = &triple.predicate;
    let object = &triple.object;
    if is_named(predicate, sh::ALTERNATIVE_PATH) {
        return Ok(alternative(lists.members(alloc, object)?));
    }
    if is_named(predicate, sh::INVERSE_PATH) {
        return Ok(Some(PathNode::Inverse(object.copy(alloc)?)));
    }
    if is_named(predicate, sh::ZERO_OR_MORE_PATH) {
        return Ok(Some(PathNode::ZeroOrMore(object.copy(alloc)?)));
    }
    if is_named(predicate, sh::ONE_OR_MORE_PATH) {
        return Ok(Some(PathNode::OneOrMore(object.copy(alloc)?)));
    }
    if is_named(predicate, sh::ZERO_OR_ONE_PATH) {
        return Ok(Some(PathNode::ZeroOrOne(object.copy(alloc)?)));
    }
    Ok(None)
}

/// What a blank node is made of that is the subject of these triples.
fn node_of_triples(
    alloc: Global,
    lists: &Lists<'_>,
    triples: &[Triple],
) -> Result<Option<PathNode>, OutOfMemory>
    ensures { IfOk result (λ o. o ≡ node_of_triples lists.now triples.now) }
{
    match triples {
        [triple] => node_of_triple(alloc, lists, triple),
        _ => Ok(None),
    }
}

/// What a blank node is made of by the triples that it is the subject of.
fn node_of_subject(
    alloc: Global,
    lists: &Lists<'_>,
    graph: &Graph,
    node: &Term,
) -> Result<Option<PathNode>, OutOfMemory>
    requires { graph.now ≡ lists.now }
    ensures { IfOk result (λ o. o ≡ node_of_subject lists.now node.now) }
{
    node_of_triples(alloc, lists, triples_with(graph, node))
}

/// The sequence of the first member of a list of two members or more, and of the other one, or of
/// the next cell where more follow.
fn sequence(
    alloc: Global,
    lists: &Lists<'_>,
    graph: &Graph,
    cell: &Term,
) -> Result<Option<PathNode>, OutOfMemory>
    requires graph { graph.now ≡ lists.now }
    requires pair { is_pair lists.now cell.now ≡ true }
    ensures { IfOk result (λ o. o ≡ node_of_blank lists.now cell.now (blank_members lists.now cell.now)) }
{
    let Some(first) = only_value(graph, cell, rdf::FIRST) else {
        unreachable!();
    };
    let Some(next) = only_value(graph, cell, rdf::REST) else {
        unreachable!();
    };
    if lists.is_blank_list_of_two(next) {
        return Ok(Some(PathNode::Sequence(first.copy(alloc)?, next.copy(alloc)?)));
    }
    let Some(second) = only_value(graph, next, rdf::FIRST) else {
        unreachable!();
    };
    Ok(Some(PathNode::Sequence(first.copy(alloc)?, second.copy(alloc)?)))
}

/// What a blank node is made of.
fn node_of_blank(
    alloc: Global,
    lists: &Lists<'_>,
    graph: &Graph,
    node: &Term,
) -> Result<Option<PathNode>, OutOfMemory>
    requires { graph.now ≡ lists.now }
    ensures { IfOk result (λ o. o ≡ node_of_blank lists.now node.now (blank_members lists.now node.now)) }
{
    if lists.is_blank_list_of_two(node) {
        return sequence(alloc, lists, graph, node);
    }
    if lists.is_blank_list(node) {
        return Ok(None);
    }
    node_of_subject(alloc, lists, graph, node)
}

/// What a path node is made of, and `None` where it is of none of the forms.
pub fn path_node(
    alloc: Global,
    lists: &Lists<'_>,
    graph: &Graph,
    node: &Term,
) -> Result<Option<PathNode>, OutOfMemory>
    requires { graph.now ≡ lists.now }
    ensures { IfOk result (λ o. o ≡ path_node lists.now node.now) }
{
    match node {
        Term::Iri(text) => Ok(Some(PathNode::Predicate(text.copy(alloc)?))),
        Term::Blank { .. } => node_of_blank(alloc, lists, graph, node),
        Term::Literal { .. } => Ok(None),
    }
}

/// The parts of a path node.
fn parts_of(alloc: Global, node: PathNode) -> Result<Terms, OutOfMemory>
    ensures { IfOk result (λ ts. ts ≡ parts_of node) }
{
    let mut parts = Terms::new(alloc);
    match node {
        PathNode::Predicate(_) => Ok(parts),
        PathNode::Alternative(members) => Ok(members),
        PathNode::Sequence(first, next) => {
            parts.push(first)?;
            parts.push(next)?;
            Ok(parts)
        }
        PathNode::Inverse(part) => {
            parts.push(part)?;
            Ok(parts)
        }
        PathNode::ZeroOrMore(part) => {
            parts.push(part)?;
            Ok(parts)
        }
        PathNode::OneOrMore(part) => {
            parts.push(part)?;
            Ok(parts)
        }
        PathNode::ZeroOrOne(part) => {
            parts.push(part)?;
            Ok(parts)
        }
    }
}

/// The parts of a path node, and `None` where it is of none of the forms.
pub fn path_parts(
    alloc: Global,
    lists: &Lists<'_>,
    graph: &Graph,
    node: &Term,
) -> Result<Option<Terms>, OutOfMemory>
    requires { graph.now ≡ lists.now }
    ensures { IfOk result (λ o. o ≡ path_parts lists.now node.now) }
{
    match path_node(alloc, lists, graph, node)? {
        Some(node) => Ok(Some(parts_of(alloc, node)?)),
        None => Ok(None),
    }
}
