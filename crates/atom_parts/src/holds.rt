ghost use Rattle.std.specs.Prelude.{◌≡◌, ◌<◌, ◌+◌, ◌++◌, IfOk, OnOk, Some, length, map, option_map};
ghost use Rattle.shapes_profile.specs.Shapes.{shape_terms};
ghost use Rattle.shapes_graph.specs.Forms.{form_of};
ghost use Rattle.path_levels.specs.PossibleNodes.{node_count};
ghost use Rattle.count_encode.specs.Counts.{counted as counter};
ghost use Rattle.atom_parts.specs.PartsTable.{holds_parts, none_marked, none_differs, no_twins};
ghost use Rattle.atom_parts.specs.Sources.{source_list, listed_parts};

use crate::candidate_lists::linked_nodes;
use crate::sources::{AtomParts, PartSource, all_of, any_of, one_part};
use crate::twins::twins;
use crate::value_parts::{literal, term_value_part};
use crate::values::values_of;
use count_encode::{counted, negation};
use path_levels::PossibleNodes;
use rdf_terms::{OutOfMemory, Text};
use repair_problem::{Atom, Part, PartList};
use shapes_graph::{Constraint, Kind};
use std::alloc::Global;

/// That more than `most` of the first `j` things are to be counted, as a part.
fn more_counted(i: u64, x: u64, j: u64, most: u64) -> Part
    ensures { result ≡ counter i x j (most + 1) }
{
    if j <= most {
        Part::Fixed(false)
    } else {
        counted(i, x, j, most + 1)
    }
}

/// That no value node counts against the constraint.
fn none_marked<'p>(
    alloc: Global,
    nodes: &mut PossibleNodes<'p>,
    i: u64,
    shape: usize,
    x: u64,
) -> Result<PartSource<'p>, OutOfMemory>
    requires { shape < length (shape_terms nodes.old.shapes) }
    ensures value { IfOk result (λ source. source_list source ≡ none_marked nodes.old i shape x) }
    ensures same { nodes.new ≡ nodes.old }
{
    let values = values_of(alloc, nodes, shape, x)?;
    Ok(PartSource::Unmarked {
        constraint: i,
        node: x,
        values,
    })
}

/// That no value node is missing among the objects of the predicate, and no object among the value nodes.
fn same_list(
    alloc: Global,
    nodes: &mut PossibleNodes<'_>,
    i: u64,
    shape: usize,
    x: u64,
    predicate: &Text,
) -> Result<PartList, OutOfMemory>
    requires shape { shape < length (shape_terms nodes.old.shapes) }
    requires x { x < node_count nodes.old }
    ensures value { IfOk result (λ list. list
        ≡ none_marked nodes.old i shape x ++ none_differs nodes.old i predicate.now x) }
    ensures same { nodes.new ≡ nodes.old }
{
    let mut list = PartList::new(alloc);
    none_marked(alloc, nodes, i, shape, x)?.push_onto(&mut list)?;
    let linked = linked_nodes(alloc, nodes.problem(), predicate.as_str(), x)?;
    'linked: for y in &linked {
        list.push(literal(Atom::Differ { i, x, y: *y }, false))?;
    }
    Ok(list)
}

/// That no two value nodes have the same language tag.
fn unique_list(
    alloc: Global,
    nodes: &mut PossibleNodes<'_>,
    i: u64,
    shape: usize,
    x: u64,
) -> Result<PartList, OutOfMemory>
    requires shape { shape < length (shape_terms nodes.old.shapes) }
    requires x { x < node_count nodes.old }
    ensures value { IfOk result (λ list. list ≡ no_twins nodes.old i shape x) }
    ensures same { nodes.new ≡ nodes.old }
{
    let mut list = PartList::new(alloc);
    let values = values_of(alloc, nodes, shape, x)?;
    let pairs = twins(alloc, nodes.problem(), values.as_slice())?;
    'pairs: for (y, z) in &pairs {
        let twin = Atom::Twin { i, x, y: *y, z: *z };
        list.push(literal(twin, false))?;
    }
    Ok(list)
}

/// What it comes down to that the constraint of triple `i` holds for the node.
pub(crate) fn holds_parts<'p>(
    alloc: Global,
    nodes: &mut PossibleNodes<'p>,
    i: u64,
    x: u64,
    constraint: &Constraint,
) -> Result<AtomParts<'p>, OutOfMemory>
    requires shape { constraint.now.shape < length (shape_terms nodes.old.shapes) }
    requires x { x < node_count nodes.old }
    ensures value { IfOk result (λ parts. Some (listed_parts parts)
        ≡ holds_parts nodes.old i constraint.now.shape x (form_of constraint.now.kind)) }
    ensures same { nodes.new ≡ nodes.old }
{
    let shape = constraint.shape;
    match &constraint.kind {
        Kind::MinCount(count) | Kind::QualifiedMinCount { count, .. } => {
            let values = values_of(alloc, nodes, shape, x)?;
            Ok(any_of(one_part(alloc, counted(i, x, values.len(), *count))?))
        }
        Kind::MaxCount(count) | Kind::QualifiedMaxCount { count, .. } => {
            let values = values_of(alloc, nodes, shape, x)?;
            let more = more_counted(i, x, values.len(), *count);
            Ok(all_of(one_part(alloc, negation(more))?))
        }
        Kind::HasValue(term) => {
            let value = term_value_part(nodes, shape, x, term)?;
            Ok(any_of(one_part(alloc, value)?))
        }
        Kind::Equals(predicate) => {
            let list = same_list(alloc, nodes, i, shape, x, predicate)?;
            Ok(all_of(list))
        }
        Kind::UniqueLang(true) => Ok(all_of(unique_list(alloc, nodes, i, shape, x)?)),
        Kind::UniqueLang(false) => Ok(all_of(PartList::new(alloc))),
        _ => Ok(AtomParts {
            every: true,
            source: none_marked(alloc, nodes, i, shape, x)?,
        }),
    }
}
