ghost use Rattle.std.specs.Prelude.{◌≡◌, ◌<◌, [], ◌∷◌, IfOk, Some, length, option_map, true};
ghost use Rattle.shapes_profile.specs.Shapes.{shape_terms};
ghost use Rattle.shapes_graph.specs.Forms.{form_of};
ghost use Rattle.shapes_graph.specs.Constraints.{constraint_at};
ghost use Rattle.path_levels.specs.PossibleNodes.{node_count};
ghost use Rattle.atom_parts.specs.PartsTable.{marked_parts, differ_parts, twin_parts};
ghost use Rattle.atom_parts.specs.ValueParts.{value_part, is_value};
ghost use Rattle.atom_parts.specs.Sources.{listed_parts};

use crate::good::good_part;
use crate::sources::{AtomParts, all_of, two_parts};
use crate::twins::have_same_tag;
use crate::value_parts::{link_number, link_part, literal, value_part};
use crate::values::values_of;
use count_encode::negation;
use path_levels::PossibleNodes;
use rdf_terms::OutOfMemory;
use repair_problem::{Atom, Part};
use shapes_graph::{Constraint, Kind};
use std::alloc::Global;

/// What a value node of the constraint of triple `i` has to be besides to count for or against it, as a part, if value
/// nodes are marked.
fn mark(nodes: &PossibleNodes<'_>, i: u64, x: u64, y: u64, constraint: &Constraint) -> Option<Part>
    requires stated { constraint_at nodes.now.shapes i ≡ Some constraint.now }
    requires x { x < node_count nodes.now }
    requires y { y < node_count nodes.now }
    ensures { option_map (λ part. record {
      every = true;
      list = value_part nodes.now constraint.now.shape x y ∷ part ∷ [];
    }) result
        ≡ marked_parts nodes.now i constraint.now.shape x y (form_of constraint.now.kind) }
{
    let problem = nodes.problem();
    match &constraint.kind {
        Kind::MinCount(_) | Kind::MaxCount(_) | Kind::HasValue(_) | Kind::UniqueLang(_) => None,
        Kind::Disjoint(predicate) => Some(link_part(problem, predicate.as_str(), x, y)),
        Kind::Equals(predicate) => Some(negation(link_part(problem, predicate.as_str(), x, y))),
        Kind::QualifiedMinCount { .. } | Kind::QualifiedMaxCount { .. } => {
            Some(good_part(problem, i, y, constraint))
        }
        _ => {
            let good = good_part(problem, i, y, constraint);
            let bad = negation(good);
            Some(bad)
        }
    }
}

/// What it comes down to that `y` is a value node of `x` which counts for or against the constraint of triple `i`, if
/// that is an atom.
pub(crate) fn marked_parts<'p>(
    alloc: Global,
    nodes: &mut PossibleNodes<'p>,
    i: u64,
    x: u64,
    y: u64,
    constraint: &Constraint,
) -> Result<Option<AtomParts<'p>>, OutOfMemory>
    requires stated { constraint_at nodes.old.shapes i ≡ Some constraint.now }
    requires shape { constraint.now.shape < length (shape_terms nodes.old.shapes) }
    requires x { x < node_count nodes.old }
    requires y { y < node_count nodes.old }
    ensures value { IfOk result (λ o. option_map listed_parts o
        ≡ marked_parts nodes.old i constraint.now.shape x y (form_of constraint.now.kind)) }
    ensures same { nodes.new ≡ nodes.old }
{
    match mark(nodes, i, x, y, constraint) {
        Some(mark) => {
            let value = value_part(nodes, constraint.shape, x, y)?;
            Ok(Some(all_of(two_parts(alloc, value, mark)?)))
        }
        None => Ok(None),
    }
}

/// Whether `y` is a value node of `x` for the shape in some edited graph.
pub(crate) fn is_value(
    alloc: Global,
    nodes: &mut PossibleNodes<'_>,
    shape: usize,
    x: u64,
    y: u64,
) -> Result<bool, OutOfMemory>
    requires shape { shape < length (shape_terms nodes.old.shapes) }
    ensures value { IfOk result (λ b. b ≡ is_value nodes.old shape x y) }
    ensures same { nodes.new ≡ nodes.old }
{
    let values = values_of(alloc, nodes, shape, x)?;
    Ok(values.as_slice().binary_search(&y).is_ok())
}

/// What it comes down to that `y` is a value of the property of an `sh:equals` at `x`, and no value node, if that is an
/// atom.
pub(crate) fn differ_parts<'p>(
    alloc: Global,
    nodes: &mut PossibleNodes<'p>,
    x: u64,
    y: u64,
    constraint: &Constraint,
) -> Result<Option<AtomParts<'p>>, OutOfMemory>
    requires shape { constraint.now.shape < length (shape_terms nodes.old.shapes) }
    requires x { x < node_count nodes.old }
    requires y { y < node_count nodes.old }
    ensures value { IfOk result (λ o. option_map listed_parts o
        ≡ differ_parts nodes.old constraint.now.shape x y (form_of constraint.now.kind)) }
    ensures same { nodes.new ≡ nodes.old }
{
    let Kind::Equals(predicate) = &constraint.kind else {
        return Ok(None);
    };
    let Some(t) = link_number(nodes.problem(), predicate.as_str(), x, y) else {
        return Ok(None);
    };
    let value = value_part(nodes, constraint.shape, x, y)?;
    let link = literal(Atom::Triple { t: t as u64 }, true);
    Ok(Some(all_of(two_parts(alloc, negation(value), link)?)))
}

/// What it comes down to that `y` and `z`, literals with the same language tag, are both value nodes of `x`, if that is
/// an atom.
pub(crate) fn twin_parts<'p>(
    alloc: Global,
    nodes: &mut PossibleNodes<'p>,
    x: u64,
    y: u64,
    z: u64,
    constraint: &Constraint,
) -> Result<Option<AtomParts<'p>>, OutOfMemory>
    requires shape { constraint.now.shape < length (shape_terms nodes.old.shapes) }
    requires y { y < node_count nodes.old }
    requires z { z < node_count nodes.old }
    ensures value { IfOk result (λ o. option_map listed_parts o
        ≡ twin_parts nodes.old constraint.now.shape x y z (form_of constraint.now.kind)) }
    ensures same { nodes.new ≡ nodes.old }
{
    let Kind::UniqueLang(true) = &constraint.kind else {
        return Ok(None);
    };
    if y >= z || !have_same_tag(nodes.problem(), y, z) {
        return Ok(None);
    }
    let is_first = is_value(alloc, nodes, constraint.shape, x, y)?;
    let is_second = is_value(alloc, nodes, constraint.shape, x, z)?;
    if !(is_first && is_second) {
        return Ok(None);
    }
    let first = value_part(nodes, constraint.shape, x, y)?;
    let second = value_part(nodes, constraint.shape, x, z)?;
    Ok(Some(all_of(two_parts(alloc, first, second)?)))
}
