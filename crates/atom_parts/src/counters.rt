ghost use Rattle.std.specs.Prelude.{◌≡◌, ◌<◌, ◌≤◌, IfOk, length, option_map, slice_get, nat_le};
ghost use Rattle.shapes_profile.specs.Shapes.{shape_terms};
ghost use Rattle.shapes_graph.specs.Forms.{form_of};
ghost use Rattle.atom_parts.specs.PartsTable.{need, items, item_part};
ghost use Rattle.atom_parts.specs.ValueParts.{values_of};

use crate::value_parts::{literal, value_part};
use crate::values::values_of;
use path_levels::PossibleNodes;
use rdf_terms::OutOfMemory;
use repair_problem::{Atom, Part};
use shapes_graph::{Constraint, Kind};
use std::alloc::Global;

/// Whether it has to be told if at least `m` things are to be counted, where `m` isn't 0.
pub(crate) fn is_needed(kind: &Kind, m: u64) -> bool
    requires { 1 ≤ m }
    ensures { result ≡ nat_le m (need (form_of kind.now)) }
{
    match kind {
        Kind::Xone(_) => m <= 2,
        Kind::MinCount(count) | Kind::QualifiedMinCount { count, .. } => m <= *count,
        Kind::MaxCount(count) | Kind::QualifiedMaxCount { count, .. } => m - 1 <= *count,
        _ => false,
    }
}

/// The node at a place among those that are value nodes in some edited graph.
fn value_at(
    alloc: Global,
    nodes: &mut PossibleNodes<'_>,
    shape: usize,
    x: u64,
    place: u64,
) -> Result<Option<u64>, OutOfMemory>
    requires { shape < length (shape_terms nodes.old.shapes) }
    ensures value { IfOk result (λ o. o ≡ slice_get (values_of nodes.old shape x) place) }
    ensures same { nodes.new ≡ nodes.old }
{
    let values = values_of(alloc, nodes, shape, x)?;
    Ok(values.as_slice().get(place as usize).copied())
}

/// That the thing at a place among those that the constraint of triple `i` counts is to be counted, as a part, if there
/// is one at that place.
pub(crate) fn item_at(
    alloc: Global,
    nodes: &mut PossibleNodes<'_>,
    i: u64,
    x: u64,
    constraint: &Constraint,
    place: u64,
) -> Result<Option<Part>, OutOfMemory>
    requires { constraint.now.shape < length (shape_terms nodes.old.shapes) }
    ensures value { IfOk result (λ o. o
        ≡ option_map (λ y. item_part nodes.old i constraint.now.shape x y (form_of constraint.now.kind))
        (slice_get (items nodes.old constraint.now.shape x (form_of constraint.now.kind)) place)) }
    ensures same { nodes.new ≡ nodes.old }
{
    let shape = constraint.shape;
    match &constraint.kind {
        Kind::Xone(shapes) => match shapes.as_slice().get(place as usize) {
            Some(s) => Ok(Some(literal(Atom::Conforms { s: *s, x }, true))),
            None => Ok(None),
        },
        Kind::MinCount(_) | Kind::MaxCount(_) => match value_at(alloc, nodes, shape, x, place)? {
            Some(y) => Ok(Some(value_part(nodes, shape, x, y)?)),
            None => Ok(None),
        },
        Kind::QualifiedMinCount { .. } | Kind::QualifiedMaxCount { .. } => {
            match value_at(alloc, nodes, shape, x, place)? {
                Some(y) => Ok(Some(literal(Atom::Marked { i, x, y }, true))),
                None => Ok(None),
            }
        }
        _ => Ok(None),
    }
}
