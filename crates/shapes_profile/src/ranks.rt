ghost use Rattle.std.specs.Prelude.{◌≡◌, ◌<◌, ℕ, IfOk, IfSome, IfNone, length};
ghost use Rattle.digraph.specs.Digraph.{look};
ghost use Rattle.rdf_navigation.specs.Numbers.{IsNumbered};
ghost use Rattle.shapes_profile.specs.Logic.{IsFirst, NoneOf};
ghost use Rattle.shapes_profile.specs.Shapes.{shape_terms, shape_nodes};
ghost use Rattle.shapes_profile.specs.References.{shape_references, IsRecursive};
ghost use Rattle.shapes_profile.specs.Profile.{IsShapeTooDeep};
ghost use Rattle.shapes_profile.specs.RankTable.{AreRanks, is_too_deep};

use crate::references::references;
use crate::shape_nodes::ShapeNodes;
use digraph::{Digraph, depths, first_on_circle};
use rdf_navigation::push_node;
use rdf_terms::{OutOfMemory, Term};
use std::alloc::Global;

/// One more than the greatest rank that a shape may have.
const RANK_CAP: usize = 129;

/// The references between the shapes, as a directed graph over their numbers.
pub fn reference_digraph(alloc: Global, shapes: &ShapeNodes<'_>) -> Result<Digraph, OutOfMemory>
    ensures len { IfOk result (λ g. length g ≡ length (shape_terms shapes.now)) }
    ensures numbered { IfOk result (λ g. IsNumbered (shape_references shapes.now) (shape_nodes shapes.now) g) }
{
    let mut digraph = Digraph::new(alloc);
    'shapes: for shape in shapes.as_slice() {
        let references = references(alloc, shapes.declarations(), shape)?;
        push_node(alloc, &mut digraph, shapes.nodes(), Some(references))?;
    }
    Ok(digraph)
}

/// The first shape that refers to itself over one or more references.
pub fn first_recursive<'s>(
    alloc: Global,
    shapes: &'s ShapeNodes<'_>,
    references: &Digraph,
) -> Result<Option<&'s Term>, OutOfMemory>
    requires len { length references.now ≡ length (shape_terms shapes.now) }
    requires numbered { IsNumbered (shape_references shapes.now) (shape_nodes shapes.now) references.now }
    ensures some { IfOk result (λ o. IfSome o (λ x. IsFirst (IsRecursive shapes.now) (shape_terms shapes.now) x.now)) }
    ensures none { IfOk result (λ o. IfNone o (NoneOf (IsRecursive shapes.now) (shape_terms shapes.now))) }
{
    match first_on_circle(alloc, references)? {
        Some(number) => Ok(Some(&shapes.as_slice()[number])),
        None => Ok(None),
    }
}

/// The rank of each shape, up to one more than the greatest that it may have; `None` for a shape that
/// leads to a recursive one.
pub fn ranks(
    alloc: Global,
    shapes: &ShapeNodes<'_>,
    references: &Digraph,
) -> Result<Vec<Option<usize>>, OutOfMemory>
    requires len { length references.now ≡ length (shape_terms shapes.now) }
    requires numbered { IsNumbered (shape_references shapes.now) (shape_nodes shapes.now) references.now }
    ensures { IfOk result (λ v. AreRanks shapes.now v.items) }
{
    depths(alloc, references, RANK_CAP)
}

/// Whether no rank of at most 128 stands at the place.
fn is_too_deep(ranks: &[Option<usize>], number: usize) -> bool
    requires { number < length ranks.now }
    ensures { result ≡ is_too_deep 129 (look ranks.now number) }
{
    match ranks[number] {
        Some(rank) => rank >= RANK_CAP,
        None => true,
    }
}

/// The first shape of a rank over 128.
pub fn first_too_deep<'s>(shapes: &'s ShapeNodes<'_>, ranks: &[Option<usize>]) -> Option<&'s Term>
    requires { AreRanks shapes.now ranks.now }
    ensures some { IfSome result (λ x. IsFirst (IsShapeTooDeep shapes.now) (shape_terms shapes.now) x.now) }
    ensures none { IfNone result (NoneOf (IsShapeTooDeep shapes.now) (shape_terms shapes.now)) }
{
    'seeking: for (number, shape) in shapes.as_slice().iter().enumerate() {
        if is_too_deep(ranks, number) {
            return Some(shape);
        }
    }
    None
}
