ghost use Rattle.std.specs.Prelude.{◌≡◌, IfOk, IfErr};
ghost use Rattle.shapes_profile.specs.Profile.{IsInProfile};
ghost use Rattle.explain_cli.specs.Commands.{IsShapesError, IsUnfitError};
ghost use Rattle.explain_cli.specs.Input.{AreComparable};

use crate::{InputRefusal, ShapesRefusal};
use document_input::InputError;
use rdf_terms::Graph;
use shapes_graph::{Shapes, read_shapes};
use shapes_profile::ShapeRefusal;
use std::alloc::Global;
use value_tests::order_literal;

/// The shapes of a graph, by which data and offered triples can be judged. It is refused where the graph is not in the
/// profile, and then where a literal would have to be compared that can't be.
pub fn comparable_shapes(
    alloc: Global,
    graph: Graph,
    present: &Graph,
    offered: &Graph,
) -> Result<Shapes, InputError>
    ensures shapes { IfOk result (λ s. (s ≡ graph) × IsInProfile graph) }
    ensures comparable { IfOk result (λ s. AreComparable graph present.now offered.now) }
    ensures err { IfErr result (IsUnfitError graph present.now offered.now) }
{
    let shapes = shapes_of(alloc, graph)?;
    if let Some(literal) = order_literal(&shapes, present, offered) {
        return Err(InputError::Refused(InputRefusal::Literal(literal.copy(alloc)?)));
    }
    Ok(shapes)
}

/// The shapes of a graph.
fn shapes_of(alloc: Global, graph: Graph) -> Result<Shapes, InputError>
    ensures ok { IfOk result (λ s. (s ≡ graph) × IsInProfile graph) }
    ensures err { IfErr result (IsShapesError graph) }
{
    match read_shapes(alloc, graph) {
        Ok(shapes) => Ok(shapes),
        Err(ShapeRefusal::Unsupported { predicate }) => {
            Err(shapes_error(ShapesRefusal::Unsupported { predicate }))
        }
        Err(ShapeRefusal::IllFormed { node, rule }) => {
            Err(shapes_error(ShapesRefusal::IllFormed { node, rule }))
        }
        Err(ShapeRefusal::Recursive { shape }) => {
            Err(shapes_error(ShapesRefusal::Recursive { shape }))
        }
        Err(ShapeRefusal::PathTooDeep { node }) => {
            Err(shapes_error(ShapesRefusal::PathTooDeep { node }))
        }
        Err(ShapeRefusal::ShapeTooDeep { shape }) => {
            Err(shapes_error(ShapesRefusal::ShapeTooDeep { shape }))
        }
        Err(ShapeRefusal::OutOfMemory) => Err(InputError::OutOfMemory),
    }
}

/// The error of shapes outside of the profile.
fn shapes_error(refusal: ShapesRefusal) -> InputError
    ensures { result ≡ InputError.Refused (InputRefusal.Shapes refusal) }
{
    InputError::Refused(InputRefusal::Shapes(refusal))
}
