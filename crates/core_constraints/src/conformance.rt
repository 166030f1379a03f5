ghost use Rattle.std.specs.Prelude.{◌↔◌, IsTrue, IfOk};
ghost use Rattle.rdf_terms.specs.declared.term.Term.{Term as T};
ghost use Rattle.shapes_graph.specs.Targets.{IsFocus};
ghost use Rattle.shapes_graph.specs.Conformance.{Conforms};
ghost use Rattle.shapes_graph.specs.Results.{HasNoResult};
ghost use Rattle.core_constraints.specs.Decisions.{Says};
ghost use Rattle.core_constraints.specs.Findings.{shapes_of, data_of, IsShapeNumber, IsConforming};
ghost use Rattle.core_constraints.specs.Findings.{IsTruthful, HasFocusNodes};

use crate::evaluation::conforms_to;
use crate::input::Input;
use crate::memo::Memo;
use rdf_terms::{Graph, OutOfMemory};
use shapes_graph::Shapes;
use std::alloc::Global;
use targets::focus_numbers;

/// Whether all focus nodes of the shape conform to it.
fn conform_to_shape(
    alloc: Global,
    input: &Input<'_>,
    memo: &mut Memo,
    shape: usize,
) -> Result<bool, OutOfMemory>
    requires shape { IsShapeNumber input.now shape }
    requires focus { HasFocusNodes input.now }
    requires truthful { IsTruthful input.now memo.old }
    ensures says { IfOk result (λ b. Says b ((x : T) → IsFocus (shapes_of input.now) shape (data_of input.now) x
        → IsConforming input.now shape x)) }
    ensures truthful { IsTruthful input.now memo.new }
{
    let nodes = focus_numbers(alloc, input.shapes, shape, &input.graph)?;
    'nodes: for node in nodes.as_slice() {
        if !conforms_to(alloc, input, memo, shape, *node)? {
            return Ok(false);
        }
    }
    Ok(true)
}

/// Whether the data graph conforms to the shapes graph (SHACL 2017, section 3.5), which it does exactly
/// where there are no validation results. It ends at the first node that doesn't conform; no clause says
/// so.
pub fn conforms(alloc: Global, shapes: &Shapes, graph: &Graph) -> Result<bool, OutOfMemory>
    ensures conforms { IfOk result (λ b. IsTrue b ↔ Conforms shapes.now graph.now) }
    ensures empty { IfOk result (λ b. IsTrue b ↔ HasNoResult shapes.now graph.now) }
{
    // The clause of this call says that the shapes are in the profile.
    let _triples = shapes.triples();
    let input = Input::new(alloc, shapes, graph)?;
    let mut memo = Memo::new(alloc);
    'shapes: for shape in 0..shapes.shape_count() {
        if !conform_to_shape(alloc, &input, &mut memo, shape)? {
            return Ok(false);
        }
    }
    Ok(true)
}
