ghost use Rattle.std.specs.Prelude.{◌≡◌, ◌≢◌, ◌<◌, ◌↔◌, [], IfOk, OnOk, Some, Contains, length};
ghost use Rattle.std.specs.List.Sorted.{IsStrictlySortedBy};
ghost use Rattle.rdf_terms.specs.Graph.{triples};
ghost use Rattle.shapes_graph.specs.declared.constraints.Constraint.{Constraint as C};
ghost use Rattle.shapes_graph.specs.Constraints.{constraint_at};
ghost use Rattle.shapes_graph.specs.Conformance.{Conforms};
ghost use Rattle.shapes_graph.specs.Results.{IsResult};
ghost use Rattle.core_constraints.specs.Findings.{shapes_of, term_of, IsNodeNumber, IsShapeNumber};
ghost use Rattle.core_constraints.specs.Findings.{IsTruthful, HasFocusNodes};
ghost use Rattle.core_constraints.specs.Findings.{AreValueNodes};
ghost use Rattle.core_constraints.specs.RowLists.{IsOwnRow};
ghost use Rattle.core_constraints.specs.Rows.{row_cmp, AreRowsOf};
ghost use Rattle.core_constraints.specs.RowLists.{Gains};
ghost use Rattle.core_constraints.specs.Validations.{Adds, AreOfFocusNodes, Follows, IsNested, IsRowAt};

use crate::constraint_rows::push_constraint_rows;
use crate::input::Input;
use crate::memo::{Memo, Validation};
use crate::result_rows::Rows;
use crate::value_nodes::value_nodes;
use indexmap::IndexSet;
use rdf_terms::{Graph, OutOfMemory};
use shapes_graph::{Kind, Shapes};
use std::alloc::Global;
use targets::focus_numbers;

/// Validations in order, each once.
type Validations = IndexSet<Validation>;

/// Appends the validations of these nodes against the shape, as far as they aren't there.
fn push_validations(
    validations: &mut Validations,
    shape: usize,
    nodes: &[usize],
) -> Result<(), OutOfMemory>
    ensures { OnOk result (Adds validations.old.keys validations.new.keys
        (λ v. (shape ≡ v.shape) × Contains nodes.now v.node)) }
{
    'nodes: for node in nodes {
        validations.insert(Validation { shape, node: *node })?;
    }
    Ok(())
}

/// The validations of all focus nodes.
fn focus_validations(alloc: Global, input: &Input<'_>) -> Result<Validations, OutOfMemory>
    requires { HasFocusNodes input.now }
    ensures { IfOk result (λ v. AreOfFocusNodes input.now v.keys) }
{
    let mut validations = Validations::new(alloc);
    'shapes: for shape in 0..input.shapes.shape_count() {
        let nodes = focus_numbers(alloc, input.shapes, shape, &input.graph)?;
        push_validations(&mut validations, shape, nodes.as_slice())?;
    }
    Ok(validations)
}

/// Appends the rows of the constraint that the triple at the place states, at a focus node with these
/// value nodes, or the validations of these against a property shape.
fn validate_at(
    alloc: Global,
    input: &Input<'_>,
    memo: &mut Memo,
    validations: &mut Validations,
    rows: &mut Rows,
    place: usize,
    node: usize,
    values: &[usize],
) -> Result<(), OutOfMemory>
    requires place { place < length (triples (shapes_of input.now)) }
    requires node { IsNodeNumber input.now node }
    requires values { (c : C) → constraint_at (shapes_of input.now) place ≡ Some c
        → AreValueNodes input.now c.shape node values.now }
    requires truthful { IsTruthful input.now memo.old }
    ensures rows { OnOk result (Gains rows.old (IsRowAt input.now place (term_of input.now node)) rows.new) }
    ensures validations { OnOk result (Adds validations.old.keys validations.new.keys
        (λ v. IsNested (shapes_of input.now) place v.shape × Contains values.now v.node)) }
    ensures truthful { IsTruthful input.now memo.new }
{
    // The clause of this call says that the shapes are in the profile.
    let _triples = input.shapes.triples();
    match input.shapes.constraint(place) {
        Some(constraint) => {
            if let Kind::Property(shape) = &constraint.kind {
                return push_validations(validations, *shape, values);
            }
            push_constraint_rows(alloc, input, memo, place, constraint, node, values, rows)
        }
        None => Ok(()),
    }
}

/// Appends the rows of a validation, and the validations of value nodes against property shapes to which
/// it leads.
fn validate(
    alloc: Global,
    input: &Input<'_>,
    memo: &mut Memo,
    validations: &mut Validations,
    rows: &mut Rows,
    validation: Validation,
) -> Result<(), OutOfMemory>
    requires shape { IsShapeNumber input.now validation.shape }
    requires node { IsNodeNumber input.now validation.node }
    requires truthful { IsTruthful input.now memo.old }
    ensures rows { OnOk result (Gains rows.old (IsOwnRow input.now validation.shape (term_of input.now validation.node))
        rows.new) }
    ensures validations { OnOk result (Follows input.now validation validations.old.keys validations.new.keys) }
    ensures truthful { IsTruthful input.now memo.new }
{
    // The clause of this call says that the shapes are in the profile.
    let _triples = input.shapes.triples();
    let Validation { shape, node } = validation;
    if input.shapes.deactivated(shape) {
        return Ok(());
    }
    let values = value_nodes(alloc, input, shape, node)?;
    'places: for place in input.shapes.constraints_of(shape) {
        validate_at(
            alloc,
            input,
            memo,
            validations,
            rows,
            *place,
            node,
            values.as_slice(),
        )?;
    }
    Ok(())
}

/// The validation results of the data graph, sorted and each once (SHACL 2017, section 3.6). There are some
/// exactly where it doesn't conform. `OutOfMemory` says nothing of the graphs. Each shape is validated at each
/// node at most once, also where constraints lead to it again and again; no clause says so.
pub fn results(alloc: Global, shapes: &Shapes, graph: &Graph) -> Result<Rows, OutOfMemory>
    ensures sorted { IfOk result (IsStrictlySortedBy row_cmp) }
    ensures exact { IfOk result (AreRowsOf (IsResult shapes.now graph.now)) }
    ensures some { IfOk result (λ rows. (rows ≢ []) ↔ ¬ (Conforms shapes.now graph.now)) }
{
    // The clause of this call says that the shapes are in the profile.
    let _triples = shapes.triples();
    let input = Input::new(alloc, shapes, graph)?;
    let mut memo = Memo::new(alloc);
    let mut validations = focus_validations(alloc, &input)?;
    let mut rows = Rows::new(alloc);
    let mut next = 0;
    'validating: while next < validations.len() {
        let validation = validations.as_slice()[next];
        validate(
            alloc,
            &input,
            &mut memo,
            &mut validations,
            &mut rows,
            validation,
        )?;
        next += 1;
    }
    let mut sorted = rows.into_vec();
    sorted.sort_unstable();
    sorted.dedup();
    Ok(Rows::from_vec(sorted))
}
