ghost use Rattle.std.specs.Prelude.{◌∷◌, IsTrue, IfOk, Contains};
ghost use Rattle.std.specs.Ordering.{nat_cmp};
ghost use Rattle.std.specs.List.Sorted.{IsStrictlyIncreasing};
ghost use Rattle.rdf_terms.specs.Term.{term_cmp};
ghost use Rattle.shapes_profile.specs.Logic.{EachOf, SomeOf, NoneFails};
ghost use Rattle.shapes_graph.specs.Forms.{form_of};
ghost use Rattle.shapes_graph.specs.Conformance.{HoldsBy, HoldsIn};
ghost use Rattle.path_eval.specs.Numbered.{terms_at, AreNumbers};
ghost use Rattle.core_constraints.specs.Decisions.{Says, Exactly};
ghost use Rattle.core_constraints.specs.Levels.{AreLower, AreDistinct, IsStated};
ghost use Rattle.core_constraints.specs.Tests.{is_tested, IsGoodNode, IsPlaceOf};
ghost use Rattle.core_constraints.specs.Findings.{shapes_of, data_of, term_of, IsNodeNumber};
ghost use Rattle.core_constraints.specs.Findings.{IsShapeNumber, IsConforming};
ghost use Rattle.core_constraints.specs.Findings.{IsValueNode, AreValueNodes, IsTruthful};

use crate::classes::is_instance;
use crate::counts::counted;
use crate::input::Input;
use crate::memo::{Memo, Validation};
use crate::tags::repeated_tags;
use crate::value_nodes::{contains_term, have_common, is_any_open, objects_of, value_nodes};
use rdf_terms::OutOfMemory;
use shapes_graph::{Constraint, Kind};
use std::alloc::Global;
use value_tests::good_node;

/// Whether the node conforms to the shape (SHACL 2017, section 3.5). That is found once.
#[cycle(conforming)]
pub(crate) fn conforms_to(
    alloc: Global,
    input: &Input<'_>,
    memo: &mut Memo,
    shape: usize,
    node: usize,
) -> Result<bool, OutOfMemory>
    requires shape { IsShapeNumber input.now shape }
    requires node { IsNodeNumber input.now node }
    requires truthful { IsTruthful input.now memo.old }
    ensures says { IfOk result (λ b. Says b (IsConforming input.now shape (term_of input.now node))) }
    ensures truthful { IsTruthful input.now memo.new }
{
    let validation = Validation { shape, node };
    if let Some(verdict) = memo.verdict(validation) {
        return Ok(verdict);
    }
    let verdict = meets_shape(alloc, input, memo, shape, node)?;
    memo.note_verdict(validation, verdict)?;
    Ok(verdict)
}

/// The same, by the constraints of the shape.
#[cycle(conforming)]
fn meets_shape(
    alloc: Global,
    input: &Input<'_>,
    memo: &mut Memo,
    shape: usize,
    node: usize,
) -> Result<bool, OutOfMemory>
    requires shape { IsShapeNumber input.now shape }
    requires node { IsNodeNumber input.now node }
    requires truthful { IsTruthful input.now memo.old }
    ensures says { IfOk result (λ b. Says b (IsConforming input.now shape (term_of input.now node))) }
    ensures truthful { IsTruthful input.now memo.new }
{
    // The clause of this call says that the shapes are in the profile.
    let _triples = input.shapes.triples();
    if input.shapes.deactivated(shape) {
        return Ok(true);
    }
    let values = value_nodes(alloc, input, shape, node)?;
    'places: for place in input.shapes.constraints_of(shape) {
        if !holds_at(alloc, input, memo, shape, *place, node, values.as_slice())? {
            return Ok(false);
        }
    }
    Ok(true)
}

/// Whether the constraint of the shape that the triple at the place states holds for a node with these
/// value nodes.
#[cycle(conforming)]
fn holds_at(
    alloc: Global,
    input: &Input<'_>,
    memo: &mut Memo,
    shape: usize,
    place: usize,
    node: usize,
    values: &[usize],
) -> Result<bool, OutOfMemory>
    requires shape { IsShapeNumber input.now shape }
    requires place { IsPlaceOf (shapes_of input.now) shape place }
    requires node { IsNodeNumber input.now node }
    requires values { AreValueNodes input.now shape node values.now }
    requires truthful { IsTruthful input.now memo.old }
    ensures says { IfOk result (λ b. Says b (HoldsIn (shapes_of input.now) (data_of input.now) (IsConforming input.now)
        (term_of input.now node) place)) }
    ensures truthful { IsTruthful input.now memo.new }
{
    // The clause of this call says that the shapes are in the profile.
    let _triples = input.shapes.triples();
    match input.shapes.constraint(place) {
        Some(constraint) => holds(alloc, input, memo, place, constraint, node, values),
        None => Ok(false),
    }
}

/// Whether the constraint, which the triple at the place states, holds for a node with these value nodes.
#[cycle(conforming)]
pub(crate) fn holds(
    alloc: Global,
    input: &Input<'_>,
    memo: &mut Memo,
    place: usize,
    constraint: &Constraint,
    node: usize,
    values: &[usize],
) -> Result<bool, OutOfMemory>
    requires stated { IsStated (shapes_of input.now) place constraint.now }
    requires node { IsNodeNumber input.now node }
    requires values { AreValueNodes input.now constraint.now.shape node values.now }
    requires truthful { IsTruthful input.now memo.old }
    ensures says { IfOk result (λ b. Says b (HoldsBy (data_of input.now) (IsConforming input.now)
        (IsValueNode input.now constraint.now.shape node) (term_of input.now node) (form_of constraint.now.kind))) }
    ensures truthful { IsTruthful input.now memo.new }
{
    match &constraint.kind {
        Kind::HasValue(term) => Ok(contains_term(input, values, term)),
        Kind::MinCount(count) => Ok(*count <= values.len() as u64),
        Kind::MaxCount(count) => Ok(values.len() as u64 <= *count),
        Kind::Equals(predicate) => {
            let objects = objects_of(alloc, input, node, predicate.as_str())?;
            Ok(values == objects.as_slice())
        }
        Kind::Disjoint(predicate) => {
            let objects = objects_of(alloc, input, node, predicate.as_str())?;
            Ok(!have_common(values, objects.as_slice()))
        }
        Kind::UniqueLang(on) => Ok(!*on || repeated_tags(alloc, input, values)?.is_empty()),
        Kind::Closed { on, allowed } => Ok(!*on || !is_any_open(input, values, allowed.as_slice())),
        Kind::QualifiedMinCount { count, .. } => {
            Ok(*count <= count_good(alloc, input, memo, place, constraint, values)?)
        }
        Kind::QualifiedMaxCount { count, .. } => {
            Ok(count_good(alloc, input, memo, place, constraint, values)? <= *count)
        }
        _ => are_all_good(alloc, input, memo, place, constraint, values),
    }
}

/// Whether no value node fails the test of the constraint.
#[cycle(conforming)]
fn are_all_good(
    alloc: Global,
    input: &Input<'_>,
    memo: &mut Memo,
    place: usize,
    constraint: &Constraint,
    values: &[usize],
) -> Result<bool, OutOfMemory>
    requires stated { IsStated (shapes_of input.now) place constraint.now }
    requires within { AreNumbers input.now.graph.nodes values.now }
    requires alone { IsTrue (is_tested constraint.now.kind) }
    requires truthful { IsTruthful input.now memo.old }
    ensures says { IfOk result (λ b. Says b (NoneFails (Contains (terms_at input.now.graph.nodes values.now))
        (IsGoodNode input.now constraint.now.kind))) }
    ensures truthful { IsTruthful input.now memo.new }
{
    'values: for value in values {
        if !is_good(alloc, input, memo, place, constraint, *value)? {
            return Ok(false);
        }
    }
    Ok(true)
}

/// How many value nodes pass the test of the constraint.
#[cycle(conforming)]
fn count_good(
    alloc: Global,
    input: &Input<'_>,
    memo: &mut Memo,
    place: usize,
    constraint: &Constraint,
    values: &[usize],
) -> Result<u64, OutOfMemory>
    requires stated { IsStated (shapes_of input.now) place constraint.now }
    requires within { AreNumbers input.now.graph.nodes values.now }
    requires rises { IsStrictlyIncreasing values.now }
    requires alone { IsTrue (is_tested constraint.now.kind) }
    requires truthful { IsTruthful input.now memo.old }
    ensures says { IfOk result (λ n. Exactly term_cmp (λ y. Contains (terms_at input.now.graph.nodes values.now) y
        × IsGoodNode input.now constraint.now.kind y) n) }
    ensures truthful { IsTruthful input.now memo.new }
{
    let mut count = 0;
    'values: for value in values {
        let is_one = is_good(alloc, input, memo, place, constraint, *value)?;
        count = counted(count, is_one);
    }
    Ok(count)
}

/// Whether the value node passes the test of the constraint, which the triple at the place states.
#[cycle(conforming)]
pub(crate) fn is_good(
    alloc: Global,
    input: &Input<'_>,
    memo: &mut Memo,
    place: usize,
    constraint: &Constraint,
    value: usize,
) -> Result<bool, OutOfMemory>
    requires stated { IsStated (shapes_of input.now) place constraint.now }
    requires value { IsNodeNumber input.now value }
    requires alone { IsTrue (is_tested constraint.now.kind) }
    requires truthful { IsTruthful input.now memo.old }
    ensures says { IfOk result (λ b. Says b (IsGoodNode input.now constraint.now.kind (term_of input.now value))) }
    ensures truthful { IsTruthful input.now memo.new }
{
    match &constraint.kind {
        Kind::Class(class) => is_instance(alloc, input, memo, class, value),
        Kind::Not(shape) => Ok(!conforms_to(alloc, input, memo, *shape, value)?),
        Kind::Node(shape) => conforms_to(alloc, input, memo, *shape, value),
        Kind::Property(shape) => conforms_to(alloc, input, memo, *shape, value),
        Kind::And(shapes) => conforms_to_all(
            alloc,
            input,
            memo,
            constraint.shape,
            shapes.as_slice(),
            value,
        ),
        Kind::Or(shapes) => conforms_to_any(
            alloc,
            input,
            memo,
            constraint.shape,
            shapes.as_slice(),
            value,
        ),
        Kind::Xone(shapes) => {
            Ok(
                count_conforming(
                    alloc,
                    input,
                    memo,
                    constraint.shape,
                    shapes.as_slice(),
                    value,
                )? == 1,
            )
        }
        Kind::QualifiedMinCount {
            shape,
            siblings,
            ..
        } => is_qualified(
            alloc,
            input,
            memo,
            constraint.shape,
            *shape,
            siblings.as_slice(),
            value,
        ),
        Kind::QualifiedMaxCount {
            shape,
            siblings,
            ..
        } => is_qualified(
            alloc,
            input,
            memo,
            constraint.shape,
            *shape,
            siblings.as_slice(),
            value,
        ),
        _ => Ok(good_node(input.shapes, place, input.term(value))),
    }
}

/// Whether the node conforms to the shape and to none of the siblings (SHACL 2017, section 4.7.3). The
/// shape `owner` refers to all of them.
#[cycle(conforming)]
fn is_qualified(
    alloc: Global,
    input: &Input<'_>,
    memo: &mut Memo,
    owner: usize,
    shape: usize,
    siblings: &[u64],
    node: usize,
) -> Result<bool, OutOfMemory>
    requires lower { AreLower (shapes_of input.now) owner (shape ∷ siblings.now) }
    requires node { IsNodeNumber input.now node }
    requires truthful { IsTruthful input.now memo.old }
    ensures says { IfOk result (λ b. Says b (IsConforming input.now shape (term_of input.now node)
        × EachOf (λ u. ¬ (IsConforming input.now u (term_of input.now node))) siblings.now)) }
    ensures truthful { IsTruthful input.now memo.new }
{
    if !conforms_to(alloc, input, memo, shape, node)? {
        return Ok(false);
    }
    Ok(!conforms_to_any(alloc, input, memo, owner, siblings, node)?)
}

/// Whether the node conforms to all of the shapes, to which the shape `owner` refers.
#[cycle(conforming)]
fn conforms_to_all(
    alloc: Global,
    input: &Input<'_>,
    memo: &mut Memo,
    owner: usize,
    shapes: &[u64],
    node: usize,
) -> Result<bool, OutOfMemory>
    requires lower { AreLower (shapes_of input.now) owner shapes.now }
    requires node { IsNodeNumber input.now node }
    requires truthful { IsTruthful input.now memo.old }
    ensures says { IfOk result (λ b. Says b
        (EachOf (λ u. IsConforming input.now u (term_of input.now node)) shapes.now)) }
    ensures truthful { IsTruthful input.now memo.new }
{
    'shapes: for shape in shapes {
        if !conforms_to(alloc, input, memo, *shape as usize, node)? {
            return Ok(false);
        }
    }
    Ok(true)
}

/// Whether the node conforms to one or more of the shapes, to which the shape `owner` refers.
#[cycle(conforming)]
fn conforms_to_any(
    alloc: Global,
    input: &Input<'_>,
    memo: &mut Memo,
    owner: usize,
    shapes: &[u64],
    node: usize,
) -> Result<bool, OutOfMemory>
    requires lower { AreLower (shapes_of input.now) owner shapes.now }
    requires node { IsNodeNumber input.now node }
    requires truthful { IsTruthful input.now memo.old }
    ensures says { IfOk result (λ b. Says b
        (SomeOf (λ u. IsConforming input.now u (term_of input.now node)) shapes.now)) }
    ensures truthful { IsTruthful input.now memo.new }
{
    'shapes: for shape in shapes {
        if conforms_to(alloc, input, memo, *shape as usize, node)? {
            return Ok(true);
        }
    }
    Ok(false)
}

/// To how many of the shapes, which are distinct and to which the shape `owner` refers, the node
/// conforms.
#[cycle(conforming)]
fn count_conforming(
    alloc: Global,
    input: &Input<'_>,
    memo: &mut Memo,
    owner: usize,
    shapes: &[u64],
    node: usize,
) -> Result<u64, OutOfMemory>
    requires lower { AreLower (shapes_of input.now) owner shapes.now }
    requires once { AreDistinct shapes.now }
    requires node { IsNodeNumber input.now node }
    requires truthful { IsTruthful input.now memo.old }
    ensures says { IfOk result (λ n. Exactly nat_cmp (λ u. Contains shapes.now u
        × IsConforming input.now u (term_of input.now node)) n) }
    ensures truthful { IsTruthful input.now memo.new }
{
    let mut count = 0;
    'shapes: for shape in shapes {
        let is_one = conforms_to(alloc, input, memo, *shape as usize, node)?;
        count = counted(count, is_one);
    }
    Ok(count)
}
