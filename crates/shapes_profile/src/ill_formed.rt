ghost use Rattle.std.specs.Prelude.{◌≡◌, IfOk, IfSome, IfNone};
ghost use Rattle.shapes_profile.specs.Logic.{IsFirst, NoneOf};
ghost use Rattle.shapes_profile.specs.Shapes.{shape_terms};
ghost use Rattle.shapes_profile.specs.IllFormed.{IsIllFormed, IsSmallestRule};
ghost use Rattle.shapes_profile.specs.RuleTable.{rule_of};

use crate::rules::{
    cannot_be_shape, has_other_value, has_property_of_path, has_two, has_value_no_list,
    has_value_no_path, is_node_shape_with_path, lacks_path,
};
use crate::shape_nodes::ShapeNodes;
use property_paths::PathDepths;
use rdf_terms::{OutOfMemory, Term};
use std::alloc::Global;

/// The smallest rule that a shape breaks.
fn rule_of(
    alloc: Global,
    shapes: &ShapeNodes<'_>,
    paths: &PathDepths<'_>,
    shape: &Term,
) -> Result<Option<u8>, OutOfMemory>
    requires { paths.now ≡ shapes.now }
    ensures { IfOk result (λ o. o ≡ rule_of shapes.now shape.now) }
{
    let declarations = shapes.declarations();
    let graph = shapes.graph();
    if cannot_be_shape(declarations, shape) {
        return Ok(Some(1));
    }
    if has_two(graph, shape) {
        return Ok(Some(2));
    }
    if lacks_path(declarations, shape) {
        return Ok(Some(3));
    }
    if is_node_shape_with_path(declarations, shape) {
        return Ok(Some(4));
    }
    if has_value_no_path(paths, graph, shape) {
        return Ok(Some(5));
    }
    if has_property_of_path(graph, shape) {
        return Ok(Some(6));
    }
    if has_value_no_list(declarations, shape) {
        return Ok(Some(7));
    }
    if has_other_value(alloc, shapes, shape)? {
        return Ok(Some(8));
    }
    Ok(None)
}

/// A shape and the smallest rule that it breaks.
#[derive(Drop)]
pub struct IllFormedShape<'s> {
    pub node: &'s Term,
    pub rule: u8,
}

/// The first shape that breaks a rule, and the smallest rule that it breaks.
pub fn first_ill_formed<'s>(
    alloc: Global,
    shapes: &'s ShapeNodes<'_>,
    paths: &PathDepths<'_>,
) -> Result<Option<IllFormedShape<'s>>, OutOfMemory>
    requires { paths.now ≡ shapes.now }
    ensures some { IfOk result (λ o. IfSome o (λ i.
        IsFirst (IsIllFormed shapes.now) (shape_terms shapes.now) i.node.now)) }
    ensures rule { IfOk result (λ o. IfSome o (λ i. IsSmallestRule shapes.now i.node.now i.rule)) }
    ensures none { IfOk result (λ o. IfNone o (NoneOf (IsIllFormed shapes.now) (shape_terms shapes.now))) }
{
    'seeking: for shape in shapes.as_slice() {
        if let Some(rule) = rule_of(alloc, shapes, paths, shape)? {
            return Ok(Some(IllFormedShape { node: shape, rule }));
        }
    }
    Ok(None)
}
