ghost use Rattle.std.specs.Prelude.{◌≡◌, ◌++◌, OnOk, IfOk, Some};
ghost use Rattle.shapes_profile.specs.Shapes.{shapes_in, shapes_by, shapes_of, declared_subjects, shape_nodes};
ghost use Rattle.shapes_profile.specs.Shapes.{shape_terms, is_shape};

use crate::declarations::{Declarations, has_node};
use crate::properties::{Expected, Row, row_of};
use rdf_terms::{Graph, Nodes, OutOfMemory, Term, Terms, Triple};
use std::alloc::Global;
use std::marker::Model;

/// Appends what a value of a property refers to: itself where the property expects a shape, its
/// members where it expects a list of shapes.
pub fn push_shapes_in(
    alloc: Global,
    terms: &mut Terms,
    declarations: &Declarations<'_>,
    expected: Expected,
    value: &Term,
) -> Result<(), OutOfMemory>
    ensures { OnOk result (terms.new ≡ terms.old ++ shapes_in declarations.now expected value.now) }
{
    match expected {
        Expected::Shape => {
            terms.push(value.copy(alloc)?)?;
            Ok(())
        }
        Expected::ListOfShapes => {
            let members = declarations.members_or_none(alloc, value)?;
            push_copies(alloc, terms, members.as_slice())
        }
        _ => Ok(()),
    }
}

/// Appends copies of the terms.
pub fn push_copies(alloc: Global, terms: &mut Terms, more: &[Term]) -> Result<(), OutOfMemory>
    ensures { OnOk result (terms.new ≡ terms.old ++ more.now) }
{
    'copying: for term in more {
        terms.push(term.copy(alloc)?)?;
    }
    Ok(())
}

/// Appends the shapes that a triple with the property of a row makes.
fn push_shapes_by(
    alloc: Global,
    terms: &mut Terms,
    declarations: &Declarations<'_>,
    triple: &Triple,
    row: Row,
) -> Result<(), OutOfMemory>
    ensures { OnOk result (terms.new ≡ terms.old ++ shapes_by declarations.now triple.now (Some row)) }
{
    if row.property.is_target() || row.property.is_parameter() {
        terms.push(triple.subject.copy(alloc)?)?;
    }
    push_shapes_in(alloc, terms, declarations, row.value, &triple.object)
}

/// Appends the shapes that a triple makes.
fn push_shapes_of(
    alloc: Global,
    terms: &mut Terms,
    declarations: &Declarations<'_>,
    triple: &Triple,
) -> Result<(), OutOfMemory>
    ensures { OnOk result (terms.new ≡ terms.old ++ shapes_of declarations.now triple.now) }
{
    match row_of(&triple.predicate) {
        Some(row) => push_shapes_by(alloc, terms, declarations, triple, row),
        None => Ok(()),
    }
}

/// Appends the subjects of triples that are declared as shapes.
fn push_declared(
    alloc: Global,
    terms: &mut Terms,
    declarations: &Declarations<'_>,
) -> Result<(), OutOfMemory>
    ensures { OnOk result (terms.new ≡ terms.old ++ declared_subjects declarations.now) }
{
    'subjects: for triple in declarations.graph().as_slice() {
        if declarations.is_declared(&triple.subject) {
            terms.push(triple.subject.copy(alloc)?)?;
        }
    }
    Ok(())
}

/// All shapes.
pub fn find_shapes(alloc: Global, declarations: &Declarations<'_>) -> Result<Nodes, OutOfMemory>
    ensures { IfOk result (λ n. n ≡ shape_nodes declarations.now) }
{
    let mut terms = Terms::new(alloc);
    push_declared(alloc, &mut terms, declarations)?;
    'triples: for triple in declarations.graph().as_slice() {
        push_shapes_of(alloc, &mut terms, declarations, triple)?;
    }
    Nodes::from_terms(alloc, terms)
}

/// A shapes graph with its declarations and its shapes. Contracts see the graph.
#[derive(Drop)]
pub struct ShapeNodes<'a> {
    declarations: Declarations<'a>,
    nodes: Nodes,
}

impl<'a> Model for ShapeNodes<'a> {
    ghost use Rattle.std.specs.Prelude.{◌≡◌};
    ghost use Rattle.rdf_terms.specs.Graph.{Graph as Triples, code};
    ghost use Rattle.shapes_profile.specs.Shapes.{shape_nodes};

    ghost Value = { Triples };

    ghost coded = { code };

    ghost view = { λ s. s.declarations };

    ghost invariant = { λ s. s.nodes ≡ shape_nodes s.declarations };
}

impl<'a> ShapeNodes<'a> {
    /// Finds the shapes of a graph.
    pub fn new(alloc: Global, graph: &'a Graph) -> Result<ShapeNodes<'a>, OutOfMemory>
        ensures { IfOk result (λ s. s ≡ graph.now) }
    {
        let declarations = Declarations::new(alloc, graph)?;
        let nodes = find_shapes(alloc, &declarations)?;
        Ok(ShapeNodes {
            declarations,
            nodes,
        })
    }

    /// The graph.
    pub fn graph(&self) -> &'a Graph
        ensures { result.now ≡ self.now }
    {
        self.declarations.graph()
    }

    /// Its declarations.
    pub fn declarations(&self) -> &Declarations<'a>
        ensures { result.now ≡ self.now }
    {
        &self.declarations
    }

    /// The shapes, in order.
    pub fn as_slice(&self) -> &[Term]
        ensures { result.now ≡ shape_terms self.now }
    {
        self.nodes.as_slice()
    }

    /// The shapes as a set.
    pub fn nodes(&self) -> &Nodes
        ensures { result.now ≡ shape_nodes self.now }
    {
        &self.nodes
    }

    /// Whether the node is a shape.
    pub fn is_shape(&self, node: &Term) -> bool
        ensures { result ≡ is_shape self.now node.now }
    {
        has_node(&self.nodes, node)
    }
}
