ghost use Rattle.std.specs.Prelude.{◌≡◌, ◌++◌, OnOk, IfOk, flat_map};
ghost use Rattle.std.specs.List.{list_any};
ghost use Rattle.rdf_terms.specs.declared.term.Term.TheVariants.{Iri};
ghost use Rattle.rdf_terms.specs.Nodes.{nodes_of_list};
ghost use Rattle.rdf_terms.specs.Vocab.Sh.{property as sh_property};
ghost use Rattle.rdf_navigation.specs.Values.{values, subjects};
ghost use Rattle.shapes_profile.specs.Shapes.{is_true_literal, has_true_value};
ghost use Rattle.shapes_profile.specs.References.{asks_for_siblings, qualified_shapes_under, siblings};
ghost use Rattle.shapes_profile.specs.References.{references_of_row, references};

use crate::declarations::Declarations;
use crate::properties::{Row, table};
use crate::shape_nodes::{push_copies, push_shapes_in};
use datatypes::boolean_of;
use rdf_navigation::{has_value, has_values, subjects};
use rdf_terms::vocab::sh;
use rdf_terms::{Graph, Nodes, OutOfMemory, Term, Terms, Triple};
use std::alloc::Global;

/// Whether the value is the literal `true` of `xsd:boolean`.
pub fn is_true_literal(value: &Term) -> bool
    ensures { result ≡ is_true_literal value.now }
{
    boolean_of(value).unwrap_or(false)
}

fn is_any_true_literal(triples: &[Triple]) -> bool
    ensures { result ≡ list_any (λ t. is_true_literal t.object) triples.now }
{
    triples.iter().any(|triple| is_true_literal(&triple.object))
}

/// Whether a value of the property for the node is the literal `true`.
pub fn has_true_value(graph: &Graph, node: &Term, property: &str) -> bool
    ensures { result ≡ has_true_value graph.now node.now (Iri property.now) }
{
    is_any_true_literal(graph.triples_of(node, property))
}

/// Whether siblings are asked for: `sh:qualifiedValueShapesDisjoint` is true, and there is a qualified
/// count.
fn asks_for_siblings(graph: &Graph, shape: &Term) -> bool
    ensures { result ≡ asks_for_siblings graph.now shape.now }
{
    has_true_value(graph, shape, sh::QUALIFIED_VALUE_SHAPES_DISJOINT)
        && (has_values(graph, shape, sh::QUALIFIED_MIN_COUNT)
            || has_values(graph, shape, sh::QUALIFIED_MAX_COUNT))
}

/// Appends copies of the values of the property for the node.
pub fn push_values(
    alloc: Global,
    terms: &mut Terms,
    graph: &Graph,
    node: &Term,
    property: &str,
) -> Result<(), OutOfMemory>
    ensures { OnOk result (terms.new ≡ terms.old ++ values graph.now node.now (Iri property.now)) }
{
    'values: for triple in graph.triples_of(node, property) {
        terms.push(triple.object.copy(alloc)?)?;
    }
    Ok(())
}

/// Appends the qualified shapes of all property shapes of a parent.
fn push_qualified_under(
    alloc: Global,
    terms: &mut Terms,
    graph: &Graph,
    parent: &Term,
) -> Result<(), OutOfMemory>
    ensures { OnOk result (terms.new ≡ terms.old ++ qualified_shapes_under graph.now parent.now) }
{
    'properties: for triple in graph.triples_of(parent, sh::PROPERTY) {
        push_values(
            alloc,
            terms,
            graph,
            &triple.object,
            sh::QUALIFIED_VALUE_SHAPE,
        )?;
    }
    Ok(())
}

/// The qualified shapes of all property shapes of all parents of a shape.
fn qualified_beside(alloc: Global, graph: &Graph, shape: &Term) -> Result<Nodes, OutOfMemory>
    ensures { IfOk result (λ n. n ≡ nodes_of_list
        (flat_map (qualified_shapes_under graph.now) (subjects graph.now sh_property shape.now))) }
{
    let parents = subjects(alloc, graph, sh::PROPERTY, shape)?;
    let mut terms = Terms::new(alloc);
    'parents: for parent in parents.as_slice() {
        push_qualified_under(alloc, &mut terms, graph, parent)?;
    }
    Nodes::from_terms(alloc, terms)
}

/// The sibling shapes of a shape, in order, none where they are not asked for (SHACL 2017, section 4.7.3):
/// the qualified shapes of all property shapes of all its parents, without its own.
pub fn siblings(alloc: Global, graph: &Graph, shape: &Term) -> Result<Terms, OutOfMemory>
    ensures { IfOk result (λ ts. ts ≡ siblings graph.now shape.now) }
{
    let mut siblings = Terms::new(alloc);
    if !asks_for_siblings(graph, shape) {
        return Ok(siblings);
    }
    let beside = qualified_beside(alloc, graph, shape)?;
    'beside: for other in beside.as_slice() {
        if !has_value(graph, shape, sh::QUALIFIED_VALUE_SHAPE, other) {
            siblings.push(other.copy(alloc)?)?;
        }
    }
    Ok(siblings)
}

/// Appends the shapes that the values of the property of a row refer to.
fn push_references_of_row(
    alloc: Global,
    terms: &mut Terms,
    declarations: &Declarations<'_>,
    shape: &Term,
    row: &Row,
) -> Result<(), OutOfMemory>
    ensures { OnOk result (terms.new ≡ terms.old ++ references_of_row declarations.now shape.now row.now) }
{
    'values: for triple in declarations.graph().triples_of(shape, row.property.iri()) {
        push_shapes_in(alloc, terms, declarations, row.value, &triple.object)?;
    }
    Ok(())
}

/// The shapes that a shape refers to.
pub fn references(
    alloc: Global,
    declarations: &Declarations<'_>,
    shape: &Term,
) -> Result<Terms, OutOfMemory>
    ensures { IfOk result (λ ts. ts ≡ references declarations.now shape.now) }
{
    let mut terms = Terms::new(alloc);
    let rows = table();
    'rows: for row in &rows {
        push_references_of_row(alloc, &mut terms, declarations, shape, row)?;
    }
    let beside = siblings(alloc, declarations.graph(), shape)?;
    push_copies(alloc, &mut terms, beside.as_slice())?;
    Ok(terms)
}
