ghost use Rattle.std.specs.Prelude.{◌≡◌, ◌&&◌, IfOk, not, is_none, length, nat_lt};
ghost use Rattle.std.specs.List.{list_any, list_all};
ghost use Rattle.property_paths.specs.PathTable.{listed_depth};
ghost use Rattle.rdf_navigation.specs.Lists.{is_blank, members};
ghost use Rattle.rdf_navigation.specs.Values.{among, values, has_values};
ghost use Rattle.shapes_profile.specs.Properties.{table, iri_of};
ghost use Rattle.shapes_profile.specs.IllFormed.{node_kinds, is_string, is_expected};
ghost use Rattle.shapes_profile.specs.IllFormed.{cannot_be_shape, has_two, lacks_path, is_node_shape_with_path};
ghost use Rattle.shapes_profile.specs.IllFormed.{has_property_of_path, has_value_no_path};
ghost use Rattle.shapes_profile.specs.IllFormed.{has_value_no_list, has_other_value};
ghost use Rattle.shapes_profile.specs.Shapes.{is_property_shape, is_shape};
ghost use Rattle.rdf_terms.specs.Statement.{is_iri};

use crate::declarations::Declarations;
use crate::properties::{Expected, Row, table};
use crate::shape_nodes::ShapeNodes;
use datatypes::{boolean_of, count_of, small_integer};
use property_paths::{PathDepths, is_one_of};
use rdf_navigation::{Lists, count_values, has_subjects, has_values};
use rdf_terms::vocab::{sh, xsd};
use rdf_terms::{Graph, OutOfMemory, Term, Triple};
use std::alloc::Global;

/// The values of `sh:nodeKind`.
const NODE_KINDS: [&str; 6] = [
    sh::IRI,
    sh::BLANK_NODE,
    sh::LITERAL,
    sh::BLANK_NODE_OR_IRI,
    sh::BLANK_NODE_OR_LITERAL,
    sh::IRI_OR_LITERAL,
];

fn is_node_kind(term: &Term) -> bool
    ensures { result ≡ among node_kinds term.now }
{
    is_one_of(term, &NODE_KINDS)
}

fn is_blank(term: &Term) -> bool
    ensures { result ≡ is_blank term.now }
{
    match term {
        Term::Blank { .. } => true,
        Term::Iri(_) | Term::Literal { .. } => false,
    }
}

fn is_string(term: &Term) -> bool
    ensures { result ≡ is_string term.now }
{
    match term {
        Term::Literal { datatype, .. } => datatype.as_str() == xsd::STRING,
        Term::Iri(_) | Term::Blank { .. } => false,
    }
}

/// Whether all terms are `xsd:string` literals.
fn are_strings(terms: &[Term]) -> bool
    ensures { result ≡ list_all is_string terms.now }
{
    terms.iter().all(|term| is_string(term))
}

/// Rule 1: a literal is no shape, and a blank node that is a class and declared as a shape is no implicit
/// class.
pub fn cannot_be_shape(declarations: &Declarations<'_>, shape: &Term) -> bool
    ensures { result ≡ cannot_be_shape declarations.now shape.now }
{
    !shape.is_node()
        || (is_blank(shape) && declarations.is_class(shape) && declarations.is_declared(shape))
}

fn has_two_values(graph: &Graph, shape: &Term, row: &Row) -> bool
    ensures { result ≡ nat_lt 1 (length (values graph.now shape.now (iri_of row.now.property))) }
{
    count_values(graph, shape, row.property.iri()) > 1
}

/// Rule 2: two values of an at-most-one property.
pub fn has_two(graph: &Graph, shape: &Term) -> bool
    ensures { result ≡ has_two graph.now shape.now }
{
    table()
        .iter()
        .any(|row| row.at_most_one && has_two_values(graph, shape, row))
}

/// Whether it has a path, as a property shape.
pub fn is_property_shape(graph: &Graph, shape: &Term) -> bool
    ensures { result ≡ is_property_shape graph.now shape.now }
{
    has_values(graph, shape, sh::PATH)
}

/// Rule 3: a SHACL instance of `sh:PropertyShape` or a value of `sh:property`, without `sh:path`.
pub fn lacks_path(declarations: &Declarations<'_>, shape: &Term) -> bool
    ensures { result ≡ lacks_path declarations.now shape.now }
{
    let graph = declarations.graph();
    (declarations.is_declared_property_shape(shape) || has_subjects(graph, sh::PROPERTY, shape))
        && !is_property_shape(graph, shape)
}

/// Rule 4: a SHACL instance of `sh:NodeShape`, with `sh:path`.
pub fn is_node_shape_with_path(declarations: &Declarations<'_>, shape: &Term) -> bool
    ensures { result ≡ is_node_shape_with_path declarations.now shape.now }
{
    declarations.is_declared_node_shape(shape) && is_property_shape(declarations.graph(), shape)
}

fn is_no_path(paths: &PathDepths<'_>, triple: &Triple) -> bool
    ensures { result ≡ is_none (listed_depth paths.now triple.now.object) }
{
    paths.depth_of(&triple.object).is_none()
}

fn has_object_no_path(paths: &PathDepths<'_>, triples: &[Triple]) -> bool
    ensures { result ≡ list_any (λ t. is_none (listed_depth paths.now t.object)) triples.now }
{
    triples.iter().any(|triple| is_no_path(paths, triple))
}

/// Rule 5: its `sh:path` value is no path.
pub fn has_value_no_path(paths: &PathDepths<'_>, graph: &Graph, shape: &Term) -> bool
    requires { graph.now ≡ paths.now }
    ensures { result ≡ has_value_no_path paths.now shape.now }
{
    has_object_no_path(paths, graph.triples_of(shape, sh::PATH))
}

fn has_row(graph: &Graph, shape: &Term, row: &Row) -> bool
    ensures { result ≡ has_values graph.now shape.now (iri_of row.now.property) }
{
    has_values(graph, shape, row.property.iri())
}

fn has_property_for_paths(graph: &Graph, shape: &Term) -> bool
    ensures { result
        ≡ list_any (λ r. r.property_shape_only && has_values graph.now shape.now (iri_of r.property)) table }
{
    table().iter().any(|row| row.property_shape_only && has_row(graph, shape, row))
}

/// Rule 6: a node shape with a property that is for property shapes only.
pub fn has_property_of_path(graph: &Graph, shape: &Term) -> bool
    ensures { result ≡ has_property_of_path graph.now shape.now }
{
    !is_property_shape(graph, shape) && has_property_for_paths(graph, shape)
}

fn is_no_list(lists: &Lists<'_>, triple: &Triple) -> bool
    ensures { result ≡ is_none (members lists.now triple.now.object) }
{
    !lists.is_list(&triple.object)
}

fn has_object_no_list(lists: &Lists<'_>, triples: &[Triple]) -> bool
    ensures { result ≡ list_any (λ t. is_none (members lists.now t.object)) triples.now }
{
    triples.iter().any(|triple| is_no_list(lists, triple))
}

fn has_no_list_in_row(declarations: &Declarations<'_>, shape: &Term, row: &Row) -> bool
    ensures { result ≡ list_any (λ y. is_none (members declarations.now y))
        (values declarations.now shape.now (iri_of row.now.property)) }
{
    let triples = declarations.graph().triples_of(shape, row.property.iri());
    has_object_no_list(declarations.lists(), triples)
}

/// Rule 7: a value that must be a list is no SHACL list.
pub fn has_value_no_list(declarations: &Declarations<'_>, shape: &Term) -> bool
    ensures { result ≡ has_value_no_list declarations.now shape.now }
{
    table().iter().any(|row| row.value.is_list() && has_no_list_in_row(declarations, shape, row))
}

/// Whether all terms are IRIs.
fn are_iris(terms: &[Term]) -> bool
    ensures { result ≡ list_all is_iri terms.now }
{
    terms.iter().all(|term| term.is_iri())
}

/// Whether all terms are shapes.
fn are_shapes(shapes: &ShapeNodes<'_>, terms: &[Term]) -> bool
    ensures { result ≡ list_all (is_shape shapes.now) terms.now }
{
    terms.iter().all(|term| shapes.is_shape(term))
}

/// Whether a value of a property, or each member of a list, is of the kind in the table.
fn is_expected(
    alloc: Global,
    shapes: &ShapeNodes<'_>,
    expected: Expected,
    value: &Term,
) -> Result<bool, OutOfMemory>
    ensures { IfOk result (λ b. b ≡ is_expected shapes.now expected value.now) }
{
    match expected {
        Expected::Iri => Ok(value.is_iri()),
        Expected::NodeKind => Ok(is_node_kind(value)),
        Expected::Count => Ok(count_of(value).is_some()),
        Expected::Integer => Ok(small_integer(value).is_some()),
        Expected::Boolean => Ok(boolean_of(value).is_some()),
        Expected::ListOfStrings => {
            let members = shapes.declarations().members_or_none(alloc, value)?;
            Ok(are_strings(members.as_slice()))
        }
        Expected::ListOfIris => {
            let members = shapes.declarations().members_or_none(alloc, value)?;
            Ok(are_iris(members.as_slice()))
        }
        Expected::ListOfTerms => Ok(true),
        Expected::AnyTerm => Ok(true),
        Expected::Shape => Ok(shapes.is_shape(value)),
        Expected::ListOfShapes => {
            let members = shapes.declarations().members_or_none(alloc, value)?;
            Ok(are_shapes(shapes, members.as_slice()))
        }
        Expected::Path => Ok(true),
        Expected::IriOrLiteral => Ok(!is_blank(value)),
    }
}

/// Whether a value of the property of a row isn't of its kind.
fn has_other_value_in_row(
    alloc: Global,
    shapes: &ShapeNodes<'_>,
    shape: &Term,
    row: &Row,
) -> Result<bool, OutOfMemory>
    ensures { IfOk result (λ b. b ≡ list_any (λ y. not (is_expected shapes.now row.now.value y))
        (values shapes.now shape.now (iri_of row.now.property))) }
{
    let mut found = false;
    'values: for triple in shapes.graph().triples_of(shape, row.property.iri()) {
        found |= !is_expected(alloc, shapes, row.value, &triple.object)?;
    }
    Ok(found)
}

/// Rule 8: another value, or a member of a list, isn't of the kind in the table.
pub fn has_other_value(
    alloc: Global,
    shapes: &ShapeNodes<'_>,
    shape: &Term,
) -> Result<bool, OutOfMemory>
    ensures { IfOk result (λ b. b ≡ has_other_value shapes.now shape.now) }
{
    let rows = table();
    let mut found = false;
    'rows: for row in &rows {
        found |= has_other_value_in_row(alloc, shapes, shape, row)?;
    }
    Ok(found)
}
