ghost use Rattle.std.specs.Prelude.{◌≡◌, ◌++◌, OnOk, IfOk};
ghost use Rattle.std.specs.Prelude.{filter, flat_map};
ghost use Rattle.rdf_terms.specs.Statement.{is_iri};
ghost use Rattle.rdf_terms.specs.Vocab.Sh.{path as sh_path, property as sh_property};
ghost use Rattle.rdf_terms.specs.Vocab.Sh.{ignored_properties as sh_ignored_properties};
ghost use Rattle.rdf_navigation.specs.Values.{values};
ghost use Rattle.shapes_profile.specs.Shapes.{members_or_none};
ghost use Rattle.shapes_graph.specs.PathForms.{text_of};
ghost use Rattle.shapes_graph.specs.Constraints.{count, distinct, allowed, shape_numbers};
ghost use Rattle.shapes_graph.specs.Constraints.{sibling_numbers, qualified_shape, kind_of};
ghost use Rattle.shapes_profile.specs.declared.properties.Property.TheVariants.{QualifiedMinCount, QualifiedMaxCount};

use crate::constraints::Kind;
use crate::shape_numbers::{number_of, numbers_of};
use datatypes::count_of;
use rdf_navigation::value_of;
use rdf_terms::vocab::sh;
use rdf_terms::{Graph, Nodes, OutOfMemory, Places, Term, Terms, Text};
use shapes_profile::{Declarations, Property, ShapeNodes, is_true_literal, push_copies, siblings};
use std::alloc::Global;

/// The characters of an IRI, the label of a blank node or the lexical form of a literal.
pub fn text_of(alloc: Global, term: &Term) -> Result<Text, OutOfMemory>
    ensures { IfOk result (λ t. t ≡ text_of term.now) }
{
    match term {
        Term::Iri(text) => text.copy(alloc),
        Term::Blank { label, .. } => label.copy(alloc),
        Term::Literal { lexical, .. } => lexical.copy(alloc),
    }
}

/// The count that the term states, and 0 where it states none.
fn count(term: &Term) -> u64
    ensures { result ≡ count term.now }
{
    count_of(term).unwrap_or(0)
}

/// The terms in order, each once.
fn distinct(alloc: Global, terms: Terms) -> Result<Terms, OutOfMemory>
    ensures { IfOk result (λ ts. ts ≡ distinct terms) }
{
    let nodes = Nodes::from_terms(alloc, terms)?;
    let mut copies = Terms::new(alloc);
    push_copies(alloc, &mut copies, nodes.as_slice())?;
    Ok(copies)
}

/// The numbers of the members of the list, in its order.
fn numbers_in(alloc: Global, shapes: &ShapeNodes<'_>, list: &Term) -> Result<Places, OutOfMemory>
    ensures { IfOk result (λ ns. ns ≡ shape_numbers shapes.now (members_or_none shapes.now list.now)) }
{
    let members = shapes.declarations().members_or_none(alloc, list)?;
    numbers_of(alloc, shapes, members.as_slice())
}

/// The numbers of the members of the list, ascending, each once.
fn distinct_numbers_in(
    alloc: Global,
    shapes: &ShapeNodes<'_>,
    list: &Term,
) -> Result<Places, OutOfMemory>
    ensures { IfOk result (λ ns. ns ≡ shape_numbers shapes.now (distinct (members_or_none shapes.now list.now))) }
{
    let members = shapes.declarations().members_or_none(alloc, list)?;
    let members = distinct(alloc, members)?;
    numbers_of(alloc, shapes, members.as_slice())
}

/// The numbers of the sibling shapes of a shape, ascending.
fn sibling_numbers(
    alloc: Global,
    shapes: &ShapeNodes<'_>,
    shape: &Term,
) -> Result<Places, OutOfMemory>
    ensures { IfOk result (λ ns. ns ≡ sibling_numbers shapes.now shape.now) }
{
    let siblings = siblings(alloc, shapes.graph(), shape)?;
    numbers_of(alloc, shapes, siblings.as_slice())
}

/// The number of the qualified shape, where there is one.
fn qualified_shape(shapes: &ShapeNodes<'_>, shape: &Term) -> Option<usize>
    ensures { result ≡ qualified_shape shapes.now shape.now }
{
    match value_of(shapes.graph(), shape, sh::QUALIFIED_VALUE_SHAPE) {
        Some(other) => Some(number_of(shapes, other)),
        None => None,
    }
}

/// Appends the values of `sh:path` for a property shape that are IRIs.
fn push_paths(
    alloc: Global,
    terms: &mut Terms,
    graph: &Graph,
    shape: &Term,
) -> Result<(), OutOfMemory>
    ensures { OnOk result (terms.new ≡ terms.old ++ filter is_iri (values graph.now shape.now sh_path)) }
{
    'paths: for triple in graph.triples_of(shape, sh::PATH) {
        if triple.object.is_iri() {
            terms.push(triple.object.copy(alloc)?)?;
        }
    }
    Ok(())
}

/// Appends the values of `sh:path` for all property shapes of a shape that are IRIs.
fn push_property_paths(
    alloc: Global,
    terms: &mut Terms,
    graph: &Graph,
    shape: &Term,
) -> Result<(), OutOfMemory>
    ensures { OnOk result (terms.new ≡ terms.old
        ++ filter is_iri (flat_map (λ p. values graph.now p sh_path) (values graph.now shape.now sh_property))) }
{
    'properties: for triple in graph.triples_of(shape, sh::PROPERTY) {
        push_paths(alloc, terms, graph, &triple.object)?;
    }
    Ok(())
}

/// Appends the properties that a shape ignores.
fn push_ignored(
    alloc: Global,
    terms: &mut Terms,
    declarations: &Declarations<'_>,
    shape: &Term,
) -> Result<(), OutOfMemory>
    ensures { OnOk result (terms.new ≡ terms.old
        ++ flat_map (λ o. members_or_none declarations.now o)
        (values declarations.now shape.now sh_ignored_properties)) }
{
    'lists: for triple in declarations
        .graph()
        .triples_of(shape, sh::IGNORED_PROPERTIES)
    {
        let members = declarations.members_or_none(alloc, &triple.object)?;
        push_copies(alloc, terms, members.as_slice())?;
    }
    Ok(())
}

/// The predicates that a closed shape allows, ascending, each once (SHACL 2017, section 4.8.1).
fn allowed(
    alloc: Global,
    declarations: &Declarations<'_>,
    shape: &Term,
) -> Result<Terms, OutOfMemory>
    ensures { IfOk result (λ ts. ts ≡ allowed declarations.now shape.now) }
{
    let mut terms = Terms::new(alloc);
    push_property_paths(alloc, &mut terms, declarations.graph(), shape)?;
    push_ignored(alloc, &mut terms, declarations, shape)?;
    distinct(alloc, terms)
}

/// What `sh:qualifiedMinCount` states, where the shape has a qualified shape.
fn qualified_min_count(
    alloc: Global,
    shapes: &ShapeNodes<'_>,
    shape: &Term,
    value: &Term,
) -> Result<Option<Kind>, OutOfMemory>
    ensures { IfOk result (λ k. k ≡ kind_of shapes.now shape.now value.now QualifiedMinCount) }
{
    match qualified_shape(shapes, shape) {
        Some(number) => Ok(Some(Kind::QualifiedMinCount {
            count: count(value),
            shape: number,
            siblings: sibling_numbers(alloc, shapes, shape)?,
        })),
        None => Ok(None),
    }
}

/// What `sh:qualifiedMaxCount` states, where the shape has a qualified shape.
fn qualified_max_count(
    alloc: Global,
    shapes: &ShapeNodes<'_>,
    shape: &Term,
    value: &Term,
) -> Result<Option<Kind>, OutOfMemory>
    ensures { IfOk result (λ k. k ≡ kind_of shapes.now shape.now value.now QualifiedMaxCount) }
{
    match qualified_shape(shapes, shape) {
        Some(number) => Ok(Some(Kind::QualifiedMaxCount {
            count: count(value),
            shape: number,
            siblings: sibling_numbers(alloc, shapes, shape)?,
        })),
        None => Ok(None),
    }
}

/// The constraint that a shape states by this property with this value, if the property is one that
/// states constraints; a qualified count only where there is a qualified shape.
pub fn kind_of(
    alloc: Global,
    shapes: &ShapeNodes<'_>,
    shape: &Term,
    value: &Term,
    property: Property,
) -> Result<Option<Kind>, OutOfMemory>
    ensures { IfOk result (λ k. k ≡ kind_of shapes.now shape.now value.now property) }
{
    match property {
        Property::Class => Ok(Some(Kind::Class(value.copy(alloc)?))),
        Property::Datatype => Ok(Some(Kind::Datatype(value.copy(alloc)?))),
        Property::NodeKind => Ok(Some(Kind::NodeKind(value.copy(alloc)?))),
        Property::MinExclusive => Ok(Some(Kind::MinExclusive(value.copy(alloc)?))),
        Property::MinInclusive => Ok(Some(Kind::MinInclusive(value.copy(alloc)?))),
        Property::MaxExclusive => Ok(Some(Kind::MaxExclusive(value.copy(alloc)?))),
        Property::MaxInclusive => Ok(Some(Kind::MaxInclusive(value.copy(alloc)?))),
        Property::MinLength => Ok(Some(Kind::MinLength(count(value)))),
        Property::MaxLength => Ok(Some(Kind::MaxLength(count(value)))),
        Property::LanguageIn => {
            let ranges = shapes.declarations().members_or_none(alloc, value)?;
            Ok(Some(Kind::LanguageIn(ranges)))
        }
        Property::In => {
            let members = shapes.declarations().members_or_none(alloc, value)?;
            Ok(Some(Kind::In(members)))
        }
        Property::Not => Ok(Some(Kind::Not(number_of(shapes, value)))),
        Property::Node => Ok(Some(Kind::Node(number_of(shapes, value)))),
        Property::And => Ok(Some(Kind::And(numbers_in(alloc, shapes, value)?))),
        Property::Or => Ok(Some(Kind::Or(numbers_in(alloc, shapes, value)?))),
        Property::Xone => Ok(Some(Kind::Xone(distinct_numbers_in(alloc, shapes, value)?))),
        Property::Property => Ok(Some(Kind::Property(number_of(shapes, value)))),
        Property::Closed => Ok(Some(Kind::Closed {
            on: is_true_literal(value),
            allowed: allowed(alloc, shapes.declarations(), shape)?,
        })),
        Property::Disjoint => Ok(Some(Kind::Disjoint(text_of(alloc, value)?))),
        Property::Equals => Ok(Some(Kind::Equals(text_of(alloc, value)?))),
        Property::HasValue => Ok(Some(Kind::HasValue(value.copy(alloc)?))),
        Property::UniqueLang => Ok(Some(Kind::UniqueLang(is_true_literal(value)))),
        Property::MinCount => Ok(Some(Kind::MinCount(count(value)))),
        Property::MaxCount => Ok(Some(Kind::MaxCount(count(value)))),
        Property::QualifiedMinCount => qualified_min_count(alloc, shapes, shape, value),
        Property::QualifiedMaxCount => qualified_max_count(alloc, shapes, shape, value),
        Property::Severity
        | Property::QualifiedValueShapesDisjoint
        | Property::Deactivated
        | Property::IgnoredProperties
        | Property::QualifiedValueShape
        | Property::Path
        | Property::TargetNode
        | Property::TargetClass
        | Property::TargetSubjectsOf
        | Property::TargetObjectsOf => Ok(None),
    }
}
