ghost use Rattle.std.specs.Prelude.{◌<◌, length};
ghost use Rattle.rdf_terms.specs.Graph.{triples};
ghost use Rattle.shapes_profile.specs.Shapes.{shape_terms};
ghost use Rattle.shapes_graph.specs.PathForms.{paths};

use crate::constraint_text::push_kind;
use crate::refusal::CaseError;
use crate::terms_text::{push_iri, push_numbers, push_term};
use rdf_terms::vocab::sh;
use shapes_graph::{PathForm, Shapes, Target};
use std::alloc::{AllocError, Global};

/// The number of the paths that every graph has.
const COMMON_PATHS: usize = 4;

/// Appends what a shapes graph says: how much it has, its shapes, and its paths.
pub fn push_shapes(alloc: Global, out: &mut String, shapes: &Shapes) -> Result<(), CaseError> {
    push_counts(out, shapes)?;
    for shape in 0..shapes.shape_count() {
        push_shape(alloc, out, shapes, shape)?;
    }
    for path in first_path(shapes)..shapes.path_count() {
        push_path(out, shapes, path)?;
    }
    Ok(())
}

fn push_counts(out: &mut String, shapes: &Shapes) -> Result<(), AllocError> {
    let triples = shapes.triples().len();
    let constraints = constraint_count(shapes);
    let shape_count = shapes.shape_count();
    let paths = shapes.path_count();
    write!(
        out,
        "triples {triples}, constraints {constraints}, shapes {shape_count}, paths {paths}\n"
    )
}

/// How many triples state constraints.
fn constraint_count(shapes: &Shapes) -> usize {
    (0..shapes.triples().len())
        .filter(|place| shapes.constraint(*place).is_some())
        .count()
}

/// The first path to be listed: those that every graph has are listed for the empty graph alone.
fn first_path(shapes: &Shapes) -> usize {
    if shapes.triples().is_empty() {
        return 0;
    }
    COMMON_PATHS
}

/// Appends the lines of the shape of this number: its term, its severity where it is no
/// `sh:Violation`, its targets, and its constraints by the places of their triples.
fn push_shape(
    alloc: Global,
    out: &mut String,
    shapes: &Shapes,
    shape: usize,
) -> Result<(), CaseError>
    requires { shape < length (shape_terms shapes.now) }
{
    push_head(alloc, out, shapes, shape)?;
    push_severity(alloc, out, shapes, shape)?;
    for target in shapes.targets_of(shape) {
        push_target(alloc, out, target)?;
    }
    for place in shapes.constraints_of(shape) {
        push_constraint(alloc, out, shapes, *place)?;
    }
    Ok(())
}

fn push_head(
    alloc: Global,
    out: &mut String,
    shapes: &Shapes,
    shape: usize,
) -> Result<(), CaseError>
    requires { shape < length (shape_terms shapes.now) }
{
    write!(out, "shape {shape}")?;
    push_term(alloc, out, "", shapes.shape_term(shape))?;
    if let Some(path) = shapes.path_of(shape) {
        write!(out, ", path {path}")?;
    }
    if shapes.deactivated(shape) {
        out.push_str(", deactivated")?;
    }
    out.push('\n')?;
    Ok(())
}

fn push_severity(
    alloc: Global,
    out: &mut String,
    shapes: &Shapes,
    shape: usize,
) -> Result<(), CaseError>
    requires { shape < length (shape_terms shapes.now) }
{
    let severity = shapes.severity(shape);
    if !severity.is_named(sh::VIOLATION) {
        push_term(alloc, out, "  severity", severity)?;
        out.push('\n')?;
    }
    Ok(())
}

fn push_target(alloc: Global, out: &mut String, target: &Target) -> Result<(), CaseError> {
    match target {
        Target::Node(node) => push_term(alloc, out, "  target node", node)?,
        Target::Class(class) => push_term(alloc, out, "  target class", class)?,
        Target::SubjectsOf(property) => push_iri(out, "  target subjects of", property)?,
        Target::ObjectsOf(property) => push_iri(out, "  target objects of", property)?,
    }
    out.push('\n')?;
    Ok(())
}

/// Appends the line of the constraint that the triple at the place states.
fn push_constraint(
    alloc: Global,
    out: &mut String,
    shapes: &Shapes,
    place: usize,
) -> Result<(), CaseError>
    requires { place < length (triples shapes.now) }
{
    if let Some(constraint) = shapes.constraint(place) {
        write!(out, "  at {place}: ")?;
        push_kind(alloc, out, &constraint.kind)?;
        out.push('\n')?;
    }
    Ok(())
}

fn push_path(out: &mut String, shapes: &Shapes, path: usize) -> Result<(), AllocError>
    requires { path < length (paths shapes.now) }
{
    write!(out, "path {path} ")?;
    push_form(out, shapes.path(path))?;
    out.push('\n')
}

fn push_form(out: &mut String, form: &PathForm) -> Result<(), AllocError> {
    match form {
        PathForm::Predicate(iri) => push_iri(out, "predicate", iri),
        PathForm::Inverse(part) => write!(out, "inverse {part}"),
        PathForm::Sequence(first, next) => write!(out, "sequence {first} {next}"),
        PathForm::Alternative(parts) => push_numbers(out, "alternative", parts.as_slice()),
        PathForm::ZeroOrMore(part) => write!(out, "zero or more {part}"),
        PathForm::OneOrMore(part) => write!(out, "one or more {part}"),
        PathForm::ZeroOrOne(part) => write!(out, "zero or one {part}"),
    }
}
