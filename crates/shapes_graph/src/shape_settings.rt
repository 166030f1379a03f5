ghost use Rattle.std.specs.Prelude.{◌≡◌, ℕ, false, IfOk, slice_get, unwrap_or, map};
ghost use Rattle.rdf_terms.specs.Vocab.Sh.{violation, severity as sh_severity, deactivated as sh_deactivated};
ghost use Rattle.rdf_navigation.specs.Values.{value_of};
ghost use Rattle.shapes_profile.specs.Shapes.{shape_terms, has_true_value};
ghost use Rattle.shapes_graph.specs.Constraints.{is_deactivated, severity_of};

use rdf_navigation::value_of;
use rdf_terms::vocab::sh;
use rdf_terms::{Graph, Items, OutOfMemory, Term, Terms, Text};
use shapes_profile::{ShapeNodes, has_true_value};
use std::alloc::Global;

/// For each shape, in order, whether it is deactivated (SHACL 2017, section 2.1.6).
pub fn deactivated(alloc: Global, shapes: &ShapeNodes<'_>) -> Result<Items<bool>, OutOfMemory>
    ensures all { IfOk result (λ bs. bs
        ≡ map (λ x. has_true_value shapes.now x sh_deactivated) (shape_terms shapes.now)) }
    ensures at { IfOk result (λ bs. (n : ℕ) → is_deactivated shapes.now n ≡ unwrap_or (slice_get bs n) false) }
{
    let mut flags = Items::new(alloc);
    'shapes: for shape in shapes.as_slice() {
        flags.push(has_true_value(shapes.graph(), shape, sh::DEACTIVATED))?;
    }
    Ok(flags)
}

/// The severity of the results of a shape: the value of `sh:severity`, or `sh:Violation`.
fn severity(alloc: Global, graph: &Graph, shape: &Term) -> Result<Term, OutOfMemory>
    ensures { IfOk result (λ t. t ≡ unwrap_or (value_of graph.now shape.now sh_severity) violation) }
{
    match value_of(graph, shape, sh::SEVERITY) {
        Some(severity) => severity.copy(alloc),
        None => Ok(Term::Iri(Text::from_str(alloc, sh::VIOLATION)?)),
    }
}

/// For each shape, in order, the severity of its results (SHACL 2017, section 2.1.4).
pub fn severities(alloc: Global, shapes: &ShapeNodes<'_>) -> Result<Terms, OutOfMemory>
    ensures all { IfOk result (λ ts. ts
        ≡ map (λ x. unwrap_or (value_of shapes.now x sh_severity) violation) (shape_terms shapes.now)) }
    ensures at { IfOk result (λ ts. (n : ℕ) → severity_of shapes.now n ≡ unwrap_or (slice_get ts n) violation) }
{
    let mut severities = Terms::new(alloc);
    'shapes: for shape in shapes.as_slice() {
        severities.push(severity(alloc, shapes.graph(), shape)?)?;
    }
    Ok(severities)
}
