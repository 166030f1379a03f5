use crate::case_text::{Case, Document};
use crate::refusal::CaseError;
use ntriples_io::{NtRefusal, read_ntriples};
use rdf_terms::{Graph, Scope};
use repair_problem::Problem;
use shapes_graph::{ShapeRefusal, Shapes, read_shapes};
use std::alloc::Global;

/// The problem of the graphs of a case.
pub fn problem_of(alloc: Global, case: &Case) -> Result<Problem, CaseError> {
    let shapes = shapes_of(alloc, case)?;
    let present = graph_of(alloc, Scope::Data, &case.data)?;
    let offered = graph_of(alloc, Scope::Data, &case.offered)?;
    Ok(Problem::new(alloc, shapes, present, offered)?)
}

/// What the shapes graph of a case states.
fn shapes_of(alloc: Global, case: &Case) -> Result<Shapes, CaseError> {
    let graph = graph_of(alloc, Scope::Shapes, &case.shapes)?;
    match read_shapes(alloc, graph) {
        Ok(shapes) => Ok(shapes),
        Err(ShapeRefusal::OutOfMemory) => Err(CaseError::OutOfMemory),
        Err(_) => Err(CaseError::Shapes {
            line: case.shapes.before,
        }),
    }
}

/// The graph that a document is.
fn graph_of(alloc: Global, scope: Scope, document: &Document) -> Result<Graph, CaseError> {
    match read_ntriples(alloc, scope, document.text.as_str().as_bytes()) {
        Ok(graph) => Ok(graph),
        Err(NtRefusal::Syntax { line }) => Err(CaseError::Line {
            line: document.before.saturating_add(line),
        }),
        Err(NtRefusal::OutOfMemory) => Err(CaseError::OutOfMemory),
    }
}
