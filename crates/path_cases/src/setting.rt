use crate::case_text::{Case, Document};
use crate::refusal::CaseError;
use ntriples_io::{NtRefusal, read_ntriples};
use rdf_terms::{Graph, Scope};
use shapes_graph::{ShapeRefusal, Shapes, read_shapes};
use std::alloc::Global;

/// The graphs of a case, read.
#[derive(Drop)]
pub struct Setting {
    pub shapes: Shapes,
    pub data: Graph,
    /// Whether terms are counted, and not listed.
    pub counted: bool,
}

impl Setting {
    /// Reads the graphs of a case.
    pub fn new(alloc: Global, case: &Case) -> Result<Setting, CaseError> {
        Ok(Setting {
            shapes: shapes_of(alloc, case)?,
            data: graph_of(alloc, Scope::Data, &case.data)?,
            counted: case.counted,
        })
    }
}

/// What the shapes graph of a case states.
fn shapes_of(alloc: Global, case: &Case) -> Result<Shapes, CaseError> {
    let graph = graph_of(alloc, Scope::Shapes, &case.shapes)?;
    match read_shapes(alloc, graph) {
        Ok(shapes) => Ok(shapes),
        Err(ShapeRefusal::OutOfMemory) => Err(CaseError::OutOfMemory),
        Err(_) => Err(CaseError::Shapes {
            line: case.shapes.before,
        }),
    }
}

/// The graph that a document is.
fn graph_of(alloc: Global, scope: Scope, document: &Document) -> Result<Graph, CaseError> {
    match read_ntriples(alloc, scope, document.text.as_str().as_bytes()) {
        Ok(graph) => Ok(graph),
        Err(NtRefusal::Syntax { line }) => Err(CaseError::Line {
            line: document.before.saturating_add(line),
        }),
        Err(NtRefusal::OutOfMemory) => Err(CaseError::OutOfMemory),
    }
}
