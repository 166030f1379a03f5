use crate::case_text::Case;
use crate::refusal::CaseError;
use crate::shapes_text::push_shapes;
use crate::terms_text::push_term;
use ntriples_io::{NtRefusal, read_ntriples};
use rdf_terms::{Graph, Scope};
use shapes_graph::{ShapeRefusal, read_shapes};
use std::alloc::Global;

/// The name of a case, and what its shapes are, or why they are refused.
pub fn answer_of(alloc: Global, case: &Case) -> Result<String, CaseError> {
    let name = &case.name;
    let mut out = format!(in alloc; "== {name}\n")?;
    match read_shapes(alloc, graph_of(alloc, case)?) {
        Ok(shapes) => push_shapes(alloc, &mut out, &shapes)?,
        Err(refusal) => push_refusal(alloc, &mut out, &refusal)?,
    }
    Ok(out)
}

/// The graph that the document of a case is.
fn graph_of(alloc: Global, case: &Case) -> Result<Graph, CaseError> {
    let bytes = case.document.as_str().as_bytes();
    match read_ntriples(alloc, Scope::Shapes, bytes) {
        Ok(graph) => Ok(graph),
        Err(NtRefusal::Syntax { line }) => Err(CaseError::Document {
            name: case.name.clone()?,
            line,
        }),
        Err(NtRefusal::OutOfMemory) => Err(CaseError::OutOfMemory),
    }
}

/// Appends a line that says why shapes are refused.
fn push_refusal(alloc: Global, out: &mut String, refusal: &ShapeRefusal) -> Result<(), CaseError> {
    match refusal {
        ShapeRefusal::Unsupported { predicate } => {
            push_term(alloc, out, "unsupported", predicate)?;
        }
        ShapeRefusal::IllFormed { node, rule } => {
            push_term(alloc, out, "ill formed", node)?;
            write!(out, " rule {rule}")?;
        }
        ShapeRefusal::Recursive { shape } => push_term(alloc, out, "recursive", shape)?,
        ShapeRefusal::PathTooDeep { node } => push_term(alloc, out, "path too deep", node)?,
        ShapeRefusal::ShapeTooDeep { shape } => push_term(alloc, out, "shape too deep", shape)?,
        ShapeRefusal::OutOfMemory => return Err(CaseError::OutOfMemory),
    }
    out.push('\n')?;
    Ok(())
}
