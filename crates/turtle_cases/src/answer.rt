use crate::case_text::Case;
use crate::refusal::CaseError;
use ntriples_io::write_triple;
use std::alloc::Global;
use turtle_io::{Role, TurtleRefusal, read_turtle};

/// The name of a case, and the canonical lines of the graph of its document, or why the document is refused. Of a
/// document that is cut, the same of each of its fronts, the shortest first.
pub fn answer_of(alloc: Global, case: &Case) -> Result<String, CaseError> {
    let name = &case.name;
    let mut out = format!(in alloc; "== {name}\n")?;
    if case.is_cut {
        for length in 0..case.document.len() {
            write!(out, "-- {length}\n")?;
            push_answer(alloc, &mut out, &case.document[..length], case.role)?;
        }
        out.push_str("-- all\n")?;
    }
    push_answer(alloc, &mut out, case.document.as_slice(), case.role)?;
    Ok(out)
}

/// Appends what reading a document answers.
fn push_answer(alloc: Global, out: &mut String, bytes: &[u8], role: Role) -> Result<(), CaseError> {
    match read_turtle(alloc, bytes, role) {
        Ok(graph) => {
            for triple in graph.as_slice() {
                let line = write_triple(alloc, triple)?;
                let text = str::from_utf8(line.as_slice()).map_err(|_| CaseError::NoText)?;
                out.push_str(text)?;
            }
            Ok(())
        }
        Err(TurtleRefusal::OutOfMemory) => Err(CaseError::OutOfMemory),
        Err(refusal) => {
            write!(out, "{refusal}\n")?;
            Ok(())
        }
    }
}
