//! Words, and behind them a term or a triple as N-Triples.

use crate::refusal::CaseError;
use ntriples_io::{write_term, write_triple};
use rdf_terms::{Term, Triple};
use std::alloc::Global;

/// Appends the words, a space and the term, and ends the line.
pub fn push_term(
    alloc: Global,
    out: &mut String,
    words: &str,
    term: &Term,
) -> Result<(), CaseError> {
    let bytes = write_term(alloc, term)?;
    let spelling = str::from_utf8(bytes.as_slice()).map_err(|_| CaseError::NoText)?;
    write!(out, "{words} {spelling}\n")?;
    Ok(())
}

/// Appends the words, a space and the line of the triple.
pub fn push_triple(
    alloc: Global,
    out: &mut String,
    words: &str,
    triple: &Triple,
) -> Result<(), CaseError> {
    let bytes = write_triple(alloc, triple)?;
    let line = str::from_utf8(bytes.as_slice()).map_err(|_| CaseError::NoText)?;
    write!(out, "{words} {line}")?;
    Ok(())
}
