//! Words, and behind them terms as N-Triples, or numbers, each behind a space.

use crate::refusal::CaseError;
use ntriples_io::write_term;
use rdf_terms::{Term, Text};
use std::alloc::{AllocError, Global};

/// Appends the words, a space and the term.
pub fn push_term(
    alloc: Global,
    out: &mut String,
    words: &str,
    term: &Term,
) -> Result<(), CaseError> {
    let bytes = write_term(alloc, term)?;
    let spelling = str::from_utf8(bytes.as_slice()).map_err(|_| CaseError::NoText)?;
    write!(out, "{words} {spelling}")?;
    Ok(())
}

/// Appends the words and the terms, or `none` where there are none.
pub fn push_terms(
    alloc: Global,
    out: &mut String,
    words: &str,
    terms: &[Term],
) -> Result<(), CaseError> {
    if terms.is_empty() {
        write!(out, "{words} none")?;
        return Ok(());
    }
    out.push_str(words)?;
    for term in terms {
        push_term(alloc, out, "", term)?;
    }
    Ok(())
}

/// Appends the words, a space and the IRI.
pub fn push_iri(out: &mut String, words: &str, iri: &Text) -> Result<(), AllocError> {
    let iri = iri.as_str();
    write!(out, "{words} <{iri}>")
}

/// Appends the words and the numbers, or `none` where there are none.
pub fn push_numbers(out: &mut String, words: &str, numbers: &[u64]) -> Result<(), AllocError> {
    if numbers.is_empty() {
        return write!(out, "{words} none");
    }
    out.push_str(words)?;
    for number in numbers {
        write!(out, " {number}")?;
    }
    Ok(())
}
