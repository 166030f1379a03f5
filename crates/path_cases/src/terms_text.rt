//! Words, and behind them terms as N-Triples, each behind a space.

use crate::refusal::CaseError;
use ntriples_io::write_term;
use rdf_terms::{Term, Terms};
use std::alloc::Global;

/// Appends the words, a space and the term.
pub fn push_term(
    alloc: Global,
    out: &mut String,
    words: &str,
    term: &Term,
) -> Result<(), CaseError> {
    let bytes = write_term(alloc, term)?;
    let spelling = str::from_utf8(bytes.as_slice()).map_err(|_| CaseError::NoText)?;
    write!(out, "{words} {spelling}")?;
    Ok(())
}

/// Appends a colon and the terms, or `none` where there are none, or their count, and ends the line.
pub fn push_terms(
    alloc: Global,
    out: &mut String,
    terms: &Terms,
    counted: bool,
) -> Result<(), CaseError> {
    let terms = terms.as_slice();
    out.push(':')?;
    if counted {
        let count = terms.len();
        write!(out, " count {count}")?;
    } else if terms.is_empty() {
        out.push_str(" none")?;
    } else {
        for term in terms {
            push_term(alloc, out, "", term)?;
        }
    }
    out.push('\n')?;
    Ok(())
}
