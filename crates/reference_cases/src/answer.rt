use crate::refusal::CaseError;
use iri_references::resolve_iri;
use rdf_grammar::has_scheme;
use rdf_terms::Text;
use std::alloc::Global;

/// Appends the reference, and the IRI that it stands for under that base. `Line` where the base does not begin with a
/// scheme.
fn push_answer(
    alloc: Global,
    out: &mut String,
    base: &str,
    reference: &str,
    line: u64,
) -> Result<(), CaseError> {
    if !has_scheme(base) {
        return Err(CaseError::Line { line });
    }
    let base = Text::from_str(alloc, base)?;
    let written = Text::from_str(alloc, reference)?;
    let iri = resolve_iri(alloc, &base, &written)?;
    let target = iri.as_str();
    let answer = format!(in alloc; "<{reference}> is <{target}>\n")?;
    out.push_str(answer.as_str())?;
    Ok(())
}

/// The lines of the text that name bases, and a line for each reference. `Line` names the first reference whose base
/// does not begin with a scheme.
pub fn answers(alloc: Global, text: &str) -> Result<String, CaseError> {
    let mut out = String::new(alloc);
    let mut base = "";
    let mut number = 0u64;
    'lines: for line in text.split_terminator('\n') {
        number = number.saturating_add(1);
        if let Some(iri) = line.strip_prefix("== ") {
            base = iri;
            out.push_str(line)?;
            out.push('\n')?;
        } else {
            push_answer(alloc, &mut out, base, line, number)?;
        }
    }
    Ok(out)
}
