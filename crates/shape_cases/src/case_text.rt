//! How cases are written: a line `== NAME` begins a case, and the lines up to the next such line are
//! its document, as they are. Before the first case stands nothing.

use crate::refusal::CaseError;
use std::alloc::{AllocError, Global};

/// A shapes graph to be read.
#[derive(Drop)]
pub struct Case {
    pub name: String,
    /// The graph, as N-Triples.
    pub document: String,
}

impl Case {
    /// A case of that name, with an empty document.
    fn new(alloc: Global, name: &str) -> Result<Case, AllocError> {
        Ok(Case {
            name: String::from_str(alloc, name)?,
            document: String::new(alloc),
        })
    }

    /// Appends a line to the document.
    fn push_line(&mut self, line: &str) -> Result<(), AllocError> {
        self.document.push_str(line)?;
        self.document.push('\n')
    }
}

/// The cases of a text. `Line` names the first line where it stands before the first case.
pub fn parse_cases(alloc: Global, text: &str) -> Result<Vec<Case>, CaseError> {
    let mut cases = Vec::new(alloc);
    let mut number = 0u64;
    for line in text.split_terminator('\n') {
        number = number.saturating_add(1);
        if !take_line(alloc, &mut cases, line)? {
            return Err(CaseError::Line { line: number });
        }
    }
    Ok(cases)
}

/// Takes the next line, and answers whether it can stand there.
fn take_line(alloc: Global, cases: &mut Vec<Case>, line: &str) -> Result<bool, CaseError> {
    if let Some(name) = line.strip_prefix("== ") {
        cases.push(Case::new(alloc, name)?)?;
        return Ok(true);
    }
    match cases.last_mut() {
        Some(case) => {
            case.push_line(line)?;
            Ok(true)
        }
        None => Ok(false),
    }
}
