//! How cases are written: a line `== ROLE NAME` begins a case, where ROLE is `data`, `offered` or `shapes`, or `cut`
//! for a document of data each of whose fronts is read too. The lines up to the next such line are its
//! document, each with its LF, but for a last one that ends in `{}`. In a line `{XX}` is the byte with these two
//! hexadecimal digits, and `{TEXT*N}` the text N times. Before the first case stands nothing.

use crate::refusal::CaseError;
use std::alloc::{AllocError, Global};
use turtle_io::Role;

/// A document to be read.
#[derive(Drop)]
pub struct Case {
    pub name: String,
    pub role: Role,
    /// Whether each front of the document is read too.
    pub is_cut: bool,
    pub document: Vec<u8>,
}

impl Case {
    /// The case of a heading, which is what stands behind `== `, with an empty document. `None` where it is no heading.
    fn new(alloc: Global, heading: &str) -> Result<Option<Case>, AllocError> {
        let Some((word, name)) = heading.split_once(' ') else {
            return Ok(None);
        };
        let Some((role, is_cut)) = role_of(word) else {
            return Ok(None);
        };
        Ok(Some(Case {
            name: String::from_str(alloc, name)?,
            role,
            is_cut,
            document: Vec::new(alloc),
        }))
    }

    /// Appends a line to the document, and answers whether it is well written.
    fn push_line(&mut self, line: &str) -> Result<bool, AllocError> {
        if let Some(last) = line.strip_suffix("{}") {
            return self.push_parts(last);
        }
        let is_well_written = self.push_parts(line)?;
        self.document.push(b'\n')?;
        Ok(is_well_written)
    }

    /// Appends the parts of a line, and answers whether they are well written.
    fn push_parts(&mut self, line: &str) -> Result<bool, AllocError> {
        let Some((plain, marked)) = line.split_once('{') else {
            self.document.extend_from_slice(line.as_bytes())?;
            return Ok(true);
        };
        self.document.extend_from_slice(plain.as_bytes())?;
        for part in marked.split('{') {
            if !self.push_marked(part)? {
                return Ok(false);
            }
        }
        Ok(true)
    }

    /// Appends what stands for a mark, which ends at `}`, and what stands behind it. It answers whether it is a mark.
    fn push_marked(&mut self, part: &str) -> Result<bool, AllocError> {
        let Some((mark, plain)) = part.split_once('}') else {
            return Ok(false);
        };
        let is_mark = self.push_mark(mark)?;
        self.document.extend_from_slice(plain.as_bytes())?;
        Ok(is_mark)
    }

    /// Appends what stands for a mark, and answers whether it is one.
    fn push_mark(&mut self, mark: &str) -> Result<bool, AllocError> {
        if let Some((text, count)) = mark.split_once('*') {
            let Ok(count) = count.parse::<u32>() else {
                return Ok(false);
            };
            for _ in 0..count {
                self.document.extend_from_slice(text.as_bytes())?;
            }
            return Ok(true);
        }
        match u8::from_str_radix(mark, 16) {
            Ok(byte) => {
                self.document.push(byte)?;
                Ok(true)
            }
            Err(_) => Ok(false),
        }
    }
}

/// The role that a word names, and whether the document is cut.
fn role_of(word: &str) -> Option<(Role, bool)> {
    match word {
        "data" => Some((Role::Data, false)),
        "offered" => Some((Role::Offered, false)),
        "shapes" => Some((Role::Shapes, false)),
        "cut" => Some((Role::Data, true)),
        _ => None,
    }
}

/// The cases of a text. `Line` names the first line that cannot stand there.
pub fn parse_cases(alloc: Global, text: &str) -> Result<Vec<Case>, CaseError> {
    let mut cases = Vec::new(alloc);
    let mut number = 0u64;
    for line in text.split_terminator('\n') {
        number = number.saturating_add(1);
        if !take_line(alloc, &mut cases, line)? {
            return Err(CaseError::Line { line: number });
        }
    }
    Ok(cases)
}

/// Takes the next line, and answers whether it can stand there.
fn take_line(alloc: Global, cases: &mut Vec<Case>, line: &str) -> Result<bool, CaseError> {
    if let Some(heading) = line.strip_prefix("== ") {
        let Some(case) = Case::new(alloc, heading)? else {
            return Ok(false);
        };
        cases.push(case)?;
        return Ok(true);
    }
    match cases.last_mut() {
        Some(case) => Ok(case.push_line(line)?),
        None => Ok(false),
    }
}
