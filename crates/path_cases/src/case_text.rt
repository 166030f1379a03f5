//! How cases are written: a line `== NAME` begins a case, and the lines behind it are its shapes graph.
//! A line `-- data` begins its data graph. What is asked stands at the end, in lines that say
//!
//!     -- from TERM              what does each path of a property shape reach from the term?
//!     -- instance TERM CLASS    is the term a SHACL instance of the class?
//!     -- count                  in the answers terms are counted, and not listed
//!
//! Graphs and terms are written as N-Triples. Before the first case stands nothing.

use crate::question::{Question, parse_question};
use crate::refusal::CaseError;
use std::alloc::{AllocError, Global};

/// A graph, as N-Triples.
#[derive(Drop)]
pub struct Document {
    /// How many lines of the text stand before it.
    pub before: u64,
    /// Its lines.
    pub text: String,
}

impl Document {
    /// The empty document behind so many lines.
    fn new(alloc: Global, before: u64) -> Document {
        Document {
            before,
            text: String::new(alloc),
        }
    }

    /// Appends a line.
    fn push_line(&mut self, line: &str) -> Result<(), AllocError> {
        self.text.push_str(line)?;
        self.text.push('\n')
    }
}

/// The part of a case that was begun last.
#[derive(Clone, Copy)]
enum Part {
    Shapes,
    Data,
    Questions,
}

/// Two graphs, and what is asked of them.
#[derive(Drop)]
pub struct Case {
    pub name: String,
    pub shapes: Document,
    pub data: Document,
    pub questions: Vec<Question>,
    /// Whether terms are counted, and not listed.
    pub counted: bool,
    part: Part,
}

impl Case {
    /// The case of that name, which the line of this number begins.
    fn new(alloc: Global, name: &str, line: u64) -> Result<Case, AllocError> {
        Ok(Case {
            name: String::from_str(alloc, name)?,
            shapes: Document::new(alloc, line),
            data: Document::new(alloc, line),
            questions: Vec::new(alloc),
            counted: false,
            part: Part::Shapes,
        })
    }

    /// Takes the next line, of this number, and answers whether it can stand there.
    fn take_line(&mut self, alloc: Global, line: &str, number: u64) -> Result<bool, CaseError> {
        match line.strip_prefix("-- ") {
            Some("data") => Ok(self.begin_data(alloc, number)),
            Some(words) => self.take_question(alloc, words),
            None => self.push_line(line),
        }
    }

    /// Begins the data graph behind the line of this number.
    fn begin_data(&mut self, alloc: Global, number: u64) -> bool {
        match self.part {
            Part::Shapes => {
                self.data = Document::new(alloc, number);
                self.part = Part::Data;
                true
            }
            Part::Data | Part::Questions => false,
        }
    }

    /// Takes what the words of a line ask, behind the data graph.
    fn take_question(&mut self, alloc: Global, words: &str) -> Result<bool, CaseError> {
        if matches!(self.part, Part::Shapes) {
            return Ok(false);
        }
        self.part = Part::Questions;
        if words == "count" {
            self.counted = true;
            return Ok(true);
        }
        match parse_question(alloc, words)? {
            Some(question) => {
                self.questions.push(question)?;
                Ok(true)
            }
            None => Ok(false),
        }
    }

    /// Appends a line to the graph that was begun last.
    fn push_line(&mut self, line: &str) -> Result<bool, CaseError> {
        match self.part {
            Part::Shapes => self.shapes.push_line(line)?,
            Part::Data => self.data.push_line(line)?,
            Part::Questions => return Ok(false),
        }
        Ok(true)
    }
}

/// The cases of a text. `Line` names the first line that can't stand where it stands, but for the lines
/// of graphs, which are not read yet.
pub fn parse_cases(alloc: Global, text: &str) -> Result<Vec<Case>, CaseError> {
    let mut cases = Vec::new(alloc);
    let mut number = 0u64;
    for line in text.split_terminator('\n') {
        number = number.saturating_add(1);
        if !take_line(alloc, &mut cases, line, number)? {
            return Err(CaseError::Line { line: number });
        }
    }
    Ok(cases)
}

/// Takes the next line, of this number, and answers whether it can stand there.
fn take_line(
    alloc: Global,
    cases: &mut Vec<Case>,
    line: &str,
    number: u64,
) -> Result<bool, CaseError> {
    if let Some(name) = line.strip_prefix("== ") {
        cases.push(Case::new(alloc, name, number)?)?;
        return Ok(true);
    }
    match cases.last_mut() {
        Some(case) => case.take_line(alloc, line, number),
        None => Ok(false),
    }
}
