//! How cases are written: a line `== NAME` begins a case, and the lines behind it are its shapes graph. A line
//! `-- data` begins its data graph, and behind that a line `-- offered` the graph of its offers. What is asked stands
//! at the end, in lines that say
//!
//!     -- ground        which premises has the ground of the problem, and which candidates stand in none?
//!     -- counts        how many premises, atoms and literals has it?
//!
//! Graphs are written as N-Triples. Before the first case stands nothing.

use crate::question::{Question, parse_question};
use crate::refusal::CaseError;
use std::alloc::{AllocError, Global};

/// A graph, as N-Triples.
#[derive(Drop)]
pub struct Document {
    /// How many lines of the text stand before it.
    pub before: u64,
    /// Its lines.
    pub text: String,
}

impl Document {
    /// The empty document behind so many lines.
    fn new(alloc: Global, before: u64) -> Document {
        Document {
            before,
            text: String::new(alloc),
        }
    }

    /// Appends a line.
    fn push_line(&mut self, line: &str) -> Result<(), AllocError> {
        self.text.push_str(line)?;
        self.text.push('\n')
    }
}

/// The part of a case that was begun last.
#[derive(Clone, Copy)]
enum Section {
    Shapes,
    Data,
    Offered,
    Questions,
}

/// Three graphs, and what is asked of their problem.
#[derive(Drop)]
pub struct Case {
    pub name: String,
    pub shapes: Document,
    pub data: Document,
    pub offered: Document,
    pub questions: Vec<Question>,
    section: Section,
}

impl Case {
    /// The case of that name, which the line of this number begins.
    fn new(alloc: Global, name: &str, line: u64) -> Result<Case, AllocError> {
        Ok(Case {
            name: String::from_str(alloc, name)?,
            shapes: Document::new(alloc, line),
            data: Document::new(alloc, line),
            offered: Document::new(alloc, line),
            questions: Vec::new(alloc),
            section: Section::Shapes,
        })
    }

    /// Takes the next line, of this number, and answers whether it can stand there.
    fn take_line(&mut self, alloc: Global, line: &str, number: u64) -> Result<bool, CaseError> {
        match line.strip_prefix("-- ") {
            Some("data") => Ok(self.begin_data(alloc, number)),
            Some("offered") => Ok(self.begin_offered(alloc, number)),
            Some(words) => self.take_question(words),
            None => self.push_line(line),
        }
    }

    /// Begins the data graph behind the line of this number.
    fn begin_data(&mut self, alloc: Global, number: u64) -> bool {
        match self.section {
            Section::Shapes => {
                self.data = Document::new(alloc, number);
                self.section = Section::Data;
                true
            }
            Section::Data | Section::Offered | Section::Questions => false,
        }
    }

    /// Begins the graph of offers behind the line of this number.
    fn begin_offered(&mut self, alloc: Global, number: u64) -> bool {
        match self.section {
            Section::Data => {
                self.offered = Document::new(alloc, number);
                self.section = Section::Offered;
                true
            }
            Section::Shapes | Section::Offered | Section::Questions => false,
        }
    }

    /// Takes what the words of a line ask, behind the graph of offers.
    fn take_question(&mut self, words: &str) -> Result<bool, CaseError> {
        if matches!(self.section, Section::Shapes | Section::Data) {
            return Ok(false);
        }
        self.section = Section::Questions;
        match parse_question(words) {
            Some(question) => {
                self.questions.push(question)?;
                Ok(true)
            }
            None => Ok(false),
        }
    }

    /// Appends a line to the graph that was begun last.
    fn push_line(&mut self, line: &str) -> Result<bool, CaseError> {
        match self.section {
            Section::Shapes => self.shapes.push_line(line)?,
            Section::Data => self.data.push_line(line)?,
            Section::Offered => self.offered.push_line(line)?,
            Section::Questions => return Ok(false),
        }
        Ok(true)
    }
}

/// The cases of a text. `Line` names the first line that can't stand where it stands, but for the lines
/// of graphs, which are not read yet.
pub fn parse_cases(alloc: Global, text: &str) -> Result<Vec<Case>, CaseError> {
    let mut cases = Vec::new(alloc);
    let mut number = 0u64;
    for line in text.split_terminator('\n') {
        number = number.saturating_add(1);
        if !take_line(alloc, &mut cases, line, number)? {
            return Err(CaseError::Line { line: number });
        }
    }
    Ok(cases)
}

/// Takes the next line, of this number, and answers whether it can stand there.
fn take_line(
    alloc: Global,
    cases: &mut Vec<Case>,
    line: &str,
    number: u64,
) -> Result<bool, CaseError> {
    if let Some(name) = line.strip_prefix("== ") {
        cases.push(Case::new(alloc, name, number)?)?;
        return Ok(true);
    }
    match cases.last_mut() {
        Some(case) => case.take_line(alloc, line, number),
        None => Ok(false),
    }
}
