//! How cases are written: a line `== NAME` begins a case, and each line behind it is a clause as in the DIMACS format:
//! the numbers of its variables from 1, with a `-` where they are denied, and then 0. A line `-- budget N` says how
//! many steps are allowed, and a line `-- prefer` and such numbers what is decided first. In a clause no variable
//! stands twice, and none is empty.

use crate::clauses::is_clause;
use crate::refusal::CaseError;
use clause_store::{Lit, Lits};
use numerals::parse_numeral;
use std::alloc::{AllocError, Global};

/// The steps that are allowed where a case says nothing of them.
const NO_BUDGET: u64 = 1 << 62;

/// Clauses to be solved.
#[derive(Drop)]
pub struct Case {
    pub name: String,
    /// How many steps are allowed.
    pub budget: u64,
    /// What is decided first.
    pub preferred: Lits,
    pub clauses: Vec<Lits>,
}

impl Case {
    /// The case of that name, without a clause.
    fn new(alloc: Global, name: &str) -> Result<Case, AllocError> {
        Ok(Case {
            name: String::from_str(alloc, name)?,
            budget: NO_BUDGET,
            preferred: Lits::new(alloc),
            clauses: Vec::new(alloc),
        })
    }

    /// Takes the next line, and answers whether it can stand there.
    fn take_line(&mut self, alloc: Global, line: &str) -> Result<bool, CaseError> {
        if let Some(text) = line.strip_prefix("-- budget ") {
            return Ok(self.take_budget(text));
        }
        if let Some(text) = line.strip_prefix("-- prefer ") {
            return self.take_preferred(alloc, text);
        }
        match parse_lits(alloc, line)? {
            Some(lits) if is_clause(lits.as_slice()) => {
                self.clauses.push(lits)?;
                Ok(true)
            }
            _ => Ok(false),
        }
    }

    /// Takes how many steps are allowed.
    fn take_budget(&mut self, text: &str) -> bool {
        match parse_numeral(text) {
            Some(budget) => {
                self.budget = budget;
                true
            }
            None => false,
        }
    }

    /// Takes what is decided first.
    fn take_preferred(&mut self, alloc: Global, text: &str) -> Result<bool, CaseError> {
        match parse_lits(alloc, text)? {
            Some(lits) => {
                self.preferred = lits;
                Ok(true)
            }
            None => Ok(false),
        }
    }
}

/// The literal that a word writes, and `None` where it writes none.
fn parse_lit(word: &str) -> Option<Lit> {
    let (digits, positive) = match word.strip_prefix('-') {
        Some(digits) => (digits, false),
        None => (word, true),
    };
    let number = parse_numeral(digits)?;
    let var = number.checked_sub(1)? as usize;
    Some(Lit { var, positive })
}

/// The literals of a line, and `None` where it doesn't end with 0 or has another word that writes none.
fn parse_lits(alloc: Global, line: &str) -> Result<Option<Lits>, CaseError> {
    let Some(words) = line.strip_suffix(" 0") else {
        return Ok(None);
    };
    let mut lits = Lits::new(alloc);
    for word in words.split(' ') {
        match parse_lit(word) {
            Some(lit) => lits.push(lit)?,
            None => return Ok(None),
        }
    }
    Ok(Some(lits))
}

/// The cases of a text. `Line` names the first line that can't stand where it stands.
pub fn parse_cases(alloc: Global, text: &str) -> Result<Vec<Case>, CaseError> {
    let mut cases = Vec::new(alloc);
    let mut number = 0u64;
    for line in text.split_terminator('\n') {
        number = number.saturating_add(1);
        if !take_line(alloc, &mut cases, line)? {
            return Err(CaseError::Line { line: number });
        }
    }
    Ok(cases)
}

/// Takes the next line, and answers whether it can stand there.
fn take_line(alloc: Global, cases: &mut Vec<Case>, line: &str) -> Result<bool, CaseError> {
    if let Some(name) = line.strip_prefix("== ") {
        cases.push(Case::new(alloc, name)?)?;
        return Ok(true);
    }
    match cases.last_mut() {
        Some(case) => case.take_line(alloc, line),
        None => Ok(false),
    }
}
