use rdf_terms::{OutOfMemory, Places};
use repair_problem::Atom;
use std::alloc::Global;

/// What is asked of the problem of a case.
#[derive(Drop)]
pub enum Question {
    /// To which nodes does the path lead from the node?
    Possible { p: usize, x: usize },
    /// What are the parts of the atom?
    Parts(Atom),
    /// What is the data that is edited by these candidates?
    Change(Places),
    /// Which atoms of paths are true in the data that is edited by these candidates?
    True(Places),
    /// What are the parts of every atom of every path?
    All,
}

/// What the words of a line ask, and `None` where they ask nothing.
pub fn parse_question(alloc: Global, words: &str) -> Result<Option<Question>, OutOfMemory> {
    let (name, rest) = match words.split_once(' ') {
        Some((name, rest)) => (name, rest),
        None => (words, ""),
    };
    let Some(numbers) = parse_numbers(alloc, rest)? else {
        return Ok(None);
    };
    match name {
        "change" => Ok(Some(Question::Change(numbers))),
        "true" => Ok(Some(Question::True(numbers))),
        _ => Ok(question_of(name, numbers.as_slice())),
    }
}

/// What is asked by this name and these numbers.
fn question_of(name: &str, numbers: &[u64]) -> Option<Question> {
    match (name, numbers) {
        ("all", []) => Some(Question::All),
        ("possible", [p, x]) => Some(Question::Possible {
            p: *p as usize,
            x: *x as usize,
        }),
        ("reach", [p, x, y]) => Some(Question::Parts(Atom::Reach {
            p: *p,
            x: *x,
            y: *y,
        })),
        ("level", [p, k, x, y]) => Some(Question::Parts(Atom::Level {
            p: *p,
            k: *k,
            x: *x,
            y: *y,
        })),
        ("middle", [p, k, x, z, y]) => Some(Question::Parts(Atom::Middle {
            p: *p,
            k: *k,
            x: *x,
            z: *z,
            y: *y,
        })),
        _ => None,
    }
}

/// The numbers of a text that has a space between each two, and `None` where it has other words.
fn parse_numbers(alloc: Global, text: &str) -> Result<Option<Places>, OutOfMemory> {
    let mut numbers = Places::new(alloc);
    if text.is_empty() {
        return Ok(Some(numbers));
    }
    for word in text.split(' ') {
        match word.parse::<u64>() {
            Ok(number) => numbers.push(number)?,
            Err(_) => return Ok(None),
        }
    }
    Ok(Some(numbers))
}
