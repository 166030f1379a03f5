use premise_rules::{Rule, RuleName};
use rdf_terms::{Numbers, OutOfMemory, Places};
use repair_problem::Atom;
use std::alloc::Global;

/// What is asked of the problem of a case.
#[derive(Drop)]
pub enum Question {
    /// The next pair of the chain, by its candidates.
    Pair(Places),
    /// What is the clause of the rule?
    Rule(Rule),
    /// What fixes the atom, and what are its clauses?
    Atom(Atom),
    /// The same of each atom about constraints and shapes.
    All,
}

/// What the words of a line ask, and `None` where they ask nothing.
pub fn parse_question(alloc: Global, words: &str) -> Result<Option<Question>, OutOfMemory> {
    let (kind, rest) = split_word(words);
    match kind {
        "all" if rest.is_empty() => Ok(Some(Question::All)),
        "chain" => Ok(parse_numbers(alloc, rest)?.map(|numbers| Question::Pair(numbers))),
        "rule" => parse_rule(alloc, rest),
        "atom" => parse_atom(alloc, rest),
        _ => Ok(None),
    }
}

/// The first word, and what stands behind the space after it.
fn split_word(words: &str) -> (&str, &str) {
    match words.split_once(' ') {
        Some((first, rest)) => (first, rest),
        None => (words, ""),
    }
}

/// What is asked of a rule by its name and numbers.
fn parse_rule(alloc: Global, words: &str) -> Result<Option<Question>, OutOfMemory> {
    let (name, rest) = split_word(words);
    match (rule_name(name), parse_numbers(alloc, rest)?) {
        (Some(name), Some(numbers)) => Ok(Some(Question::Rule(Rule { name, numbers }))),
        _ => Ok(None),
    }
}

/// What is asked of an atom by its name and numbers.
fn parse_atom(alloc: Global, words: &str) -> Result<Option<Question>, OutOfMemory> {
    let (name, rest) = split_word(words);
    match parse_numbers(alloc, rest)? {
        Some(numbers) => Ok(atom_of(name, numbers.as_slice()).map(|atom| Question::Atom(atom))),
        None => Ok(None),
    }
}

/// The rule of this name.
fn rule_name(name: &str) -> Option<RuleName> {
    match name {
        "reach" => Some(RuleName::Reach),
        "level" => Some(RuleName::Level),
        "middle" => Some(RuleName::Middle),
        "good" => Some(RuleName::Good),
        "marked" => Some(RuleName::Marked),
        "count" => Some(RuleName::Count),
        "differ" => Some(RuleName::Differ),
        "twin" => Some(RuleName::Twin),
        "holds" => Some(RuleName::Holds),
        "conforms" => Some(RuleName::Conforms),
        "target" => Some(RuleName::Target),
        "root" => Some(RuleName::Root),
        "outside" => Some(RuleName::Outside),
        "undo" => Some(RuleName::Undo),
        _ => None,
    }
}

/// The atom of this name and these numbers.
fn atom_of(name: &str, numbers: &[u64]) -> Option<Atom> {
    match (name, numbers) {
        ("triple", [t]) => Some(Atom::Triple { t: *t }),
        ("reach", [p, x, y]) => Some(Atom::Reach {
            p: *p,
            x: *x,
            y: *y,
        }),
        ("level", [p, k, x, y]) => Some(Atom::Level {
            p: *p,
            k: *k,
            x: *x,
            y: *y,
        }),
        ("middle", [p, k, x, z, y]) => Some(Atom::Middle {
            p: *p,
            k: *k,
            x: *x,
            z: *z,
            y: *y,
        }),
        ("good", [i, y]) => Some(Atom::Good { i: *i, y: *y }),
        ("marked", [i, x, y]) => Some(Atom::Marked {
            i: *i,
            x: *x,
            y: *y,
        }),
        ("count", [i, x, j, m]) => Some(Atom::Count {
            i: *i,
            x: *x,
            j: *j,
            m: *m,
        }),
        ("differ", [i, x, y]) => Some(Atom::Differ {
            i: *i,
            x: *x,
            y: *y,
        }),
        ("twin", [i, x, y, z]) => Some(Atom::Twin {
            i: *i,
            x: *x,
            y: *y,
            z: *z,
        }),
        ("holds", [i, x]) => Some(Atom::Holds { i: *i, x: *x }),
        ("conforms", [s, x]) => Some(Atom::Conforms { s: *s, x: *x }),
        ("target", [s, x]) => Some(Atom::Target { s: *s, x: *x }),
        _ => None,
    }
}

/// The numbers of a text that has a space between each two, and `None` where it has other words.
fn parse_numbers(alloc: Global, text: &str) -> Result<Option<Numbers>, OutOfMemory> {
    let mut numbers = Numbers::new(alloc);
    if text.is_empty() {
        return Ok(Some(numbers));
    }
    for word in text.split(' ') {
        match word.parse::<u64>() {
            Ok(number) => numbers.push(number)?,
            Err(_) => return Ok(None),
        }
    }
    Ok(Some(numbers))
}
