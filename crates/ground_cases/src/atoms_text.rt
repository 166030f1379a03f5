//! Atoms, rules and clauses as words and numbers.

use crate::refusal::CaseError;
use premise_rules::{Rule, RuleName};
use repair_problem::{Atom, Literal};

/// Appends the name and the numbers of an atom.
fn push_atom(out: &mut String, atom: &Atom) -> Result<(), CaseError> {
    match *atom {
        Atom::Triple { t } => push_words(out, "triple", &[t]),
        Atom::Reach { p, x, y } => push_words(out, "reach", &[p, x, y]),
        Atom::Level { p, k, x, y } => push_words(out, "level", &[p, k, x, y]),
        Atom::Middle { p, k, x, z, y } => push_words(out, "middle", &[p, k, x, z, y]),
        Atom::Good { i, y } => push_words(out, "good", &[i, y]),
        Atom::Marked { i, x, y } => push_words(out, "marked", &[i, x, y]),
        Atom::Count { i, x, j, m } => push_words(out, "count", &[i, x, j, m]),
        Atom::Differ { i, x, y } => push_words(out, "differ", &[i, x, y]),
        Atom::Twin { i, x, y, z } => push_words(out, "twin", &[i, x, y, z]),
        Atom::Holds { i, x } => push_words(out, "holds", &[i, x]),
        Atom::Conforms { s, x } => push_words(out, "conforms", &[s, x]),
        Atom::Target { s, x } => push_words(out, "target", &[s, x]),
    }
}

/// Appends a name, and the numbers, each behind a space.
fn push_words(out: &mut String, name: &str, numbers: &[u64]) -> Result<(), CaseError> {
    out.push_str(name)?;
    for number in numbers {
        write!(out, " {number}")?;
    }
    Ok(())
}

/// Appends a literal behind a comma and a space.
fn push_literal(out: &mut String, literal: &Literal) -> Result<(), CaseError> {
    out.push_str(if literal.positive { ", " } else { ", not " })?;
    push_atom(out, &literal.atom)
}

/// Appends the literals of a clause, and ends the line.
pub fn push_literals(out: &mut String, literals: &[Literal]) -> Result<(), CaseError> {
    out.push_str(": clause")?;
    for literal in literals {
        push_literal(out, literal)?;
    }
    out.push('\n')?;
    Ok(())
}

/// The word for a rule.
fn word_of(name: RuleName) -> &'static str {
    match name {
        RuleName::Reach => "reach",
        RuleName::Level => "level",
        RuleName::Middle => "middle",
        RuleName::Good => "good",
        RuleName::Marked => "marked",
        RuleName::Count => "count",
        RuleName::Differ => "differ",
        RuleName::Twin => "twin",
        RuleName::Holds => "holds",
        RuleName::Conforms => "conforms",
        RuleName::Target => "target",
        RuleName::Root => "root",
        RuleName::Outside => "outside",
        RuleName::Undo => "undo",
    }
}

/// Appends the name and the numbers of a rule.
pub fn push_rule(out: &mut String, rule: &Rule) -> Result<(), CaseError> {
    out.push_str("rule ")?;
    push_words(out, word_of(rule.name), rule.numbers.as_slice())
}
