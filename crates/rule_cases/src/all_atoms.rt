//! Each atom about constraints and shapes: numbers up to one past the last are tried.

use crate::answer::push_atom_lines;
use crate::refusal::CaseError;
use premise_rules::PremiseRules;
use repair_problem::Atom;
use std::alloc::Global;

/// Appends the lines of each atom about constraints and shapes.
pub fn push_all(
    alloc: Global,
    out: &mut String,
    rules: &mut PremiseRules<'_>,
) -> Result<(), CaseError> {
    let problem = rules.problem();
    let triples = problem.shapes().triples().len() as u64;
    let shapes = problem.shapes().shape_count() as u64;
    for i in 0..=triples {
        push_of_constraint(alloc, out, rules, i)?;
    }
    for s in 0..=shapes {
        push_of_shape(alloc, out, rules, s)?;
    }
    Ok(())
}

/// Appends the lines of an atom, if the numbers name one.
fn push_if_atom(
    alloc: Global,
    out: &mut String,
    rules: &mut PremiseRules<'_>,
    atom: Atom,
) -> Result<(), CaseError> {
    if rules.is_atom(&atom)? {
        let parts = rules.parts_of(&atom)?;
        push_atom_lines(alloc, out, rules, &atom, parts.as_ref())?;
    }
    Ok(())
}

/// Appends the lines of the atoms of a constraint.
fn push_of_constraint(
    alloc: Global,
    out: &mut String,
    rules: &mut PremiseRules<'_>,
    i: u64,
) -> Result<(), CaseError> {
    let count = rules.problem().nodes().len() as u64;
    for x in 0..=count {
        push_if_atom(alloc, out, rules, Atom::Holds { i, x })?;
        push_if_atom(alloc, out, rules, Atom::Good { i, y: x })?;
        for y in 0..=count {
            push_if_atom(alloc, out, rules, Atom::Marked { i, x, y })?;
            push_if_atom(alloc, out, rules, Atom::Differ { i, x, y })?;
            // j goes up to the number of nodes and m up to 6, which is enough for the cases here.
            for m in 0..=6 {
                let counter = Atom::Count { i, x, j: y, m };
                push_if_atom(alloc, out, rules, counter)?;
            }
        }
        push_twins(alloc, out, rules, i, x)?;
    }
    Ok(())
}

/// Appends the lines of the pairs of value nodes of a node.
fn push_twins(
    alloc: Global,
    out: &mut String,
    rules: &mut PremiseRules<'_>,
    i: u64,
    x: u64,
) -> Result<(), CaseError> {
    let count = rules.problem().nodes().len() as u64;
    for y in 0..=count {
        for z in 0..=count {
            push_if_atom(alloc, out, rules, Atom::Twin { i, x, y, z })?;
        }
    }
    Ok(())
}

/// Appends the lines of the atoms of a shape.
fn push_of_shape(
    alloc: Global,
    out: &mut String,
    rules: &mut PremiseRules<'_>,
    s: u64,
) -> Result<(), CaseError> {
    let count = rules.problem().nodes().len() as u64;
    for x in 0..=count {
        push_if_atom(alloc, out, rules, Atom::Conforms { s, x })?;
        push_if_atom(alloc, out, rules, Atom::Target { s, x })?;
    }
    Ok(())
}
