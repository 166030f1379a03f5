ghost use Rattle.std.specs.Prelude.{◌≡◌, IfOk, option_map, option_and_then};
ghost use Rattle.atom_parts.specs.Fixing.{fixing};
ghost use Rattle.premise_rules.specs.PlaceClauses.{clause_at as clause_parts_at};
ghost use Rattle.premise_rules.specs.RuleClauses.{atom_and_place, root_parts, outside_parts, undo_parts, unchanged};
ghost use Rattle.premise_rules.specs.RuleClauses.{rule_parts};

use crate::place_clauses::clause_at;
use crate::{Rule, RuleName};
use atom_parts::{AtomTable, literal, one_part, two_parts};
use rdf_terms::{OutOfMemory, Places};
use repair_problem::{Atom, Part, PartList, Problem};
use std::alloc::Global;

/// An atom, and the place of one of its clauses.
#[derive(Clone, Copy)]
struct AtomPlace {
    atom: Atom,
    place: u64,
}

/// The atom and the place that a rule names by its numbers, if it is a rule of atoms and there are as many numbers as
/// it wants.
fn atom_and_place(name: RuleName, numbers: &[u64]) -> Option<AtomPlace>
    ensures { option_map (λ a. (a.atom, a.place)) result ≡ atom_and_place name numbers.now }
{
    match name {
        RuleName::Reach => match numbers {
            [p, x, y, place] => Some(AtomPlace {
                atom: Atom::Reach {
                    p: *p,
                    x: *x,
                    y: *y,
                },
                place: *place,
            }),
            _ => None,
        },
        RuleName::Level => match numbers {
            [p, k, x, y, place] => Some(AtomPlace {
                atom: Atom::Level {
                    p: *p,
                    k: *k,
                    x: *x,
                    y: *y,
                },
                place: *place,
            }),
            _ => None,
        },
        RuleName::Middle => match numbers {
            [p, k, x, z, y, place] => Some(AtomPlace {
                atom: Atom::Middle {
                    p: *p,
                    k: *k,
                    x: *x,
                    z: *z,
                    y: *y,
                },
                place: *place,
            }),
            _ => None,
        },
        RuleName::Good => match numbers {
            [i, y, place] => Some(AtomPlace {
                atom: Atom::Good { i: *i, y: *y },
                place: *place,
            }),
            _ => None,
        },
        RuleName::Marked => match numbers {
            [i, x, y, place] => Some(AtomPlace {
                atom: Atom::Marked {
                    i: *i,
                    x: *x,
                    y: *y,
                },
                place: *place,
            }),
            _ => None,
        },
        RuleName::Count => match numbers {
            [i, x, j, m, place] => Some(AtomPlace {
                atom: Atom::Count {
                    i: *i,
                    x: *x,
                    j: *j,
                    m: *m,
                },
                place: *place,
            }),
            _ => None,
        },
        RuleName::Differ => match numbers {
            [i, x, y, place] => Some(AtomPlace {
                atom: Atom::Differ {
                    i: *i,
                    x: *x,
                    y: *y,
                },
                place: *place,
            }),
            _ => None,
        },
        RuleName::Twin => match numbers {
            [i, x, y, z, place] => Some(AtomPlace {
                atom: Atom::Twin {
                    i: *i,
                    x: *x,
                    y: *y,
                    z: *z,
                },
                place: *place,
            }),
            _ => None,
        },
        RuleName::Holds => match numbers {
            [i, x, place] => Some(AtomPlace {
                atom: Atom::Holds { i: *i, x: *x },
                place: *place,
            }),
            _ => None,
        },
        RuleName::Conforms => match numbers {
            [s, x, place] => Some(AtomPlace {
                atom: Atom::Conforms { s: *s, x: *x },
                place: *place,
            }),
            _ => None,
        },
        RuleName::Target => match numbers {
            [s, x, place] => Some(AtomPlace {
                atom: Atom::Target { s: *s, x: *x },
                place: *place,
            }),
            _ => None,
        },
        RuleName::Root | RuleName::Outside | RuleName::Undo => None,
    }
}

/// That a focus node of the shape conforms to it, if there are such a shape and such a node.
fn root_parts(
    alloc: Global,
    atoms: &AtomTable<'_>,
    s: u64,
    x: u64,
) -> Result<Option<PartList>, OutOfMemory>
    ensures { IfOk result (λ o. o ≡ root_parts atoms.now s x) }
{
    if !atoms.is_shape(s) || !atoms.is_node(x) {
        return Ok(None);
    }
    let target = literal(Atom::Target { s, x }, false);
    let conforms = literal(Atom::Conforms { s, x }, true);
    Ok(Some(two_parts(alloc, target, conforms)?))
}

/// That the candidate is as in the data, as a part.
fn unchanged(problem: &Problem, t: u64) -> Part
    ensures { result ≡ unchanged problem.now t }
{
    let in_data = t < problem.present().len() as u64;
    literal(Atom::Triple { t }, in_data)
}

/// That the candidate is as in the data, if it is a candidate and isn't in the pair.
fn outside_parts(
    alloc: Global,
    problem: &Problem,
    pair: &[u64],
    t: u64,
) -> Result<Option<PartList>, OutOfMemory>
    ensures { IfOk result (λ o. o ≡ outside_parts problem.now t pair.now) }
{
    if t >= problem.candidate_count() as u64 || pair.contains(&t) {
        return Ok(None);
    }
    Ok(Some(one_part(alloc, unchanged(problem, t))?))
}

/// That some candidate of the pair is as in the data.
fn undo_parts(alloc: Global, problem: &Problem, pair: &[u64]) -> Result<PartList, OutOfMemory>
    ensures { IfOk result (λ list. list ≡ undo_parts problem.now pair.now) }
{
    let mut list = PartList::new(alloc);
    'pair: for t in pair {
        list.push(unchanged(problem, *t))?;
    }
    Ok(list)
}

/// The parts of the clause of a rule of atoms.
fn atom_rule_parts(
    alloc: Global,
    atoms: &mut AtomTable<'_>,
    rule: &Rule,
) -> Result<Option<PartList>, OutOfMemory>
    ensures value { IfOk result (λ o. o ≡ option_and_then (λ r. clause_parts_at r.0 (fixing atoms.old r.0) r.1)
        (atom_and_place rule.now.name rule.now.numbers)) }
    ensures same { atoms.new ≡ atoms.old }
{
    match atom_and_place(rule.name, rule.numbers.as_slice()) {
        Some(named) => {
            let fixing = atoms.fixing(&named.atom)?;
            clause_at(alloc, named.atom, &fixing, named.place as usize)
        }
        None => Ok(None),
    }
}

/// The parts of the clause of a rule, if its numbers are in range.
pub(crate) fn rule_parts(
    alloc: Global,
    atoms: &mut AtomTable<'_>,
    chain: &[Places],
    rule: &Rule,
) -> Result<Option<PartList>, OutOfMemory>
    ensures value { IfOk result (λ o. o ≡ rule_parts atoms.old chain.now rule.now.name rule.now.numbers) }
    ensures same { atoms.new ≡ atoms.old }
{
    let problem = atoms.problem();
    let numbers = rule.numbers.as_slice();
    match rule.name {
        RuleName::Root => match numbers {
            [s, x] => root_parts(alloc, atoms, *s, *x),
            _ => Ok(None),
        },
        RuleName::Outside => match numbers {
            [j, t] => match chain.get(*j as usize) {
                Some(pair) => outside_parts(alloc, problem, pair.as_slice(), *t),
                None => Ok(None),
            },
            _ => Ok(None),
        },
        RuleName::Undo => match numbers {
            [j] => match chain.get(*j as usize) {
                Some(pair) => Ok(Some(undo_parts(alloc, problem, pair.as_slice())?)),
                None => Ok(None),
            },
            _ => Ok(None),
        },
        _ => atom_rule_parts(alloc, atoms, rule),
    }
}
