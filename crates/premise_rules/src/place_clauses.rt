ghost use Rattle.std.specs.Prelude.{◌≡◌, ◌++◌, [], ◌∷◌, IfOk, OnOk, Some, map};
ghost use Rattle.std.specs.List.{range_with_len};
ghost use Rattle.premise_rules.specs.Literals.{finished};
ghost use Rattle.atom_parts.specs.Fixing.{IsOfAtom};
ghost use Rattle.premise_rules.specs.PlaceClauses.{part_clause, last_clause, place_clause, clause_at, places};
ghost use Rattle.premise_rules.specs.PlaceClauses.{first_places};
ghost use Rattle.atom_parts.specs.Sources.{listed_parts, listed_fixing};

use crate::finish::finish;
use crate::{Clause, ClauseList};
use atom_parts::{AtomParts, Fixing, literal, two_parts};
use count_encode::{count_clause, negation};
use rdf_terms::OutOfMemory;
use repair_problem::{Atom, Part, PartList};
use std::alloc::Global;

/// How many places a counter has.
const COUNTER_PLACES: usize = 4;

/// The clause of an atom and one of its parts.
fn part_clause(alloc: Global, atom: Atom, every: bool, part: Part) -> Result<PartList, OutOfMemory>
    ensures { IfOk result (λ list. Some list ≡ part_clause atom every (Some part)) }
{
    if every {
        two_parts(alloc, literal(atom, false), part)
    } else {
        two_parts(alloc, literal(atom, true), negation(part))
    }
}

/// The clause of an atom and all of its parts.
fn last_clause(alloc: Global, atom: Atom, parts: &AtomParts<'_>) -> Result<PartList, OutOfMemory>
    ensures { IfOk result (λ list. let listed = listed_parts parts.now in
        list ≡ last_clause atom listed.every listed.list) }
{
    let mut list = PartList::new(alloc);
    list.push(literal(atom, parts.every()))?;
    if !parts.every() {
        parts.push_onto(&mut list)?;
        return Ok(list);
    }
    'places: for place in 0..parts.len() {
        if let Some(part) = parts.get(place) {
            list.push(negation(part))?;
        }
    }
    Ok(list)
}

/// The clause of an atom by its parts at a place, if there is such a place. It looks at one part, or at the last place
/// at all of them.
fn place_clause(
    alloc: Global,
    atom: Atom,
    parts: &AtomParts<'_>,
    place: usize,
) -> Result<Option<PartList>, OutOfMemory>
    ensures { IfOk result (λ o. let listed = listed_parts parts.now in
        o ≡ place_clause atom listed.every listed.list place) }
{
    if place == parts.len() {
        return Ok(Some(last_clause(alloc, atom, parts)?));
    }
    match parts.get(place) {
        Some(part) => Ok(Some(part_clause(alloc, atom, parts.every(), part)?)),
        None => Ok(None),
    }
}

/// The parts of the clause of an atom at a place, if there is such a place.
pub(crate) fn clause_at(
    alloc: Global,
    atom: Atom,
    fixing: &Fixing<'_>,
    place: usize,
) -> Result<Option<PartList>, OutOfMemory>
    requires { IsOfAtom atom (listed_fixing fixing.now) }
    ensures { IfOk result (λ o. o ≡ clause_at atom (listed_fixing fixing.now) place) }
{
    match fixing {
        Fixing::NoAtom | Fixing::Free => Ok(None),
        Fixing::ByParts(parts) => place_clause(alloc, atom, parts, place),
        Fixing::ByCount { i, x, j, m, item } => {
            if place >= COUNTER_PLACES {
                return Ok(None);
            }
            let (i, x) = (*i as usize, *x as usize);
            Ok(Some(count_clause(alloc, i, x, *j, *m, *item, place)?))
        }
    }
}

/// How many places the clauses of an atom have before that of all its parts.
fn first_places(fixing: &Fixing<'_>) -> usize
    ensures { result ≡ first_places (listed_fixing fixing.now) }
{
    match fixing {
        Fixing::NoAtom | Fixing::Free => 0,
        Fixing::ByParts(parts) => parts.len(),
        Fixing::ByCount { .. } => COUNTER_PLACES,
    }
}

/// What the parts of a clause give, if there are any.
pub(crate) fn finish_clause(alloc: Global, parts: Option<PartList>) -> Result<Clause, OutOfMemory>
    ensures { IfOk result (λ c. c ≡ finished parts) }
{
    match parts {
        Some(parts) => finish(alloc, parts.as_slice()),
        None => Ok(Clause::OutOfRange),
    }
}

/// Appends the clause of an atom at a place.
fn push_clause(
    alloc: Global,
    atom: Atom,
    fixing: &Fixing<'_>,
    place: usize,
    clauses: &mut ClauseList,
) -> Result<(), OutOfMemory>
    requires { IsOfAtom atom (listed_fixing fixing.now) }
    ensures { OnOk result (clauses.new
        ≡ clauses.old ++ finished (clause_at atom (listed_fixing fixing.now) place) ∷ []) }
{
    let parts = clause_at(alloc, atom, fixing, place)?;
    clauses.push(finish_clause(alloc, parts)?)
}

/// The clauses of an atom at all places, by one look at what fixes it.
pub(crate) fn all_clauses(
    alloc: Global,
    atom: Atom,
    fixing: &Fixing<'_>,
) -> Result<ClauseList, OutOfMemory>
    requires { IsOfAtom atom (listed_fixing fixing.now) }
    ensures { IfOk result (λ list. list ≡ map (λ k. finished (clause_at atom (listed_fixing fixing.now) k))
        (range_with_len 0 (places (listed_fixing fixing.now)))) }
{
    let mut clauses = ClauseList::new(alloc);
    'places: for place in 0..first_places(fixing) {
        push_clause(alloc, atom, fixing, place, &mut clauses)?;
    }
    if let Fixing::ByParts(parts) = fixing {
        push_clause(alloc, atom, fixing, parts.len(), &mut clauses)?;
    }
    Ok(clauses)
}
