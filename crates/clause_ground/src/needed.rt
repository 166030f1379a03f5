ghost use Rattle.std.specs.Prelude.{◌≡◌, ◌<◌, IfOk, OnOk, length};
ghost use Rattle.repair_problem.specs.declared.atom.Atom.{Atom as Fact};
ghost use Rattle.atom_parts.specs.PartLiterals.{In};
ghost use Rattle.clause_ground.specs.Needed.{rule_at, AreNeeded, IsNeededAtom};
ghost use Rattle.clause_ground.specs.Grounds.{premises, atoms};
ghost use Rattle.atom_numbers.specs.Numbers.{AreApart};
ghost use Rattle.clause_ground.specs.Growth.{AddsClause, Grows, IsSound, IsClosedTo, IsMade, found};
ghost use Rattle.clause_ground.specs.Premises.{rules_of, clauses_of};
ghost use Rattle.clause_ground.specs.Models.{AreOfExplanations};

use crate::Ground;
use crate::atom_rules::rule_at;
use crate::roots::add_roots;
use premise_rules::{Clause, PremiseRules};
use rdf_terms::OutOfMemory;
use repair_problem::{Atom, Problem};
use std::alloc::Global;

/// Adds the premise of the clause of an atom at a place, unless it is a tautology.
fn add_clause(
    alloc: Global,
    ground: &mut Ground,
    atom: &Atom,
    place: u64,
    clause: &Clause,
) -> Result<(), OutOfMemory>
    ensures { OnOk result (AddsClause (found (premises ground.old) (atoms ground.old))
        (rule_at atom.now place) clause.now (found (premises ground.new) (atoms ground.new))) }
{
    let Clause::Literals(literals) = clause else {
        return Ok(());
    };
    match rule_at(alloc, atom, place)? {
        Some(rule) => ground.add(rule, literals.as_slice()),
        None => Ok(()),
    }
}

/// Adds the premises of an atom that has a number, by one look at what fixes it.
fn add_atom(
    alloc: Global,
    ground: &mut Ground,
    rules: &mut PremiseRules<'_>,
    v: usize,
) -> Result<(), OutOfMemory>
    requires number { v < length (atoms ground.old) }
    requires sound { IsSound rules.old (found (premises ground.old) (atoms ground.old)) }
    ensures grows { OnOk result (Grows rules.old (found (premises ground.old) (atoms ground.old))
        (found (premises ground.new) (atoms ground.new))) }
    ensures made { OnOk result (IsMade rules.old (atoms ground.old) v (rules_of (premises ground.new))) }
    ensures same { rules.new ≡ rules.old }
{
    let atom = *ground.atom(v);
    let clauses = rules.clauses_of(&atom)?;
    'clauses: for (place, clause) in clauses.as_slice().iter().enumerate() {
        add_clause(alloc, ground, &atom, place as u64, clause)?;
    }
    Ok(())
}

/// Adds the premises of each atom that stands in a premise, until all are there.
fn add_atoms(
    alloc: Global,
    ground: &mut Ground,
    rules: &mut PremiseRules<'_>,
) -> Result<(), OutOfMemory>
    requires sound { IsSound rules.old (found (premises ground.old) (atoms ground.old)) }
    ensures grows { OnOk result (Grows rules.old (found (premises ground.old) (atoms ground.old))
        (found (premises ground.new) (atoms ground.new))) }
    ensures closed { OnOk result (IsClosedTo rules.old (length (atoms ground.new))
        (found (premises ground.new) (atoms ground.new))) }
{
    let mut next = 0;
    'working: while next < ground.atom_count() {
        add_atom(alloc, ground, rules, next)?;
        next += 1;
    }
    Ok(())
}

/// The premises that are needed, and their clauses in numbers. A node that can be a focus node of a shape has its
/// premise `Root`; an atom that stands in a premise has all of its own. Tautologies are left out. Exactly the atoms
/// that stand in premises have numbers, each one, in the order in which they first do.
///
/// An assignment that makes all clauses true is that of a change which explains: of the candidates whose value isn't
/// whether they are in the data. A candidate that stands in no clause stays as it is. Each atom has the value of what
/// it means in the edited graph. And an edited graph that conforms makes all clauses true.
pub fn ground_problem(alloc: Global, problem: &Problem) -> Result<Ground, OutOfMemory>
    ensures needed { IfOk result (λ g. AreNeeded problem.now (premises g) (atoms g)) }
    ensures apart { IfOk result (λ g. AreApart (atoms g)) }
    ensures atoms { IfOk result (λ g. (a : Fact) → In (atoms g) a → IsNeededAtom problem.now a) }
    ensures explanations { IfOk result (λ g. AreOfExplanations problem.now (clauses_of (premises g)) (atoms g)) }
{
    let shapes = problem.shapes();
    // The clauses of these calls say that the shapes are in the profile, and that no offer is in the data.
    let _triples = shapes.triples();
    let _offers = problem.offers();
    let mut rules = PremiseRules::new(alloc, problem)?;
    let mut ground = Ground::new(alloc);
    add_roots(alloc, &mut ground, problem)?;
    add_atoms(alloc, &mut ground, &mut rules)?;
    Ok(ground)
}
