ghost use Rattle.std.specs.Prelude.{◌≡◌};
ghost use Rattle.sat_core.specs.Solving.{HasEmpty};

use crate::case_text::Case;
use crate::clauses::{is_clause, variable_count};
use crate::refusal::CaseError;
use crate::replay::replay;
use clause_store::{Lit, Lits, PlainStore};
use sat_core::{Outcome, Solver};
use std::alloc::Global;

/// Adds the clauses.
fn add_all(solver: &mut Solver<PlainStore>, clauses: &[Lits]) -> Result<(), CaseError>
    requires { ¬ (HasEmpty solver.old.clauses) }
    ensures { solver.new.log ≡ solver.old.log }
{
    for clause in clauses {
        let lits = clause.as_slice();
        if lits.is_empty() || !is_clause(lits) {
            return Err(CaseError::Line { line: 0 });
        }
        solver.add_clause(lits)?;
    }
    Ok(())
}

/// The same literals.
fn copy_lits(alloc: Global, lits: &[Lit]) -> Result<Lits, CaseError> {
    Ok(Lits::from_vec(Vec::from_slice(alloc, lits)?))
}

/// How the search ended, as a word.
fn outcome_word(outcome: Outcome) -> &'static str {
    match outcome {
        Outcome::Model => "model",
        Outcome::Refuted => "refuted",
        Outcome::Spent => "spent",
    }
}

/// Whether the values of the solver make a literal of each clause true.
fn is_model(solver: &Solver<PlainStore>, clauses: &[Lits]) -> bool {
    clauses.iter().all(|clause| {
        clause.as_slice().iter().any(|lit| solver.is_assigned(lit.var)
            && solver.value(lit.var) == lit.positive)
    })
}

/// Appends the literals that are true, with the numbers of their variables from 1.
fn push_values(
    alloc: Global,
    out: &mut String,
    solver: &Solver<PlainStore>,
    vars: usize,
) -> Result<(), CaseError> {
    for var in 0..vars {
        if solver.is_assigned(var) {
            let sign = if solver.value(var) { "" } else { "-" };
            let number = var + 1;
            let word = format!(in alloc; " {sign}{number}")?;
            out.push_str(word.as_str())?;
        }
    }
    Ok(())
}

/// The name of a case, and what the search for it gives.
pub fn answer_of(alloc: Global, case: &Case) -> Result<String, CaseError> {
    let mut solver = Solver::new(alloc, PlainStore::new(alloc));
    let clauses = case.clauses.as_slice();
    add_all(&mut solver, clauses)?;
    solver.prefer(copy_lits(alloc, case.preferred.as_slice())?);
    let outcome = solver.solve(case.budget)?;
    let steps = solver.log().as_slice();
    let replayed = replay(alloc, clauses, steps)?;
    let name = &case.name;
    let word = outcome_word(outcome);
    let count = steps.len();
    let mut out = format!(in alloc;
        "== {name}\n{word} after {count} steps\nchecker: {replayed}\nvalues:"
    )?;
    if outcome != Outcome::Model {
        out.push_str(" none\n")?;
    } else if is_model(&solver, clauses) {
        push_values(alloc, &mut out, &solver, variable_count(clauses))?;
        out.push('\n')?;
    } else {
        out.push_str(" no model\n")?;
    }
    Ok(out)
}
