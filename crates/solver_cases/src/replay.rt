ghost use Rattle.std.specs.Prelude.{IfOk, IsTrue};
ghost use Rattle.clause_store.specs.Clauses.{are_within};
ghost use Rattle.clause_store.specs.Stored.{stored};

use crate::clauses::{is_clause, is_within, variable_count};
use crate::refusal::CaseError;
use clause_store::{ClauseStore, Lits, PlainStore};
use refute_check::{Marks, StepRefusal, check_step, is_refuted};
use sat_core::LogStep;
use std::alloc::Global;
use std::fmt;

/// What the checker of steps finds of a log.
#[derive(Clone, Copy, Debug, PartialEq, Eq)]
pub enum Replayed {
    /// Each step is a chain, and the last clause is empty.
    Refutation,
    /// Each step is a chain.
    Chains,
    /// The step with this number, from 0, is refused.
    Refused { step: usize },
}

impl fmt::Display for Replayed {
    fn fmt<W: fmt::Write>(&self, f: &mut fmt::Formatter<W>) -> fmt::Result {
        match self {
            Replayed::Refutation => f.write_str("a refutation"),
            Replayed::Chains => f.write_str("chains"),
            Replayed::Refused { step } => write!(f, "step {step} is refused"),
        }
    }
}

/// The clauses, in a store of their own.
fn stored_clauses(alloc: Global, vars: usize, clauses: &[Lits]) -> Result<PlainStore, CaseError>
    ensures { IfOk result (λ s. IsTrue (are_within vars (stored s))) }
{
    let mut store = PlainStore::new(alloc);
    for clause in clauses {
        let lits = clause.as_slice();
        if !is_clause(lits) || !is_within(vars, lits) {
            return Err(CaseError::Line { line: 0 });
        }
        store.push(lits)?;
    }
    Ok(store)
}

/// Whether a step is a chain; then its clause is appended.
fn is_next(store: &mut PlainStore, marks: &mut Marks, ids: &[u64]) -> Result<bool, CaseError>
    requires { IsTrue (are_within marks.old (stored store.old)) }
    ensures { IsTrue (are_within marks.new (stored store.new)) }
{
    if ids.len() < 2 {
        return Ok(false);
    }
    match check_step(store, marks, ids) {
        Ok(_) => Ok(true),
        Err(StepRefusal::OutOfMemory) => Err(CaseError::OutOfMemory),
        Err(StepRefusal::UnknownId { .. } | StepRefusal::NoSingleClash { .. }) => Ok(false),
    }
}

/// What the checker of steps finds of a log of steps over these clauses.
pub fn replay(alloc: Global, clauses: &[Lits], steps: &[LogStep]) -> Result<Replayed, CaseError> {
    let vars = variable_count(clauses);
    let mut marks = Marks::new(alloc);
    marks.reserve(vars)?;
    let mut store = stored_clauses(alloc, vars, clauses)?;
    for (step, logged) in steps.iter().enumerate() {
        if !is_next(&mut store, &mut marks, logged.ids.as_slice())? {
            return Ok(Replayed::Refused { step });
        }
    }
    if is_refuted(&store) {
        Ok(Replayed::Refutation)
    } else {
        Ok(Replayed::Chains)
    }
}
