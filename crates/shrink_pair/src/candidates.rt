ghost use Rattle.std.specs.Prelude.{◌≡◌, ◌<◌, ◌≤◌, ℕ, IfOk, Some, length, map, slice_get};
ghost use Rattle.repair_problem.specs.Candidates.{candidates};
ghost use Rattle.repair_problem.specs.declared.atom.Atom.TheVariants.{Triple};
ghost use Rattle.clause_ground.specs.Grounds.{atoms};
ghost use Rattle.shrink_pair.specs.Sessions.{AreNumbered, IsCandidateAt, numbers, unchanged_lits};

use clause_ground::Ground;
use clause_store::{Lit, Lits};
use rdf_terms::{OutOfMemory, Places};
use repair_problem::{Atom, Problem};
use std::alloc::Global;

/// A candidate whose atom stands in a clause, so that a variable is that of its atom.
#[derive(Clone, Copy, Debug, PartialEq, Eq)]
pub(crate) struct Candidate {
    /// Its number among the candidates.
    pub number: u64,
    /// The literal that says that it is as in the data.
    pub unchanged: Lit,
}

/// The candidate of this number, if its atom stands in a clause.
fn candidate_at(problem: &Problem, ground: &Ground, t: usize) -> Option<Candidate>
    requires { t < length (candidates problem.now) }
    ensures { IsCandidateAt problem.now (atoms ground.now) t result }
{
    let number = t as u64;
    let var = ground.var_of(&Atom::Triple { t: number })?;
    Some(Candidate {
        number,
        unchanged: Lit {
            var,
            positive: problem.in_data(t),
        },
    })
}

/// The candidates whose atoms stand in a clause, ascending.
pub(crate) fn occurring_candidates(
    alloc: Global,
    problem: &Problem,
    ground: &Ground,
) -> Result<Vec<Candidate>, OutOfMemory>
    ensures { IfOk result (λ cs. AreNumbered problem.now (atoms ground.now) (length (candidates problem.now))
        cs.items) }
{
    let mut found = Vec::new(alloc);
    'candidates: for t in 0..problem.candidate_count() {
        if let Some(candidate) = candidate_at(problem, ground, t) {
            found.push(candidate)?;
        }
    }
    Ok(found)
}

/// The numbers of the candidates.
pub(crate) fn numbers(alloc: Global, candidates: &[Candidate]) -> Result<Places, OutOfMemory>
    ensures { IfOk result (λ made. made ≡ numbers candidates.now) }
{
    let mut found = Places::new(alloc);
    'candidates: for candidate in candidates {
        found.push(candidate.number)?;
    }
    Ok(found)
}

/// The literals that say that each candidate is as in the data.
pub(crate) fn unchanged_lits(alloc: Global, candidates: &[Candidate]) -> Result<Lits, OutOfMemory>
    ensures { IfOk result (λ made. made ≡ unchanged_lits candidates.now) }
{
    let mut found = Lits::new(alloc);
    'candidates: for candidate in candidates {
        found.push(candidate.unchanged)?;
    }
    Ok(found)
}
