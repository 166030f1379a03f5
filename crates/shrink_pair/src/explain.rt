ghost use Rattle.std.specs.Prelude.{◌<◌, ◌^◌, IfOk};
ghost use Rattle.shrink_pair.specs.Explanations.{IsExplanation};

use crate::session::Session;
use certificates::{accepted_claims_are_true, fresh_proofs_are_bounded};
use clause_ground::ground_problem;
use proof_lines::Proof;
use rdf_terms::OutOfMemory;
use repair_problem::Problem;
use sat_core::Outcome;
use std::alloc::Global;

/// A proof about the repairs of a problem, with at most `budget` steps. It is accepted, and its claim is true.
///
/// It claims a minimal pair, or that no pair explains; or it claims nothing, which it does only where it has exactly
/// `budget` steps, each of them fresh, so that the budget is at most 3^a where the clauses of its rules have a atoms.
/// Where no pair explains, it claims so unless it claims nothing.
///
/// The numbers of each chain line ascend, so that the document can be written. The budget is from 1 to 2^63 - 1.
pub fn explain_problem(alloc: Global, problem: &Problem, budget: u64) -> Result<Proof, OutOfMemory>
    requires from { 0 < budget }
    requires to { budget < 2 ^ 63 }
    ensures { IfOk result (λ proof. IsExplanation problem.now budget proof) }
{
    // Laws about all proofs, which the contract needs. The calls do nothing.
    accepted_claims_are_true(problem);
    fresh_proofs_are_bounded(problem);
    // The clause of this call says that no offer is in the data.
    let _offers = problem.offers();
    let ground = ground_problem(alloc, problem)?;
    let mut session = Session::new(alloc, problem, &ground)?;
    // A next pair has fewer candidates than the one before, so this ends.
    'searches: loop {
        match session.search(budget)? {
            Outcome::Model => session.descend()?,
            Outcome::Refuted => return Ok(session.into_refutation()),
            Outcome::Spent => return Ok(session.into_spent()),
        }
    }
}
