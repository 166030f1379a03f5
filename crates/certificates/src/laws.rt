//! What is true of all proofs that are accepted or fresh, whoever made them.
ghost use Rattle.certificates.specs.Shown.{AreAllShown};
ghost use Rattle.certificates.specs.Steps.{AreAllBounded};

use repair_problem::Problem;

/// The claim of each accepted proof is true: a claimed pair is minimal, or, where the claim is that none does, no pair
/// explains; and each pair of its chain explains.
pub fn accepted_claims_are_true(problem: &Problem)
    ensures { AreAllShown problem.now }
{
    // The clauses of these calls say that the shapes are in the profile, and that no offer is in the data.
    let _triples = problem.shapes().triples();
    let _offers = problem.offers();
}

/// A fresh proof has at most 3^a steps, where the clauses of its rules have a atoms.
pub fn fresh_proofs_are_bounded(problem: &Problem)
    ensures { AreAllBounded problem.now }
{}
