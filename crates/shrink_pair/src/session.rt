ghost use Rattle.std.specs.Prelude.{◌≡◌, ◌≢◌, ◌≤◌, ◌++◌, [], ◌∷◌, ℕ, All, IfOk, IsTrue, OnOk, length, map};
ghost use Rattle.clause_store.specs.Clauses.{is_clause, mentions};
ghost use Rattle.sat_core.specs.Solving.{assigned, HasEmpty};
ghost use Rattle.proof_lines.specs.declared.proof.Claim.TheVariants.{Spent};
ghost use Rattle.clause_ground.specs.Grounds.{atoms, premises};
ghost use Rattle.clause_ground.specs.Needed.{AreNeeded};
ghost use Rattle.atom_numbers.specs.Numbers.{AreApart};
ghost use Rattle.shrink_pair.specs.Sessions.{state_of, started, is_changed, changed_of, left_of, descended};
ghost use Rattle.shrink_pair.specs.Sessions.{step_lines, unchanged_lits};
ghost use Rattle.shrink_pair.specs.Sessions.{premise, outside_premises, undo_premise, with_pair, with_premises};
ghost use Rattle.shrink_pair.specs.Sessions.{claim_refuted, AreAssigned, AreProper, IsSearched, IsSession};

use crate::candidates::{Candidate, numbers, occurring_candidates, unchanged_lits};
use crate::rules::{copy_numbers, copy_rule, outside_rule, undo_rule};
use clause_ground::Ground;
use clause_store::{Lit, PlainStore};
use proof_lines::{Claim, Proof, ProofLine, ProofLines, Rule};
use rdf_terms::OutOfMemory;
use repair_problem::Problem;
use sat_core::{LogStep, Outcome, Solver};
use std::alloc::Global;

/// Appends the lines of steps, whose ids are places of clauses of the solver, and so numbers of lines.
fn push_steps(alloc: Global, lines: &mut ProofLines, steps: &[LogStep]) -> Result<(), OutOfMemory>
    ensures { OnOk result (lines.new ≡ lines.old ++ step_lines steps.now) }
{
    'steps: for step in steps {
        let ids = copy_numbers(alloc, step.ids.as_slice())?;
        lines.push(ProofLine::Step(ids))?;
    }
    Ok(())
}

/// What is claimed where the last clause is empty, after so many pairs.
fn claim_refuted(pairs: u64) -> Claim
    ensures { result ≡ claim_refuted pairs }
{
    if pairs == 0 {
        Claim::NoPair
    } else {
        Claim::Pair
    }
}

/// A search for changes that explain, each below the one before, and the lines of its proof.
///
/// Each clause of the solver is that of a numbered line, in the same order, so places of clauses are numbers of lines.
#[derive(Drop)]
pub(crate) struct Session {
    alloc: Global,
    solver: Solver<PlainStore>,
    lines: ProofLines,
    /// What a next pair may still change: the candidates of the last pair, or before there is one all whose atoms stand
    /// in a clause.
    changeable: Vec<Candidate>,
    /// How many pairs were found.
    pairs: u64,
}

impl Session {
    /// The session without a clause. It decides these candidates first, as they are in the data.
    fn start(alloc: Global, changeable: Vec<Candidate>) -> Result<Session, OutOfMemory>
        ensures { IfOk result (λ c. state_of c ≡ started changeable.items) }
    {
        let mut solver = Solver::new(alloc, PlainStore::new(alloc));
        solver.prefer(unchanged_lits(alloc, changeable.as_slice())?);
        Ok(Session {
            alloc,
            solver,
            lines: ProofLines::new(alloc),
            changeable,
            pairs: 0,
        })
    }

    /// The session of a problem, which has the premises of its ground and no more.
    pub(crate) fn new(
        alloc: Global,
        problem: &Problem,
        ground: &Ground,
    ) -> Result<Session, OutOfMemory>
        requires needed { AreNeeded problem.now (premises ground.now) (atoms ground.now) }
        requires apart { AreApart (atoms ground.now) }
        ensures session { IfOk result (λ c. IsSession problem.now (atoms ground.now) (premises ground.now)
            (state_of c)) }
        ensures log { IfOk result (λ c. (state_of c).log ≡ []) }
    {
        // The clauses of these calls say that the shapes are in the profile, and that no offer is in the data.
        let _triples = problem.shapes().triples();
        let _offers = problem.offers();
        let mut session = Session::start(alloc, occurring_candidates(alloc, problem, ground)?)?;
        session.push_premises(ground)?;
        Ok(session)
    }

    /// Appends a premise.
    fn push_premise(&mut self, rule: Rule, lits: &[Lit]) -> Result<(), OutOfMemory>
        requires once { IsTrue (is_clause lits.now) }
        requires full { ¬ (HasEmpty (state_of self.old).clauses) }
        ensures { OnOk result (state_of self.new ≡ with_premises (state_of self.old) (premise rule lits.now ∷ [])) }
    {
        self.solver.add_clause(lits)?;
        self.lines.push(ProofLine::Rule(rule))
    }

    /// Appends the premises of a ground.
    fn push_premises(&mut self, ground: &Ground) -> Result<(), OutOfMemory>
        requires proper { AreProper (premises ground.now) }
        requires full { ¬ (HasEmpty (state_of self.old).clauses) }
        ensures { OnOk result (state_of self.new ≡ with_premises (state_of self.old) (premises ground.now)) }
    {
        'premises: for r in 0..ground.rule_count() {
            let rule = copy_rule(self.alloc, ground.rule(r))?;
            self.push_premise(rule, ground.clause(r))?;
        }
        Ok(())
    }

    /// Appends that each of these candidates is as in the data, since it is outside the pair of this number.
    fn push_outside(&mut self, pair: u64, left: &[Candidate]) -> Result<(), OutOfMemory>
        requires full { ¬ (HasEmpty (state_of self.old).clauses) }
        ensures state { OnOk result (state_of self.new
            ≡ with_premises (state_of self.old) (outside_premises pair left.now)) }
        ensures full { OnOk result (¬ (HasEmpty (state_of self.new).clauses)) }
    {
        'candidates: for candidate in left {
            let rule = outside_rule(self.alloc, pair, candidate.number)?;
            self.push_premise(rule, &[candidate.unchanged])?;
        }
        Ok(())
    }

    /// Appends that some candidate of the last pair, which has this number, is as in the data.
    fn push_undo(&mut self, pair: u64) -> Result<(), OutOfMemory>
        requires once { IsTrue (is_clause (unchanged_lits (state_of self.old).changeable)) }
        requires full { ¬ (HasEmpty (state_of self.old).clauses) }
        ensures { OnOk result (state_of self.new
            ≡ with_premises (state_of self.old) (undo_premise pair (state_of self.old).changeable ∷ [])) }
    {
        let rule = undo_rule(self.alloc, pair)?;
        let lits = unchanged_lits(self.alloc, self.changeable.as_slice())?;
        self.push_premise(rule, lits.as_slice())
    }

    /// Appends a pair.
    fn push_pair(&mut self, changed: Vec<Candidate>) -> Result<(), OutOfMemory>
        requires { (state_of self.old).pairs ≤ length (state_of self.old).lines }
        ensures { OnOk result (state_of self.new ≡ with_pair (state_of self.old) changed.items) }
    {
        let pair = numbers(self.alloc, changed.as_slice())?;
        self.lines.push(ProofLine::Chain(pair))?;
        // There are as many lines as pairs at least, so one pair more can be counted.
        let _count = self.lines.as_slice().len();
        self.changeable = changed;
        self.pairs += 1;
        Ok(())
    }

    /// Whether the candidate isn't as in the data, by the values that the solver has found.
    fn is_changed(&self, candidate: &Candidate) -> bool
        requires { IsTrue (mentions (assigned self.now.solver) candidate.now.unchanged.var) }
        ensures { result ≡ is_changed (assigned self.now.solver) candidate.now }
    {
        self.solver.value(candidate.unchanged.var) != candidate.unchanged.positive
    }

    /// The changeable candidates that are changed.
    fn changed(&self) -> Result<Vec<Candidate>, OutOfMemory>
        requires { AreAssigned (assigned self.now.solver) (state_of self.now).changeable }
        ensures { IfOk result (λ cs. cs.items ≡ changed_of (assigned self.now.solver) (state_of self.now).changeable) }
    {
        let mut found = Vec::new(self.alloc);
        'candidates: for candidate in self.changeable.as_slice() {
            if self.is_changed(candidate) {
                found.push(*candidate)?;
            }
        }
        Ok(found)
    }

    /// The changeable candidates that are as in the data.
    fn left(&self) -> Result<Vec<Candidate>, OutOfMemory>
        requires { AreAssigned (assigned self.now.solver) (state_of self.now).changeable }
        ensures { IfOk result (λ cs. cs.items ≡ left_of (assigned self.now.solver) (state_of self.now).changeable) }
    {
        let mut found = Vec::new(self.alloc);
        'candidates: for candidate in self.changeable.as_slice() {
            if !self.is_changed(candidate) {
                found.push(*candidate)?;
            }
        }
        Ok(found)
    }

    /// Appends the pair of the candidates that are changed, by the values that the solver has found; and what a pair
    /// below it leaves as in the data: each candidate that could be changed before and isn't in this pair, and some
    /// candidate of this pair. The latter comes last, since its clause may be empty, and then none can follow.
    pub(crate) fn descend(&mut self) -> Result<(), OutOfMemory>
        requires assigned { AreAssigned (assigned self.old.solver) (state_of self.old).changeable }
        requires once { IsTrue (is_clause (unchanged_lits
            (changed_of (assigned self.old.solver) (state_of self.old).changeable))) }
        requires full { ¬ (HasEmpty (state_of self.old).clauses) }
        requires pairs { (state_of self.old).pairs ≤ length (state_of self.old).lines }
        ensures { OnOk result (state_of self.new ≡ descended (state_of self.old) (assigned self.old.solver)) }
    {
        let changed = self.changed()?;
        let left = self.left()?;
        let pair = self.pairs;
        self.push_pair(changed)?;
        self.push_outside(pair, left.as_slice())?;
        self.push_undo(pair)
    }

    /// Searches for values that make all clauses true, and appends the steps that are learned. The budget is that of
    /// all searches of the session.
    pub(crate) fn search(&mut self, budget: u64) -> Result<Outcome, OutOfMemory>
        requires { length (state_of self.old).log ≤ budget }
        ensures { IfOk result (λ o. IsSearched budget (state_of self.old) (state_of self.new) self.new.solver o) }
    {
        let before = self.solver.log().as_slice().len();
        let outcome = self.solver.solve(budget)?;
        let steps = &self.solver.log().as_slice()[before..];
        push_steps(self.alloc, &mut self.lines, steps)?;
        Ok(outcome)
    }

    /// The lines so far, where the solver's last clause is empty: they claim the last pair, or none where there is no
    /// pair.
    pub(crate) fn into_refutation(self) -> Proof
        ensures claim { result.claim ≡ claim_refuted (state_of self).pairs }
        ensures lines { result.lines ≡ (state_of self).lines }
    {
        Proof {
            claim: claim_refuted(self.pairs),
            lines: self.lines,
        }
    }

    /// The lines so far, which claim nothing.
    pub(crate) fn into_spent(self) -> Proof
        ensures claim { result.claim ≡ Spent }
        ensures lines { result.lines ≡ (state_of self).lines }
    {
        Proof {
            claim: Claim::Spent,
            lines: self.lines,
        }
    }
}
