ghost use Rattle.std.specs.Prelude.{◌≡◌, ◌≢◌, ◌≤◌, ◌<◌, ◌-◌, ◌++◌, ◌∷◌, [], ℕ, length, take, IsTrue, Some, false};
ghost use Rattle.std.specs.Prelude.{true, slice_get};
ghost use Rattle.std.specs.Prelude.{IfOk, OnOk, OnErr, IfSome, IfNone};
ghost use Rattle.clause_store.specs.Clauses.{is_clause, is_within, mentions};
ghost use Rattle.clause_store.specs.Chained.{IsChained};
ghost use Rattle.sat_core.specs.Assignments.{IsAtRest, IsFresh};
ghost use Rattle.sat_core.specs.Passed.{AreAllAssigned, HasOneMore};
ghost use Rattle.sat_core.specs.Solving.{assigned, is_known, lits_of, Extends, Ends, HasEmpty, IsFurther, IsModel};
ghost use Rattle.sat_core.specs.Solving.{KeepsAllButTrail, IsFalseAt};

use crate::choosing::{first_free, is_open, names};
use crate::learning::{LearnedClause, learned_from};
use crate::trail::LogStep;
use crate::{Outcome, Solver};
use clause_store::{ClauseStore, Lit};
use rdf_terms::{Numbers, OutOfMemory};

impl<S: ClauseStore> Solver<S> {
    /// Whether the last clause is empty; if not, none is.
    fn is_refuted(&self) -> bool
        ensures yes { result ≡ true → (slice_get self.now.clauses (length self.now.clauses - 1) ≡ Some [])
            × (0 < length self.now.clauses) }
        ensures no { result ≡ false → ¬ (HasEmpty self.now.clauses) }
    {
        let len = self.store.len();
        if len == 0 {
            return false;
        }
        self.store.clause(len - 1).is_empty()
    }

    /// What follows from the clause at the place, which is false.
    fn analyze(&self, conflict: usize) -> Result<LearnedClause, OutOfMemory>
        requires conflict { IsFalseAt self.now conflict }
        requires full { ¬ (HasEmpty self.now.clauses) }
        ensures chained { IfOk result (λ p. IsChained self.now.clauses p.ids.items p.lits.items) }
        ensures once { IfOk result (λ p. IsTrue (is_clause p.lits.items)) }
        ensures below { IfOk result (λ p. IsTrue (is_within self.now.room p.lits.items)) }
        ensures fresh { IfOk result (λ p. p.lits.items ≢ [] → IsFresh self.now.clauses p.lits.items) }
        ensures keep { IfOk result (λ p. p.keep ≤ length self.now.starts) }
        ensures rest { IfOk result (λ p. (j k : ℕ) → j < p.keep → slice_get self.now.starts j ≡ Some k
            → IsAtRest (lits_of (take k self.now.trail)) (self.now.clauses ++ p.lits.items ∷ [])) }
    {
        learned_from(
            self.alloc,
            &self.store,
            self.trail.as_slice(),
            self.starts.as_slice(),
            self.signs.len(),
            conflict,
        )
    }

    /// Appends the learned clause, and logs its chain.
    fn append(&mut self, learned: LearnedClause) -> Result<(), OutOfMemory>
        requires full { ¬ (HasEmpty self.old.clauses) }
        requires chained { IsChained self.old.clauses learned.ids.items learned.lits.items }
        requires once { IsTrue (is_clause learned.lits.items) }
        requires below { IsTrue (is_within self.old.room learned.lits.items) }
        requires fresh { learned.lits.items ≢ [] → IsFresh self.old.clauses learned.lits.items }
        requires rest { (j k : ℕ) → slice_get self.old.starts j ≡ Some k
            → IsAtRest (lits_of (take k self.old.trail)) (self.old.clauses ++ learned.lits.items ∷ []) }
        ensures clauses { OnOk result (self.new.clauses ≡ self.old.clauses ++ learned.lits.items ∷ []) }
        ensures log { OnOk result (self.new.log
            ≡ self.old.log ++ record { place = length self.old.clauses; ids = learned.ids.items } ∷ []) }
        ensures trail { self.new.trail ≡ self.old.trail }
        ensures starts { self.new.starts ≡ self.old.starts }
        ensures room { self.new.room ≡ self.old.room }
        ensures kept { take (length self.old.clauses) self.new.clauses ≡ self.old.clauses }
        ensures unlogged { OnErr result (self.new.log ≡ self.old.log) }
    {
        self.hints.bump(learned.lits.as_slice());
        let place = self.store.push(learned.lits.as_slice())?;
        self.steps.push(LogStep {
            place,
            ids: Numbers::from_vec(learned.ids),
        })?;
        Ok(())
    }

    /// Learns from the clause at the place, which is false. Answers whether what is learned is empty.
    fn learn_from(&mut self, conflict: usize) -> Result<bool, OutOfMemory>
        requires conflict { IsFalseAt self.old conflict }
        requires full { ¬ (HasEmpty self.old.clauses) }
        ensures one { IfOk result (λ b. HasOneMore self.old self.new b) }
        ensures kept { take (length self.old.clauses) self.new.clauses ≡ self.old.clauses }
        ensures unlogged { OnErr result (self.new.log ≡ self.old.log) }
    {
        let learned = self.analyze(conflict)?;
        self.backjump(learned.keep)?;
        let empty = learned.lits.is_empty();
        self.append(learned)?;
        Ok(empty)
    }

    /// Whether the variable is unassigned, and stands in the clause that is known for it.
    fn may_decide(&self, var: usize) -> bool
        ensures known { result ≡ true → IsTrue (is_known self.now.clauses var) }
        ensures free { result ≡ true → mentions (assigned self.now) var ≡ false }
    {
        let place = self.hints.place_of(var);
        if var >= self.signs.len() || place >= self.store.len() {
            return false;
        }
        if !names(self.store.clause(place), var) {
            return false;
        }
        is_open(self.signs.as_slice(), var)
    }

    /// Whether the literal may be decided, and counts more than the other.
    fn is_better(&self, lit: Lit, best: Option<Lit>) -> bool
        ensures known { result ≡ true → IsTrue (is_known self.now.clauses lit.var) }
        ensures free { result ≡ true → mentions (assigned self.now) lit.var ≡ false }
    {
        let more = match best {
            Some(other) => self.hints.score(lit.var) > self.hints.score(other.var),
            None => true,
        };
        if !more {
            return false;
        }
        self.may_decide(lit.var)
    }

    /// Of the preferred literals that may be decided, the first of those that count most.
    fn best_preferred(&self) -> Option<Lit>
        ensures known { IfSome result (λ l. IsTrue (is_known self.now.clauses l.var)) }
        ensures free { IfSome result (λ l. mentions (assigned self.now) l.var ≡ false) }
    {
        let mut best: Option<Lit> = None;
        for lit in self.hints.preferred() {
            if self.is_better(*lit, best) {
                best = Some(*lit);
            }
        }
        best
    }

    /// Of the variables that may be decided, the denial of the first of those that count most.
    fn best_denial(&self) -> Option<Lit>
        ensures known { IfSome result (λ l. IsTrue (is_known self.now.clauses l.var)) }
        ensures free { IfSome result (λ l. mentions (assigned self.now) l.var ≡ false) }
    {
        let mut best: Option<Lit> = None;
        for var in 0..self.signs.len() {
            let lit = Lit {
                var,
                positive: false,
            };
            if self.is_better(lit, best) {
                best = Some(lit);
            }
        }
        best
    }

    /// The first unassigned literal of a clause.
    fn first_open(&self) -> Option<Lit>
        ensures known { IfSome result (λ l. IsTrue (is_known self.now.clauses l.var)) }
        ensures free { IfSome result (λ l. mentions (assigned self.now) l.var ≡ false) }
        ensures none { IfNone result (AreAllAssigned self.now) }
        ensures once { IsTrue (is_clause (assigned self.now)) }
    {
        for i in 0..self.store.len() {
            if let Some(lit) = first_free(self.signs.as_slice(), self.store.clause(i)) {
                return Some(lit);
            }
        }
        None
    }

    /// What helps to choose, or else any unassigned literal.
    fn suggested(&self) -> Option<Lit>
        ensures known { IfSome result (λ l. IsTrue (is_known self.now.clauses l.var)) }
        ensures free { IfSome result (λ l. mentions (assigned self.now) l.var ≡ false) }
    {
        match self.best_preferred() {
            Some(lit) => Some(lit),
            None => self.best_denial(),
        }
    }

    /// The literal to decide; none where all are assigned.
    fn choose(&self) -> Option<Lit>
        ensures known { IfSome result (λ l. IsTrue (is_known self.now.clauses l.var)) }
        ensures free { IfSome result (λ l. mentions (assigned self.now) l.var ≡ false) }
        ensures none { IfNone result (AreAllAssigned self.now) }
        ensures once { IfNone result (IsTrue (is_clause (assigned self.now))) }
    {
        match self.suggested() {
            Some(lit) => Some(lit),
            None => self.first_open(),
        }
    }

    /// Decides until a clause is false, whose place is answered, or all are true.
    fn search(&mut self) -> Result<Option<usize>, OutOfMemory>
        ensures same { KeepsAllButTrail self.old self.new }
        ensures conflict { IfOk result (λ o. IfSome o (λ i. IsFalseAt self.new i)) }
        ensures model { IfOk result (λ o. IfNone o (IsModel self.new)) }
    {
        loop {
            match self.propagate()? {
                Some(conflict) => return Ok(Some(conflict)),
                None => match self.choose() {
                    None => return Ok(None),
                    Some(lit) => self.decide(lit)?,
                },
            }
        }
    }

    /// How many steps are logged.
    fn step_count(&self) -> usize
        ensures { result ≡ length self.now.log }
    {
        self.steps.as_slice().len()
    }

    /// Goes back to level 0, searches for an assignment that makes every clause true, and learns a clause from each
    /// conflict, until one is found, whose values can then be asked for, the empty clause is learned, or the log has
    /// `budget` steps and there is a conflict more. Where the last clause is empty before, that is the answer at once.
    ///
    /// Each learned clause is logged with its chain over the clauses before it, over which it is new. After
    /// `OutOfMemory` clauses and steps that were there stay, and each logged step is a chain (as [`Solver::log`] says).
    pub fn solve(&mut self, budget: u64) -> Result<Outcome, OutOfMemory>
        requires { length self.old.log ≤ budget }
        ensures extends { OnOk result (Extends self.old self.new) }
        ensures further { IsFurther self.old self.new }
        ensures bound { length self.new.log ≤ budget }
        ensures ends { IfOk result (λ o. Ends budget self.new o) }
    {
        self.backjump(0)?;
        if self.is_refuted() {
            return Ok(Outcome::Refuted);
        }
        for step in self.step_count() as u64..budget {
            match self.search()? {
                None => return Ok(Outcome::Model),
                Some(conflict) => {
                    if self.learn_from(conflict)? {
                        return Ok(Outcome::Refuted);
                    }
                }
            }
        }
        match self.search()? {
            None => Ok(Outcome::Model),
            Some(_) => Ok(Outcome::Spent),
        }
    }
}
