ghost use Rattle.std.specs.Prelude.{◌≡◌, ◌≤◌, ◌<◌, ◌++◌, ◌∷◌, [], List, length, IfOk, OnOk, IfSome, IfNone, Some};
ghost use Rattle.std.specs.Prelude.{slice_get};
ghost use Rattle.clause_store.specs.Clauses.{has};
ghost use Rattle.clause_store.specs.declared.lit.Lit.{Lit as Literal};
ghost use Rattle.sat_core.specs.Assignments.{IsAtRest};
ghost use Rattle.sat_core.specs.Passed.{IsPassed};
ghost use Rattle.sat_core.specs.Scanned.{IsScan, IsUnitUnder};
ghost use Rattle.sat_core.specs.Solving.{assigned, HasGrown, IsFalseAt};

use crate::Solver;
use crate::scanning::{Scan, scan_clause};
use crate::trail::Entry;
use clause_store::{ClauseStore, Lit};
use literal_signs::sign_of;
use rdf_terms::OutOfMemory;

/// How a pass over all clauses ended.
#[derive(Clone, Copy, Debug, PartialEq, Eq)]
pub(crate) enum Pass {
    /// The clause at this place is false.
    False(usize),
    /// Something was made true.
    Changed,
    /// There was nothing to make true.
    Rest,
}

impl<S: ClauseStore> Solver<S> {
    /// How many clauses there are.
    fn clause_count(&self) -> usize
        ensures { result ≡ length self.now.clauses }
    {
        self.store.len()
    }

    /// How the clause at the place stands.
    fn look(&self, i: usize) -> Scan
        requires { i < length self.now.clauses }
        ensures { (c : List Literal) × (slice_get self.now.clauses i ≡ Some c)
            × IsScan (has (assigned self.now)) c result }
    {
        scan_clause(self.signs.as_slice(), self.store.clause(i))
    }

    /// Makes the literal true, which is the one unassigned literal of the clause at the place, whose others are false.
    fn imply(&mut self, lit: Lit, reason: usize) -> Result<(), OutOfMemory>
        requires { (c : List Literal) × (slice_get self.old.clauses reason ≡ Some c)
            × IsUnitUnder (has (assigned self.old)) (has c) lit }
        ensures grown { HasGrown self.old self.new }
        ensures trail { OnOk result (self.new.trail
            ≡ self.old.trail ++ record { lit = lit; reason = Some reason } ∷ []) }
        ensures room { length self.new.trail ≤ self.new.room }
    {
        self.trail.push(Entry {
            lit,
            reason: Some(reason),
        })?;
        self.signs[lit.var] = sign_of(lit.positive);
        Ok(())
    }

    /// Looks once at each clause.
    fn pass(&mut self) -> Result<Pass, OutOfMemory>
        ensures grown { HasGrown self.old self.new }
        ensures passed { IfOk result (λ p. IsPassed self.old self.new p) }
    {
        let mut changed = false;
        for i in 0..self.clause_count() {
            match self.look(i) {
                Scan::Other => {}
                Scan::False => return Ok(Pass::False(i)),
                Scan::Unit(lit) => {
                    self.imply(lit, i)?;
                    changed = true;
                }
            }
        }
        if changed {
            Ok(Pass::Changed)
        } else {
            Ok(Pass::Rest)
        }
    }

    /// Makes true what has to be, until a clause is false, whose place is answered, or nothing is left to make true.
    /// After `OutOfMemory` some of it is true.
    pub fn propagate(&mut self) -> Result<Option<usize>, OutOfMemory>
        ensures grown { HasGrown self.old self.new }
        ensures conflict { IfOk result (λ o. IfSome o (λ i. IsFalseAt self.new i)) }
        ensures rest { IfOk result (λ o. IfNone o (IsAtRest (assigned self.new) self.new.clauses)) }
    {
        loop {
            match self.pass()? {
                Pass::False(i) => return Ok(Some(i)),
                Pass::Rest => return Ok(None),
                Pass::Changed => {}
            }
        }
    }
}
