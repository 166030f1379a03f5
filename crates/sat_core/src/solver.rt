ghost use Rattle.std.specs.Prelude.{◌≡◌, ◌<◌, ◌≤◌, ◌++◌, ◌∷◌, [], ℕ, length, take, slice_get, IsTrue, Some, None};
ghost use Rattle.std.specs.Prelude.{true, false};
ghost use Rattle.std.specs.Prelude.{IfOk, OnOk, OnErr, not};
ghost use Rattle.clause_store.specs.Clauses.{are_clauses, has, is_clause, is_within, mentions};
ghost use Rattle.sat_core.specs.Assignments.{IsAtRest};
ghost use Rattle.sat_core.specs.Solving.{assigned, is_known, lits_of, HasEmpty, KeepsAllButTrail, IsLog};

use crate::choosing::is_set;
use crate::hints::Hints;
use crate::room::make_room_for;
use crate::trail::{Entry, Log};
use crate::undoing::undo;
use clause_store::{ClauseStore, Lit, Lits};
use literal_signs::{Sign, is_marked, sign_of};
use rdf_terms::OutOfMemory;
use std::alloc::Global;
use std::marker::Model;

/// A solver over any store of clauses. Contracts see its clauses, its trail with the starts of its levels, its log, and
/// for how many variables it has room.
///
/// Level 0 is below the first decision. Each decision starts a level, and what follows from it belongs to that level.
#[derive(Drop)]
pub struct Solver<S: ClauseStore> {
    pub(crate) alloc: Global,
    pub(crate) store: S,
    pub(crate) trail: Vec<Entry>,
    pub(crate) starts: Vec<usize>,
    pub(crate) steps: Log,
    pub(crate) signs: Vec<Sign>,
    pub(crate) hints: Hints,
}

impl<S: ClauseStore> Model for Solver<S> {
    ghost use Rattle.std.specs.Prelude.{length};
    ghost use Rattle.sat_core.specs.Kept.{IsKept};
    ghost use Rattle.sat_core.specs.Solving.{Solving};

    ghost Value = { Solving };

    ghost view = { λ s. record {
      clauses = S.clauses s.store;
      trail = s.trail.items;
      starts = s.starts.items;
      log = s.steps;
      room = length s.signs.items;
    } };

    ghost invariant = { λ s. IsKept (record {
      clauses = S.clauses s.store;
      trail = s.trail.items;
      starts = s.starts.items;
      log = s.steps;
      room = length s.signs.items;
    }) s.signs.items };
}

impl<S: ClauseStore> Solver<S> {
    /// The solver over an empty store, at level 0. It takes no memory.
    pub fn new(alloc: Global, store: S) -> Solver<S>
        requires { S.clauses store ≡ [] }
        ensures clauses { result.clauses ≡ [] }
        ensures trail { result.trail ≡ [] }
        ensures starts { result.starts ≡ [] }
        ensures log { result.log ≡ [] }
    {
        Solver {
            alloc,
            store,
            trail: Vec::new(alloc),
            starts: Vec::new(alloc),
            steps: Log::new(alloc),
            signs: Vec::new(alloc),
            hints: Hints::new(alloc),
        }
    }

    /// The present level. It takes no memory.
    pub fn level(&self) -> usize
        ensures { result ≡ length self.now.starts }
    {
        self.starts.len()
    }

    /// Whether the variable is known, so that it stands in a clause, and is assigned. It takes no memory.
    pub fn is_assigned(&self, var: usize) -> bool
        ensures value { result ≡ mentions (assigned self.now) var }
        ensures known { IsTrue result → IsTrue (is_known self.now.clauses var) }
    {
        is_set(self.signs.as_slice(), var)
    }

    /// The value of an assigned variable: the literal that says so is true, and its opposite isn't.
    pub fn value(&self, var: usize) -> bool
        requires { IsTrue (mentions (assigned self.now) var) }
        ensures own { IsTrue (has (assigned self.now) (record { var = var; positive = result })) }
        ensures other { has (assigned self.now) (record { var = var; positive = not result }) ≡ false }
    {
        is_marked(self.signs[var], true)
    }

    /// The learned clauses with the chains that give them, in the order in which they were learned. Their places
    /// ascend.
    pub fn log(&self) -> &Log
        ensures value { result.now ≡ self.now.log }
        ensures chained { IsLog self.now.clauses self.now.log }
        ensures once { IsTrue (are_clauses self.now.clauses) }
    {
        &self.steps
    }

    /// The literals to decide first from now on; of these, the ones whose variables stood often in clauses that were
    /// learned of late. Those of no clause are passed over. Nothing else changes by it.
    pub fn prefer(&mut self, lits: Lits)
        ensures { self.new ≡ self.old }
    {
        self.hints.prefer(lits);
    }

    /// Decides that a literal is true, which starts a level. Its variable is known and unassigned, and `propagate` has
    /// found nothing more to make true. After `OutOfMemory` nothing has changed.
    pub fn decide(&mut self, lit: Lit) -> Result<(), OutOfMemory>
        requires known { IsTrue (is_known self.old.clauses lit.var) }
        requires free { mentions (assigned self.old) lit.var ≡ false }
        requires rest { IsAtRest (assigned self.old) self.old.clauses }
        ensures same { KeepsAllButTrail self.old self.new }
        ensures trail { OnOk result (self.new.trail ≡ self.old.trail ++ record { lit = lit; reason = None } ∷ []) }
        ensures starts { OnOk result (self.new.starts ≡ self.old.starts ++ length self.old.trail ∷ []) }
        ensures within { length self.new.trail ≤ self.new.room }
        ensures err { OnErr result (self.new ≡ self.old) }
    {
        let start = self.trail.len();
        self.starts.push(start)?;
        match self.trail.push(Entry { lit, reason: None }) {
            Ok(()) => {
                self.signs[lit.var] = sign_of(lit.positive);
                Ok(())
            }
            Err(_) => {
                let _ = self.starts.pop();
                Err(OutOfMemory)
            }
        }
    }

    /// Goes back to a level, which is at most the present one: of the trail what stands below the next level stays. It
    /// takes no memory, and never fails.
    pub fn backjump(&mut self, level: usize) -> Result<(), OutOfMemory>
        requires { level ≤ length self.old.starts }
        ensures same { KeepsAllButTrail self.old self.new }
        ensures starts { self.new.starts ≡ take level self.old.starts }
        ensures cut { (k : ℕ) → slice_get self.old.starts level ≡ Some k → self.new.trail ≡ take k self.old.trail }
        ensures whole { level ≡ length self.old.starts → self.new.trail ≡ self.old.trail }
        ensures before { (j k : ℕ) → j < level → slice_get self.old.starts j ≡ Some k
            → take k self.new.trail ≡ take k self.old.trail }
        ensures ok { OnErr result ⊥ }
    {
        if level < self.starts.len() {
            let start = self.starts[level];
            undo(&mut self.trail, self.signs.as_mut_slice(), start);
            self.starts.truncate(level);
        }
        Ok(())
    }

    /// Makes room for the variables of these literals.
    fn reserve(&mut self, lits: &[Lit]) -> Result<(), OutOfMemory>
        ensures clauses { self.new.clauses ≡ self.old.clauses }
        ensures log { self.new.log ≡ self.old.log }
        ensures trail { self.new.trail ≡ self.old.trail }
        ensures starts { self.new.starts ≡ self.old.starts }
        ensures room { OnOk result (IsTrue (is_within self.new.room lits.now)) }
    {
        make_room_for(&mut self.signs, lits)?;
        self.hints.reserve(self.signs.len())
    }

    /// Appends a clause for whose variables there is room.
    fn push(&mut self, lits: &[Lit]) -> Result<usize, OutOfMemory>
        requires once { IsTrue (is_clause lits.now) }
        requires full { ¬ (HasEmpty self.old.clauses) }
        requires level { self.old.starts ≡ [] }
        requires room { IsTrue (is_within self.old.room lits.now) }
        ensures place { IfOk result (λ i. i ≡ length self.old.clauses) }
        ensures added { OnOk result (self.new.clauses ≡ self.old.clauses ++ lits.now ∷ []) }
        ensures kept { OnErr result (self.new.clauses ≡ self.old.clauses) }
        ensures log { self.new.log ≡ self.old.log }
        ensures starts { self.new.starts ≡ self.old.starts }
    {
        let place = self.store.push(lits)?;
        self.hints.note_clause(lits, place);
        Ok(place)
    }

    /// Goes back to level 0, and appends a clause. Answers its place. After `OutOfMemory` the clauses are as before.
    pub fn add_clause(&mut self, lits: &[Lit]) -> Result<usize, OutOfMemory>
        requires once { IsTrue (is_clause lits.now) }
        requires full { ¬ (HasEmpty self.old.clauses) }
        ensures place { IfOk result (λ i. i ≡ length self.old.clauses) }
        ensures added { OnOk result (self.new.clauses ≡ self.old.clauses ++ lits.now ∷ []) }
        ensures kept { OnErr result (self.new.clauses ≡ self.old.clauses) }
        ensures log { self.new.log ≡ self.old.log }
        ensures level { self.new.starts ≡ [] }
    {
        self.backjump(0)?;
        self.reserve(lits)?;
        self.push(lits)
    }
}
