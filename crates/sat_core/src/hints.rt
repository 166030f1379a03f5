use clause_store::Lit;
use rdf_terms::{Items, OutOfMemory};
use std::alloc::Global;

/// From here on all scores are rescaled, so that they stay far below the largest number.
const RESCALE_AT: u64 = 1 << 48;

/// By how many bits they are rescaled.
const RESCALE_BITS: u64 = 40;

/// What helps to choose what is decided next. No clause says what it tells, and each use tests that.
#[derive(Drop)]
pub(crate) struct Hints {
    /// The literals to decide first.
    preferred: Items<Lit>,
    /// Of each variable, the place of a clause that has it.
    places: Vec<usize>,
    /// Of each variable, how often it stood in clauses that were learned recently.
    scores: Vec<u64>,
    /// What a variable of a learned clause gets.
    increment: u64,
}

impl Hints {
    /// Of no variable, with no preference. It takes no memory.
    pub(crate) fn new(alloc: Global) -> Hints {
        Hints {
            preferred: Items::new(alloc),
            places: Vec::new(alloc),
            scores: Vec::new(alloc),
            increment: 1,
        }
    }

    /// Makes room for the variables below `vars`.
    pub(crate) fn reserve(&mut self, vars: usize) -> Result<(), OutOfMemory> {
        if vars > self.places.len() {
            self.places.resize(vars, 0)?;
        }
        if vars > self.scores.len() {
            self.scores.resize(vars, 0)?;
        }
        Ok(())
    }

    /// The literals to decide first, from now on.
    pub(crate) fn prefer(&mut self, lits: Items<Lit>) {
        self.preferred = lits;
    }

    /// The literals to decide first.
    pub(crate) fn preferred(&self) -> &[Lit] {
        self.preferred.as_slice()
    }

    /// The clause at the place has these literals.
    pub(crate) fn note_clause(&mut self, lits: &[Lit], place: usize) {
        for lit in lits {
            if lit.var < self.places.len() {
                self.places[lit.var] = place;
            }
        }
    }

    /// The place of a clause that has the variable.
    pub(crate) fn place_of(&self, var: usize) -> usize {
        if var < self.places.len() {
            self.places[var]
        } else {
            0
        }
    }

    /// The variables of a learned clause count more from now on, and those of earlier ones less and less.
    pub(crate) fn bump(&mut self, lits: &[Lit]) {
        for lit in lits {
            if lit.var < self.scores.len() {
                self.scores[lit.var] = self.scores[lit.var].saturating_add(self.increment);
            }
        }
        self.increment = self.increment.saturating_add(self.increment / 16 + 1);
        if self.increment > RESCALE_AT {
            self.rescale();
        }
    }

    /// Makes all scores less by the same factor.
    fn rescale(&mut self) {
        for var in 0..self.scores.len() {
            self.scores[var] >>= RESCALE_BITS;
        }
        self.increment >>= RESCALE_BITS;
    }

    /// How much the variable counts.
    pub(crate) fn score(&self, var: usize) -> u64 {
        if var < self.scores.len() {
            self.scores[var]
        } else {
            0
        }
    }
}
