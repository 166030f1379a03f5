ghost use Rattle.clause_store.specs.Clauses.{are_clauses};
ghost use Rattle.clause_store.specs.Lists.{lists};
ghost use Rattle.std.specs.Prelude.{◌≡◌, [], IsTrue};

use crate::{ClauseStore, Lit};
use rdf_terms::OutOfMemory;
use std::alloc::Global;

/// A store in memory that keeps each clause by itself.
#[derive(Drop)]
pub struct PlainStore {
    alloc: Global,
    clauses: Vec<Vec<Lit>>,
    ghost once: { IsTrue (are_clauses (lists clauses.items)) },
}

impl PlainStore {
    ghost use Rattle.clause_store.specs.Stored.{stored};

    /// The store without a clause. It takes no memory.
    pub fn new(alloc: Global) -> PlainStore
        ensures { stored result ≡ [] }
    {
        PlainStore {
            alloc,
            clauses: Vec::new(alloc),
        }
    }
}

impl ClauseStore for PlainStore {
    ghost use Rattle.clause_store.specs.Stored.{stored, stored_once};

    ghost clauses = { stored };

    ghost lawful = { stored_once };

    fn len(&self) -> usize {
        self.clauses.len()
    }

    fn clause(&self, i: usize) -> &[Lit] {
        self.clauses[i].as_slice()
    }

    fn push(&mut self, lits: &[Lit]) -> Result<usize, OutOfMemory> {
        let place = self.clauses.len();
        let clause = Vec::from_slice(self.alloc, lits)?;
        self.clauses.push(clause)?;
        Ok(place)
    }
}
