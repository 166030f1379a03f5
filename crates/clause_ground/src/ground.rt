ghost use Rattle.std.specs.Prelude.{◌≡◌, ◌<◌, ◌↔◌, [], ℕ, IfOk, IsTrue, OnOk, OnErr, length, Some, slice_get};
ghost use Rattle.clause_store.specs.Clauses.{is_within};
ghost use Rattle.atom_numbers.specs.Numbers.{clause_of, joined, AreApart, IsGrown};
ghost use Rattle.clause_ground.specs.Premises.{rules_of, clauses_of};

use crate::Premise;
use atom_numbers::{Atoms, number_clause};
use clause_store::{Lit, Lits};
use premise_rules::Rule;
use rdf_terms::{Items, OutOfMemory};
use repair_problem::{Atom, Literal, LiteralList};
use std::alloc::Global;

/// Premises of a repair problem, and numbers of atoms, counted from 0: of those that stand in the premises, and then of
/// those of further clauses. No atom has two numbers.
#[derive(Drop)]
pub struct Ground {
    alloc: Global,
    premises: Items<Premise>,
    atoms: Atoms,
    ghost apart: { AreApart atoms.keys },
}

impl Ground {
    ghost use Rattle.clause_ground.specs.Grounds.{premises, atoms};
    ghost use Rattle.clause_ground.specs.Growth.{Adds, found};

    /// No premises and no atoms. It takes no memory.
    pub(crate) fn new(alloc: Global) -> Ground
        ensures premises { premises result ≡ [] }
        ensures atoms { atoms result ≡ [] }
    {
        Ground {
            alloc,
            premises: Items::new(alloc),
            atoms: Atoms::new(alloc),
        }
    }

    /// Adds a premise. New atoms of its clause take the next numbers.
    pub(crate) fn add(&mut self, rule: Rule, literals: &[Literal]) -> Result<(), OutOfMemory>
        ensures { OnOk result (Adds (found (premises self.old) (atoms self.old)) rule literals.now
            (found (premises self.new) (atoms self.new))) }
    {
        let lits = number_clause(self.alloc, &mut self.atoms, literals)?;
        self.premises.push(Premise { rule, lits })
    }

    /// How many premises there are. It takes no memory.
    pub fn rule_count(&self) -> usize
        ensures { result ≡ length (premises self.now) }
    {
        self.premises.as_slice().len()
    }

    /// The rule of the premise of this number, counted from 0. It takes no memory.
    pub fn rule(&self, r: usize) -> &Rule
        requires { r < length (premises self.now) }
        ensures { slice_get (rules_of (premises self.now)) r ≡ Some result.now }
    {
        &self.premises.as_slice()[r].rule
    }

    /// The clause of the premise of this number in the numbers of atoms. It takes no memory.
    pub fn clause(&self, r: usize) -> &[Lit]
        requires { r < length (premises self.now) }
        ensures { slice_get (clauses_of (premises self.now)) r ≡ Some result.now }
    {
        self.premises.as_slice()[r].lits.as_slice()
    }

    /// How many atoms have numbers. It takes no memory.
    pub fn atom_count(&self) -> usize
        ensures { result ≡ length (atoms self.now) }
    {
        self.atoms.len()
    }

    /// The atom of this number. It takes no memory.
    pub fn atom(&self, v: usize) -> &Atom
        requires { v < length (atoms self.now) }
        ensures { slice_get (atoms self.now) v ≡ Some result.now }
    {
        &self.atoms.as_slice()[v]
    }

    /// The number of the atom, and `None` exactly where it has none. It takes no memory.
    pub fn var_of(&self, atom: &Atom) -> Option<usize>
        ensures { (v : ℕ) → (result ≡ Some v) ↔ (slice_get (atoms self.now) v ≡ Some atom.now) }
    {
        self.atoms.get_index_of(atom)
    }

    /// The literals of one more clause in numbers, in their order. Each new atom takes the next number, and all other
    /// numbers stay. The clause is no premise. After `OutOfMemory` the numbers are as before.
    pub fn lits_of(&mut self, literals: &LiteralList) -> Result<Lits, OutOfMemory>
        ensures value { IfOk result (λ c. clause_of (atoms self.new) c ≡ literals.now) }
        ensures within { IfOk result (λ c. IsTrue (is_within (length (atoms self.new)) c)) }
        ensures joined { OnOk result (atoms self.new ≡ joined (atoms self.old) literals.now) }
        ensures grown { IsGrown (atoms self.old) (atoms self.new) }
        ensures apart { AreApart (atoms self.new) }
        ensures premises { premises self.new ≡ premises self.old }
        ensures err { OnErr result (atoms self.new ≡ atoms self.old) }
    {
        let count = self.atoms.len();
        match number_clause(self.alloc, &mut self.atoms, literals.as_slice()) {
            Ok(lits) => Ok(lits),
            Err(OutOfMemory) => {
                self.atoms.truncate(count);
                Err(OutOfMemory)
            }
        }
    }
}
