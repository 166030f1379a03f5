ghost use Rattle.std.specs.Prelude.{◌≡◌, ◌<◌, [], ◌∷◌, IfOk, IsTrue, OnOk, length};
ghost use Rattle.clause_store.specs.Clauses.{is_within};
ghost use Rattle.atom_numbers.specs.Numbers.{clause_of, literal_of, AreApart, ComeFrom, IsGrown};
ghost use Rattle.atom_numbers.specs.Numbers.{with_atom, joined};

use clause_store::{Lit, Lits};
use indexmap::IndexSet;
use rdf_terms::OutOfMemory;
use repair_problem::{Atom, Literal};
use std::alloc::Global;

/// Atoms by their numbers, which are their places.
pub type Atoms = IndexSet<Atom>;

/// The literal in numbers. A new atom takes the next number.
fn number_literal(atoms: &mut Atoms, literal: Literal) -> Result<Lit, OutOfMemory>
    requires { AreApart atoms.old.keys }
    ensures value { IfOk result (λ l. literal_of atoms.new.keys l ≡ literal) }
    ensures within { IfOk result (λ l. l.var < length atoms.new.keys) }
    ensures joined { OnOk result (atoms.new.keys ≡ with_atom atoms.old.keys literal.atom) }
    ensures only { OnOk result (ComeFrom atoms.old.keys (literal ∷ []) atoms.new.keys) }
    ensures grown { IsGrown atoms.old.keys atoms.new.keys }
    ensures apart { AreApart atoms.new.keys }
{
    let found = atoms.insert_full(literal.atom)?;
    Ok(Lit {
        var: found.0,
        positive: literal.positive,
    })
}

/// The clause in numbers. Each new atom, in the order of the literals, takes the next number. After `OutOfMemory` some
/// of them may have theirs.
pub fn number_clause(
    alloc: Global,
    atoms: &mut Atoms,
    literals: &[Literal],
) -> Result<Lits, OutOfMemory>
    requires { AreApart atoms.old.keys }
    ensures value { IfOk result (λ c. clause_of atoms.new.keys c ≡ literals.now) }
    ensures within { IfOk result (λ c. IsTrue (is_within (length atoms.new.keys) c)) }
    ensures joined { OnOk result (atoms.new.keys ≡ joined atoms.old.keys literals.now) }
    ensures only { OnOk result (ComeFrom atoms.old.keys literals.now atoms.new.keys) }
    ensures grown { IsGrown atoms.old.keys atoms.new.keys }
    ensures apart { AreApart atoms.new.keys }
{
    let mut clause = Lits::new(alloc);
    'literals: for literal in literals {
        let lit = number_literal(atoms, *literal)?;
        clause.push(lit)?;
    }
    Ok(clause)
}
