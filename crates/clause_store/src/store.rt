ghost use Rattle.clause_store.specs.Clauses.{is_clause, are_clauses};
ghost use Rattle.clause_store.specs.declared.lit.Lit.{Lit as Literal};
ghost use Rattle.std.specs.Prelude.{◌≡◌, ◌<◌, ◌++◌, ◌∷◌, [], List, length, slice_get, Some, IsTrue, IfOk, OnOk, OnErr};

use crate::Lit;
use rdf_terms::OutOfMemory;

/// A list of clauses that only grows, each at its place. Contracts see a store as this list.
///
/// A clause is a list of literals in which no variable stands twice.
pub trait ClauseStore {
    ghost clauses: { Self → List (List Literal) };

    /// How many clauses there are. It takes no memory.
    fn len(&self) -> usize
        ensures { result ≡ length (clauses self.now) };

    /// The clause at a place, lent and not copied. It takes no memory.
    fn clause(&self, i: usize) -> &[Lit]
        requires { i < length (clauses self.now) }
        ensures here { slice_get (clauses self.now) i ≡ Some result.now }
        ensures once { IsTrue (is_clause result.now) };

    /// Appends a clause and answers its place. After `OutOfMemory` the list is as before.
    fn push(&mut self, lits: &[Lit]) -> Result<usize, OutOfMemory>
        requires { IsTrue (is_clause lits.now) }
        ensures place { IfOk result (λ i. i ≡ length (clauses self.old)) }
        ensures added { OnOk result (clauses self.new ≡ clauses self.old ++ lits.now ∷ []) }
        ensures err { OnErr result (clauses self.new ≡ clauses self.old) };

    /// No variable stands twice in a clause of the list.
    ghost lawful: { (s : Self) → IsTrue (are_clauses (clauses s)) };
}
