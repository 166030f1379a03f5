ghost use Rattle.std.specs.Prelude.{◌≡◌, [], ◌∷◌, ◌++◌, IsTrue};
ghost use Rattle.rdf_terms.specs.Graph.{is_rising};

use rdf_terms::{OutOfMemory, Triple, Triples};
use std::alloc::Global;
use std::marker::Model;

/// Triples in the order of triples, each once. Contracts see the list.
#[derive(Drop)]
pub struct RisingTriples {
    triples: Triples,
}

impl Model for RisingTriples {
    ghost use Rattle.std.specs.Prelude.{IsTrue, List};
    ghost use Rattle.rdf_terms.specs.Statement.{Statement};
    ghost use Rattle.rdf_terms.specs.Graph.{is_rising};

    ghost Value = { List Statement };

    ghost view = { λ r. r.triples };

    ghost invariant = { λ r. IsTrue (is_rising r.triples) };
}

impl RisingTriples {
    ghost use Rattle.std.specs.Prelude.{◌≡◌, [], ◌∷◌, ◌++◌, IfOk, OnErr, if◌then◌else◌};
    ghost use Rattle.rdf_terms.specs.Graph.{is_rising};

    /// No triples. It takes no memory.
    pub fn new(alloc: Global) -> RisingTriples
        ensures { result ≡ [] }
    {
        RisingTriples {
            triples: Triples::new(alloc),
        }
    }

    /// Puts a triple behind the others, where it is above them all, and answers whether it is. After
    /// `OutOfMemory` the triples are as before.
    pub fn push(&mut self, triple: Triple) -> Result<bool, OutOfMemory>
        ensures above { IfOk result (λ put. put ≡ is_rising (self.old ++ triple ∷ [])) }
        ensures new { IfOk result (λ put. self.new ≡ (if put then self.old ++ triple ∷ [] else self.old)) }
        ensures err { OnErr result (self.new ≡ self.old) }
    {
        if !rises_with(self.triples.as_slice(), &triple) {
            return Ok(false);
        }
        self.triples.push(triple)?;
        Ok(true)
    }

    /// The list. It takes no memory.
    pub fn into_triples(self) -> Triples
        ensures { result ≡ self }
    {
        let RisingTriples { triples } = self;
        triples
    }
}

/// Whether a triple is above all the others, which rise.
fn rises_with(others: &[Triple], triple: &Triple) -> bool
    requires { IsTrue (is_rising others.now) }
    ensures { result ≡ is_rising (others.now ++ triple.now ∷ []) }
{
    match others.last() {
        Some(last) => last < triple,
        None => true,
    }
}
