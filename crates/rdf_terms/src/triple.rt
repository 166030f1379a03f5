use crate::{OutOfMemory, Term};
use std::alloc::Global;
use std::cmp::Ordering;
use std::marker::Model;

/// An RDF triple (RDF 1.1 Concepts 3.1). Its subject is an IRI or a blank node and its predicate
/// is an IRI, which holds of every value of this type. Contracts see the three terms, as a
/// `Statement`.
#[derive(Debug, Drop)]
pub struct Triple {
    pub subject: Term,
    pub predicate: Term,
    pub object: Term,
}

impl Model for Triple {
    ghost use Rattle.rdf_terms.specs.Statement.{Statement, is_node, is_iri};
    ghost use Rattle.std.specs.Prelude.{IsTrue};

    ghost Value = { Statement };

    ghost view = { λ t. record { subject = t.subject; predicate = t.predicate; object = t.object } };

    ghost invariant = { λ t. IsTrue (is_node t.subject) × IsTrue (is_iri t.predicate) };

    ghost inverse = { λ t. record { subject = t.subject; predicate = t.predicate; object = t.object } };
}

impl Triple {
    ghost use Rattle.std.specs.Prelude.{◌≡◌, ◌↔◌, IsTrue, IfOk};
    ghost use Rattle.rdf_terms.specs.Statement.{Statement, is_node, is_iri, statement_cmp};

    /// The triple of three terms. It takes no memory.
    pub fn new(subject: Term, predicate: Term, object: Term) -> Triple
        requires node { IsTrue (is_node subject) }
        requires iri { IsTrue (is_iri predicate) }
        ensures { result ≡ record { subject = subject; predicate = predicate; object = object } }
    {
        Triple {
            subject,
            predicate,
            object,
        }
    }

    /// The subject, which is an IRI or a blank node.
    pub fn subject(&self) -> &Term
        ensures value { result.now ≡ self.now.subject }
        ensures node { IsTrue (is_node self.now.subject) }
    {
        &self.subject
    }

    /// The predicate, which is an IRI.
    pub fn predicate(&self) -> &Term
        ensures value { result.now ≡ self.now.predicate }
        ensures iri { IsTrue (is_iri self.now.predicate) }
    {
        &self.predicate
    }

    /// The object.
    pub fn object(&self) -> &Term
        ensures { result.now ≡ self.now.object }
    {
        &self.object
    }

    /// An equal triple, which shares the bytes of its texts with this one. It takes no memory:
    /// `OutOfMemory` comes as from [`Text::copy`](crate::Text::copy).
    pub fn copy(&self, alloc: Global) -> Result<Triple, OutOfMemory>
        ensures { IfOk result (λ t. t ≡ self.now) }
    {
        let subject = self.subject.copy(alloc)?;
        let predicate = self.predicate.copy(alloc)?;
        let object = self.object.copy(alloc)?;
        Ok(Triple {
            subject,
            predicate,
            object,
        })
    }

    /// The order of triples: by subject, then predicate, then object, each in the order of terms.
    /// It is the project's own, and `Equal` for equal triples alone. It takes no memory.
    pub fn compare(&self, other: &Triple) -> Ordering
        ensures order { result ≡ statement_cmp self.now other.now }
        ensures equal { (result ≡ Ordering.Equal) ↔ (self.now ≡ other.now) }
    {
        self.subject
            .compare(&other.subject)
            .then_with(|| self.predicate.compare(&other.predicate))
            .then_with(|| self.object.compare(&other.object))
    }
}

impl PartialEq for Triple {
    ghost use Rattle.std.specs.Ordering.{eq_by_cmp};
    ghost use Rattle.std.specs.Cmp.{partial_equiv_from_equiv};
    ghost use Rattle.std.proofs.lemmas.Cmp.{eq_by_cmp_equiv};
    ghost use Rattle.rdf_terms.specs.Statement.{statement_cmp};
    ghost use Rattle.rdf_terms.specs.TermOrder.{statement_cmp_total};

    ghost eq = { eq_by_cmp statement_cmp };

    ghost laws = { partial_equiv_from_equiv (eq_by_cmp_equiv statement_cmp_total) };

    fn eq(&self, other: &Triple) -> bool {
        self.compare(other).is_eq()
    }
}

impl Eq for Triple {
    ghost use Rattle.std.proofs.lemmas.Cmp.{eq_by_cmp_equiv};
    ghost use Rattle.rdf_terms.specs.TermOrder.{statement_cmp_total};

    ghost laws = { eq_by_cmp_equiv statement_cmp_total };
}

impl PartialOrd for Triple {
    ghost use Rattle.std.specs.Ordering.{as_partial_cmp};
    ghost use Rattle.std.specs.Cmp.{partial_order_from_total};
    ghost use Rattle.rdf_terms.specs.Statement.{statement_cmp};
    ghost use Rattle.rdf_terms.specs.TermOrder.{statement_cmp_total};

    ghost partial_cmp = { as_partial_cmp statement_cmp };

    ghost laws = { partial_order_from_total statement_cmp_total };

    fn partial_cmp(&self, other: &Triple) -> Option<Ordering> {
        Some(self.compare(other))
    }
}

impl Ord for Triple {
    ghost use Rattle.std.specs.Prelude.{refl};
    ghost use Rattle.rdf_terms.specs.Statement.{statement_cmp};
    ghost use Rattle.rdf_terms.specs.TermOrder.{statement_cmp_total};

    ghost cmp = { statement_cmp };

    ghost total = { statement_cmp_total };

    ghost matches_partial_cmp = { λ x y. refl };

    ghost matches_eq = { λ x y. refl };

    fn cmp(&self, other: &Triple) -> Ordering {
        self.compare(other)
    }
}
