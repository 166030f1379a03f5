ghost use Rattle.std.specs.Prelude.{◌≡◌, ◌↔◌, IfOk, IsTrue};
ghost use Rattle.rdf_terms.specs.Term.{term_cmp};

use crate::{OutOfMemory, Text};
use std::alloc::Global;
use std::cmp::Ordering;

/// Where a blank node comes from. Blank nodes of two scopes are never equal, since a label says
/// nothing outside its document (RDF 1.1 Concepts 3.4).
#[derive(Clone, Copy, Debug, PartialEq, Eq, PartialOrd, Ord)]
pub enum Scope {
    /// The data document, or the document of offered triples.
    Data,
    /// The shapes document.
    Shapes,
}

/// An RDF term (RDF 1.1 Concepts 3.1). A type of its own has no say on which texts are lawful
/// IRIs, labels or tags: the readers of documents see to that.
#[derive(Debug, Drop)]
pub enum Term {
    /// An IRI (RDF 1.1 Concepts 3.2), by its characters. Two are equal where these are.
    Iri(Text),
    /// A blank node (RDF 1.1 Concepts 3.4).
    Blank {
        /// The document that it is of.
        scope: Scope,
        /// Its label, without `_:`.
        label: Text,
    },
    /// A literal (RDF 1.1 Concepts 3.3). Two are equal where all three parts are, character by
    /// character.
    Literal {
        /// The lexical form, with no escape.
        lexical: Text,
        /// The IRI of the datatype, `xsd:string` for a plain string and `rdf:langString` where
        /// there is a tag.
        datatype: Text,
        /// The language tag, without `@`.
        tag: Option<Text>,
    },
}

impl Term {
    ghost use Rattle.rdf_terms.specs.Statement.{is_iri, is_node};

    /// The order of terms, which is the project's own. IRIs come before blank nodes, and these
    /// before literals. IRIs go by their bytes, blank nodes by scope and then label, literals by
    /// lexical form, then datatype, then tag, where no tag comes first. It is `Equal` for equal
    /// terms alone. It takes no memory.
    pub fn compare(&self, other: &Term) -> Ordering
        ensures order { result ≡ term_cmp self.now other.now }
        ensures equal { (result ≡ Ordering.Equal) ↔ (self.now ≡ other.now) }
    {
        match (self, other) {
            (Term::Iri(a), Term::Iri(b)) => a.cmp(b),
            (Term::Iri(_), _) => Ordering::Less,
            (_, Term::Iri(_)) => Ordering::Greater,
            (Term::Blank { scope: r, label: a }, Term::Blank { scope: s, label: b }) => r
                .cmp(s)
                .then_with(|| a.cmp(b)),
            (Term::Blank { .. }, _) => Ordering::Less,
            (_, Term::Blank { .. }) => Ordering::Greater,
            (
                Term::Literal {
                    lexical: k,
                    datatype: c,
                    tag: s,
                },
                Term::Literal {
                    lexical: l,
                    datatype: d,
                    tag: t,
                },
            ) => k.cmp(l).then_with(|| c.cmp(d)).then_with(|| s.cmp(t)),
        }
    }

    /// The order of the term against an IRI, in the order of terms. It takes no memory.
    pub fn compare_to_iri(&self, iri: &str) -> Ordering
        ensures { result ≡ term_cmp self.now (Term.Iri iri.now) }
    {
        match self {
            Term::Iri(text) => text.as_str().cmp(iri),
            Term::Blank { .. } | Term::Literal { .. } => Ordering::Greater,
        }
    }

    /// Whether it is this very IRI.
    pub fn is_named(&self, iri: &str) -> bool
        ensures { IsTrue result ↔ (self.now ≡ Term.Iri iri.now) }
    {
        match self {
            Term::Iri(text) => text.as_str() == iri,
            Term::Blank { .. } | Term::Literal { .. } => false,
        }
    }

    /// Whether it is an IRI, as a predicate has to be.
    pub fn is_iri(&self) -> bool
        ensures { result ≡ is_iri self.now }
    {
        matches!(self, Term::Iri(_))
    }

    /// Whether it is an IRI or a blank node, as a subject has to be.
    pub fn is_node(&self) -> bool
        ensures { result ≡ is_node self.now }
    {
        !matches!(self, Term::Literal { .. })
    }

    /// An equal term, which shares the bytes of its texts with this one. It takes no memory:
    /// `OutOfMemory` comes as from [`Text::copy`].
    pub fn copy(&self, alloc: Global) -> Result<Term, OutOfMemory>
        ensures { IfOk result (λ t. t ≡ self.now) }
    {
        match self {
            Term::Iri(text) => Ok(Term::Iri(text.copy(alloc)?)),
            Term::Blank { scope, label } => Ok(Term::Blank {
                scope: *scope,
                label: label.copy(alloc)?,
            }),
            Term::Literal {
                lexical,
                datatype,
                tag,
            } => {
                let lexical = lexical.copy(alloc)?;
                let datatype = datatype.copy(alloc)?;
                let tag = match tag {
                    None => None,
                    Some(tag) => Some(tag.copy(alloc)?),
                };
                Ok(Term::Literal {
                    lexical,
                    datatype,
                    tag,
                })
            }
        }
    }
}

impl PartialEq for Term {
    ghost use Rattle.std.specs.Ordering.{eq_by_cmp};
    ghost use Rattle.std.specs.Cmp.{partial_equiv_from_equiv};
    ghost use Rattle.std.proofs.lemmas.Cmp.{eq_by_cmp_equiv};
    ghost use Rattle.rdf_terms.specs.Term.{term_cmp};
    ghost use Rattle.rdf_terms.specs.TermOrder.{term_cmp_total};

    ghost eq = { eq_by_cmp term_cmp };

    ghost laws = { partial_equiv_from_equiv (eq_by_cmp_equiv term_cmp_total) };

    fn eq(&self, other: &Term) -> bool {
        self.compare(other).is_eq()
    }
}

impl Eq for Term {
    ghost use Rattle.std.proofs.lemmas.Cmp.{eq_by_cmp_equiv};
    ghost use Rattle.rdf_terms.specs.TermOrder.{term_cmp_total};

    ghost laws = { eq_by_cmp_equiv term_cmp_total };
}

impl PartialOrd for Term {
    ghost use Rattle.std.specs.Ordering.{as_partial_cmp};
    ghost use Rattle.std.specs.Cmp.{partial_order_from_total};
    ghost use Rattle.rdf_terms.specs.Term.{term_cmp};
    ghost use Rattle.rdf_terms.specs.TermOrder.{term_cmp_total};

    ghost partial_cmp = { as_partial_cmp term_cmp };

    ghost laws = { partial_order_from_total term_cmp_total };

    fn partial_cmp(&self, other: &Term) -> Option<Ordering> {
        Some(self.compare(other))
    }
}

impl Ord for Term {
    ghost use Rattle.std.specs.Prelude.{refl};
    ghost use Rattle.rdf_terms.specs.Term.{term_cmp};
    ghost use Rattle.rdf_terms.specs.TermOrder.{term_cmp_total};

    ghost cmp = { term_cmp };

    ghost total = { term_cmp_total };

    ghost matches_partial_cmp = { λ x y. refl };

    ghost matches_eq = { λ x y. refl };

    fn cmp(&self, other: &Term) -> Ordering {
        self.compare(other)
    }
}
