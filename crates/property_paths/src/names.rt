ghost use Rattle.std.specs.Prelude.{◌≡◌};
ghost use Rattle.std.specs.List.{list_any};
ghost use Rattle.rdf_terms.specs.declared.term.Term.TheVariants.{Iri};
ghost use Rattle.rdf_navigation.specs.Values.{same_term};

use rdf_terms::Term;

/// Whether the term is this very IRI.
pub fn is_named(term: &Term, iri: &str) -> bool
    ensures { result ≡ same_term term.now (Iri iri.now) }
{
    term.compare_to_iri(iri).is_eq()
}

/// Whether the term is one of these IRIs.
pub fn is_one_of(term: &Term, iris: &[&str]) -> bool
    ensures { result ≡ list_any (λ iri. same_term term.now (Iri iri.now)) iris.now }
{
    iris.iter().any(|iri| is_named(term, iri))
}
