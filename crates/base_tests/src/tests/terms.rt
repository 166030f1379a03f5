use crate::making::{blank, iri, literal};
use rdf_terms::vocab::rdf;
use rdf_terms::{OutOfMemory, Scope, Term, Terms, Text};
use std::alloc::Global;
use std::cmp::Ordering;
use std::test::Fail;

/// Terms in their order, of each kind.
fn rising_terms(alloc: Global) -> Result<Terms, OutOfMemory> {
    let mut terms = Terms::new(alloc);
    for text in ["b:a", "b:a\u{e9}"] {
        terms.push(iri(alloc, text)?)?;
    }
    for (scope, label) in [(Scope::Data, "z"), (Scope::Shapes, "a")] {
        terms.push(blank(alloc, scope, label)?)?;
    }
    for (lexical, datatype, tag) in [
        ("1", "b:c", None),
        ("1", "b:d", None),
        ("1", "b:d", Some("en")),
        ("1", "b:d", Some("en-us")),
        ("2", "b:c", None),
    ] {
        terms.push(literal(alloc, lexical, datatype, tag)?)?;
    }
    Ok(terms)
}

/// The order of a copy of one term against another.
fn compare_copy(alloc: Global, term: &Term, other: &Term) -> Result<Ordering, OutOfMemory> {
    Ok(term.copy(alloc)?.compare(other))
}

#[test]
fn terms_stand_in_their_order(rt: HostRuntime) -> Result<(), Fail> {
    let terms = rising_terms(rt.alloc())?;
    for (i, lower) in terms.as_slice().iter().enumerate() {
        for (j, higher) in terms.as_slice().iter().enumerate() {
            assert_eq!(rt;
                compare_copy(rt.alloc(), lower, higher)?,
                i.cmp(&j),
                "at {i} and {j}"
            );
        }
    }
    Ok(())
}

/// The IRI of a text that is made of a `String`.
fn named(alloc: Global, iri: &str) -> Result<Term, OutOfMemory> {
    let text = Text::from_string(String::from_str(alloc, iri)?)?;
    Ok(Term::Iri(text.copy(alloc)?))
}

#[test]
fn a_text_is_made_of_a_string(rt: HostRuntime) -> Result<(), Fail> {
    let term = named(rt.alloc(), rdf::TYPE)?;
    for (iri, is_it) in [(rdf::TYPE, true), (rdf::NIL, false)] {
        assert_eq!(rt; term.is_named(iri), is_it, "{iri}");
        assert_eq!(rt; term.compare_to_iri(iri).is_eq(), is_it, "{iri}");
    }
    Ok(())
}
