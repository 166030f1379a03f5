ghost use Rattle.std.specs.Prelude.{◌≡◌, length, option_map, chars};
ghost use Rattle.shapes_graph.specs.NodeTests.{characters, is_long_enough, is_short_enough};

use rdf_terms::Term;

/// The number of characters of a text.
fn count_characters(text: &str) -> usize
    ensures { result ≡ length (chars text.now) }
{
    text.chars().count()
}

/// The number of characters of an IRI or of the lexical form of a literal. A blank node has none.
fn character_count(term: &Term) -> Option<usize>
    ensures { result ≡ option_map length (characters term.now) }
{
    match term {
        Term::Iri(text) => Some(count_characters(text.as_str())),
        Term::Blank { .. } => None,
        Term::Literal { lexical, .. } => Some(count_characters(lexical.as_str())),
    }
}

/// Whether the term is an IRI or a literal of at least so many characters (SHACL 2017, section 4.4.1).
pub fn is_long_enough(count: u64, term: &Term) -> bool
    ensures { result ≡ is_long_enough count term.now }
{
    match character_count(term) {
        Some(own) => own as u64 >= count,
        None => false,
    }
}

/// Whether the term is an IRI or a literal of at most so many characters (SHACL 2017, section 4.4.2).
pub fn is_short_enough(count: u64, term: &Term) -> bool
    ensures { result ≡ is_short_enough count term.now }
{
    match character_count(term) {
        Some(own) => own as u64 <= count,
        None => false,
    }
}
