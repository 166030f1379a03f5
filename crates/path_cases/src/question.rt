use ntriples_io::{NtRefusal, read_ntriples};
use rdf_terms::{OutOfMemory, Scope, Term};
use std::alloc::Global;

/// What is asked of the graphs of a case.
#[derive(Drop)]
pub enum Question {
    /// What each path reaches from the term.
    From(Term),
    /// Whether the node is a SHACL instance of the class.
    Instance { node: Term, class: Term },
}

/// What the words of a line ask, and `None` where they ask nothing.
pub fn parse_question(alloc: Global, words: &str) -> Result<Option<Question>, OutOfMemory> {
    if let Some(text) = words.strip_prefix("from ") {
        return match parse_term(alloc, text)? {
            Some(term) => Ok(Some(Question::From(term))),
            None => Ok(None),
        };
    }
    match words.strip_prefix("instance ") {
        Some(terms) => parse_instance(alloc, terms),
        None => Ok(None),
    }
}

/// The question whether the first of two terms is an instance of the second. No blank stands in the
/// second, since it is no literal.
fn parse_instance(alloc: Global, terms: &str) -> Result<Option<Question>, OutOfMemory> {
    let Some((node, class)) = terms.rsplit_once(' ') else {
        return Ok(None);
    };
    match (parse_term(alloc, node)?, parse_term(alloc, class)?) {
        (Some(node), Some(class)) => Ok(Some(Question::Instance { node, class })),
        _ => Ok(None),
    }
}

/// The term of the data graph that a text writes, and `None` where it writes none: it is read as the
/// object of a line of N-Triples.
fn parse_term(alloc: Global, text: &str) -> Result<Option<Term>, OutOfMemory> {
    let line = format!(in alloc; "<http://example.org/s> <http://example.org/p> {text} .")?;
    match read_ntriples(alloc, Scope::Data, line.as_str().as_bytes()) {
        Ok(graph) => match graph.as_slice() {
            [triple] => Ok(Some(triple.object.copy(alloc)?)),
            _ => Ok(None),
        },
        Err(NtRefusal::Syntax { .. }) => Ok(None),
        Err(NtRefusal::OutOfMemory) => Err(OutOfMemory),
    }
}
