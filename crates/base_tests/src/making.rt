//! Terms for tests, made of plain texts.
ghost use Rattle.std.specs.Prelude.{◌≡◌, IfOk};
ghost use Rattle.std.specs.Option.{option_map};

use rdf_terms::{Graph, OutOfMemory, Scope, Term, Text, Triple, Triples};
use std::alloc::Global;

/// The IRI of these characters (RDF 1.1 Concepts 3.2). Want of memory is the one error.
pub fn iri(alloc: Global, text: &str) -> Result<Term, OutOfMemory>
    ensures { IfOk result (λ t. t ≡ Term.Iri text.now) }
{
    Ok(Term::Iri(Text::from_str(alloc, text)?))
}

/// The blank node of that scope and label (RDF 1.1 Concepts 3.4). Want of memory is the one error.
pub fn blank(alloc: Global, scope: Scope, label: &str) -> Result<Term, OutOfMemory>
    ensures { IfOk result (λ t. t ≡ Term.Blank scope label.now) }
{
    let label = Text::from_str(alloc, label)?;
    Ok(Term::Blank { scope, label })
}

/// The literal of these parts (RDF 1.1 Concepts 3.3). Want of memory is the one error.
pub fn literal(
    alloc: Global,
    lexical: &str,
    datatype: &str,
    tag: Option<&str>,
) -> Result<Term, OutOfMemory>
    ensures { IfOk result (λ t. t ≡ Term.Literal lexical.now datatype.now (option_map (λ x. x.now) tag.entry)) }
{
    let tag = match tag {
        Some(tag) => Some(Text::from_str(alloc, tag)?),
        None => None,
    };
    Ok(Term::Literal {
        lexical: Text::from_str(alloc, lexical)?,
        datatype: Text::from_str(alloc, datatype)?,
        tag,
    })
}

/// The triple of three IRIs. Want of memory is the one error.
pub fn triple(alloc: Global, words: [&str; 3]) -> Result<Triple, OutOfMemory> {
    let [subject, predicate, object] = words;
    Ok(Triple {
        subject: Term::Iri(Text::from_str(alloc, subject)?),
        predicate: Term::Iri(Text::from_str(alloc, predicate)?),
        object: Term::Iri(Text::from_str(alloc, object)?),
    })
}

/// The graph of triples of three IRIs each. Want of memory is the one error.
pub fn graph(alloc: Global, rows: &[[&str; 3]]) -> Result<Graph, OutOfMemory> {
    let mut triples = Triples::new(alloc);
    for words in rows {
        triples.push(triple(alloc, *words)?)?;
    }
    Graph::from_triples(alloc, triples)
}
