ghost use Rattle.std.specs.Prelude.{◌≡◌, ◌↔◌, ◌++◌, OnOk, IfOk, codes, flat_map};
ghost use Rattle.rdf_terms.specs.declared.term.Scope.{Scope};
ghost use Rattle.rdf_terms.specs.Graph.{Graph as Triples};
ghost use Rattle.rdf_grammar.specs.Lawful.{IsLawfulTriple};
ghost use Rattle.ntriples_io.specs.Text.{NtText, AreLawful};
ghost use Rattle.ntriples_io.specs.CanonicalText.{escaped, quoted, bracketed, kind_text, term_text, line_text, graph_text};
ghost use Rattle.ntriples_io.specs.RoundTrip.{IsTriple, IsTripleInScope, HasScope, IsLineOf};

use rdf_terms::vocab::xsd;
use rdf_terms::{Bytes, Graph, OutOfMemory, Term, Text, Triple};
use std::alloc::Global;

/// The canonical spelling of a term (RDF 1.1 N-Triples 4), as UTF-8. Any term is written, also one
/// that no document can spell, as an IRI with a space.
pub fn write_term(alloc: Global, term: &Term) -> Result<Bytes, OutOfMemory>
    ensures { IfOk result (λ text. text ≡ term_text term.now) }
{
    let mut out = Bytes::new(alloc);
    push_term(&mut out, term)?;
    Ok(out)
}

/// The canonical line of a triple (RDF 1.1 N-Triples 4), with its LF.
pub fn write_triple(alloc: Global, triple: &Triple) -> Result<Bytes, OutOfMemory>
    ensures text { IfOk result (λ text. text ≡ line_text triple.now) }
    // A line of N-Triples that means this triple, with its LF.
    ensures read_back { (scope : Scope) → IsLawfulTriple triple.now → IsTripleInScope scope triple.now →
        IfOk result (λ text. IsLineOf scope text triple.now) }
{
    let mut out = Bytes::new(alloc);
    push_line(&mut out, triple)?;
    Ok(out)
}

/// The canonical text of a graph (RDF 1.1 N-Triples 4): the lines of its triples in the order of
/// triples, which is the project's own. The scopes of blank nodes are not written, so nodes of two
/// scopes that share a label are one node in the text.
pub fn write_graph(alloc: Global, graph: &Graph) -> Result<Bytes, OutOfMemory>
    ensures text { IfOk result (λ text. text ≡ graph_text graph.now) }
    // The text is N-Triples, and means exactly this graph.
    ensures read_back { (scope : Scope) → AreLawful graph.now → HasScope scope graph.now →
        IfOk result (λ text. NtText text scope graph.now) }
    // Of the lawful graphs whose blank nodes have this scope, no other has the text.
    ensures one_graph { (scope : Scope) (other : Triples) → AreLawful graph.now → HasScope scope graph.now →
        AreLawful other → HasScope scope other →
        IfOk result (λ text. (text ≡ graph_text other) ↔ (graph.now ≡ other)) }
{
    let mut out = Bytes::new(alloc);
    'lines: for triple in graph.as_slice() {
        push_line(&mut out, triple)?;
    }
    Ok(out)
}

fn push_line(out: &mut Bytes, triple: &Triple) -> Result<(), OutOfMemory>
    ensures text { OnOk result (out.new ≡ out.old ++ line_text triple.now) }
    ensures triple { OnOk result (IsTriple triple.now) }
{
    push_term(out, triple.subject())?;
    out.append(b" ")?;
    push_term(out, triple.predicate())?;
    out.append(b" ")?;
    push_term(out, triple.object())?;
    out.append(b" .\n")
}

fn push_term(out: &mut Bytes, term: &Term) -> Result<(), OutOfMemory>
    ensures { OnOk result (out.new ≡ out.old ++ term_text term.now) }
{
    match term {
        Term::Iri(iri) => push_iri(out, iri),
        Term::Blank { label, .. } => {
            out.append(b"_:")?;
            out.append(label.as_str().as_bytes())
        }
        Term::Literal {
            lexical,
            datatype,
            tag,
        } => {
            push_string(out, lexical)?;
            match tag {
                Some(tag) => push_tag(out, tag),
                None => push_datatype(out, datatype),
            }
        }
    }
}

/// `<` and `>` round an IRI.
fn push_iri(out: &mut Bytes, iri: &Text) -> Result<(), OutOfMemory>
    ensures { OnOk result (out.new ≡ out.old ++ bracketed iri.now) }
{
    out.append(b"<")?;
    out.append(iri.as_str().as_bytes())?;
    out.append(b">")
}

/// A language tag behind its `@`.
fn push_tag(out: &mut Bytes, tag: &Text) -> Result<(), OutOfMemory>
    ensures { OnOk result (out.new ≡ out.old ++ codes "@" ++ tag.now) }
{
    out.append(b"@")?;
    out.append(tag.as_str().as_bytes())
}

/// A datatype behind its `^^`, and nothing for `xsd:string`, which a string with neither tag nor datatype
/// has (N-Triples 2.4).
fn push_datatype(out: &mut Bytes, datatype: &Text) -> Result<(), OutOfMemory>
    ensures { OnOk result (out.new ≡ out.old ++ kind_text datatype.now None) }
{
    if datatype.as_str() != xsd::STRING {
        out.append(b"^^")?;
        push_iri(out, datatype)?;
    }
    Ok(())
}

/// The string in quotes, with its escapes.
fn push_string(out: &mut Bytes, text: &Text) -> Result<(), OutOfMemory>
    ensures { OnOk result (out.new ≡ out.old ++ quoted text.now) }
{
    out.append(b"\"")?;
    push_escaped(out, text.as_str().as_bytes())?;
    out.append(b"\"")
}

fn push_escaped(out: &mut Bytes, text: &[u8]) -> Result<(), OutOfMemory>
    ensures { OnOk result (out.new ≡ out.old ++ flat_map escaped text.now) }
{
    'bytes: for byte in text {
        push_escaped_byte(out, *byte)?;
    }
    Ok(())
}

/// A byte of a string, escaped if it is one of the four characters that may not stand there.
fn push_escaped_byte(out: &mut Bytes, byte: u8) -> Result<(), OutOfMemory>
    ensures { OnOk result (out.new ≡ out.old ++ escaped byte) }
{
    match byte {
        b'"' => out.append(b"\\\""),
        b'\\' => out.append(b"\\\\"),
        b'\n' => out.append(b"\\n"),
        b'\r' => out.append(b"\\r"),
        _ => out.push(byte),
    }
}
