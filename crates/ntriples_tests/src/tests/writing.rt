use base_tests::making::{blank, iri, literal};
use ntriples_io::{read_ntriples, write_graph, write_term, write_triple};
use rdf_terms::vocab::{rdf, xsd};
use rdf_terms::{Bytes, Graph, OutOfMemory, Scope, Term, Text, Triple, Triples};
use std::alloc::Global;
use std::process::Abort;
use std::test::Fail;

/// The line of a triple with an object that is spelled so.
fn line_with(alloc: Global, spelled: &str) -> Result<Bytes, OutOfMemory> {
    let mut line = Bytes::new(alloc);
    line.append(b"<http://example.org/s> <http://example.org/p> ")?;
    line.append(spelled.as_bytes())?;
    line.append(b" .\n")?;
    Ok(line)
}

fn triple_with(alloc: Global, object: Term) -> Result<Triple, OutOfMemory> {
    let subject = Text::from_str(alloc, "http://example.org/s")?;
    let predicate = Text::from_str(alloc, "http://example.org/p")?;
    Ok(Triple {
        subject: Term::Iri(subject),
        predicate: Term::Iri(predicate),
        object,
    })
}

/// The triple is written as the line, which is read as a graph of this triple alone.
fn expect_line(
    rt: &impl Abort,
    alloc: Global,
    triple: &Triple,
    line: &[u8],
) -> Result<Graph, Fail> {
    let written = write_triple(alloc, triple)?;
    assert_eq!(rt; written.as_slice(), line);
    let graph = read_ntriples(alloc, Scope::Data, line)?;
    assert_eq!(rt; graph.len(), 1);
    assert!(rt; graph.contains(triple));
    Ok(graph)
}

/// The term is spelled so, and the line and the graph of a triple with it are read back.
fn expect_object(rt: &impl Abort, alloc: Global, object: Term, spelled: &str) -> Result<(), Fail> {
    let written = write_term(alloc, &object)?;
    assert_eq!(rt; written.as_slice(), spelled.as_bytes());
    let line = line_with(alloc, spelled)?;
    let triple = triple_with(alloc, object)?;
    let graph = expect_line(rt, alloc, &triple, line.as_slice())?;
    let written = write_graph(alloc, &graph)?;
    assert_eq!(rt; written.as_slice(), line.as_slice());
    Ok(())
}

#[test]
fn strings_are_written_and_read_back(rt: HostRuntime) -> Result<(), Fail> {
    let alloc = rt.alloc();
    for (lexical, spelled) in [
        ("", "\"\""),
        ("say \"no\"", "\"say \\\"no\\\"\""),
        ("C:\\u0041", "\"C:\\\\u0041\""),
        ("a\nb\r\nc\r", "\"a\\nb\\r\\nc\\r\""),
        // control characters that need no escape stay as they are
        (
            "\t\u{8}\u{c}\u{0}\u{1f}\u{7f}\u{85}",
            "\"\t\u{8}\u{c}\u{0}\u{1f}\u{7f}\u{85}\"",
        ),
        // characters of one to four bytes
        (
            "z\u{a2}\u{20ac}\u{10348}\u{10ffff}",
            "\"z\u{a2}\u{20ac}\u{10348}\u{10ffff}\"",
        ),
        (" <a> _:b 'c' . # d", "\" <a> _:b 'c' . # d\""),
    ] {
        expect_object(
            &rt,
            alloc,
            literal(alloc, lexical, xsd::STRING, None)?,
            spelled,
        )?;
    }
    Ok(())
}

#[test]
fn datatypes_and_tags_are_written_and_read_back(rt: HostRuntime) -> Result<(), Fail> {
    let alloc = rt.alloc();
    for (datatype, spelled) in [
        (xsd::STRING, "\"1\""),
        (
            xsd::INTEGER,
            "\"1\"^^<http://www.w3.org/2001/XMLSchema#integer>",
        ),
        ("urn:t\u{e9}#", "\"1\"^^<urn:t\u{e9}#>"),
    ] {
        expect_object(&rt, alloc, literal(alloc, "1", datatype, None)?, spelled)?;
    }
    for (tag, spelled) in [
        ("fr", "\"chat\"@fr"),
        ("zh-hant-1606nict", "\"chat\"@zh-hant-1606nict"),
    ] {
        expect_object(
            &rt,
            alloc,
            literal(alloc, "chat", rdf::LANG_STRING, Some(tag))?,
            spelled,
        )?;
    }
    Ok(())
}

#[test]
fn nodes_are_written_and_read_back(rt: HostRuntime) -> Result<(), Fail> {
    let alloc = rt.alloc();
    for (name, spelled) in [
        (
            "http://example.org/a?b=c&d=%20#e",
            "<http://example.org/a?b=c&d=%20#e>",
        ),
        (
            "urn:\u{e9}\u{20ac}\u{10348}",
            "<urn:\u{e9}\u{20ac}\u{10348}>",
        ),
    ] {
        expect_object(&rt, alloc, iri(alloc, name)?, spelled)?;
    }
    for (label, spelled) in [
        ("b0", "_:b0"),
        ("0", "_:0"),
        ("a.b..c", "_:a.b..c"),
        (":a-b:", "_::a-b:"),
        ("\u{e9}\u{b7}\u{10348}", "_:\u{e9}\u{b7}\u{10348}"),
    ] {
        expect_object(&rt, alloc, blank(alloc, Scope::Data, label)?, spelled)?;
    }
    Ok(())
}

#[test]
fn scopes_are_not_written(rt: HostRuntime) -> Result<(), Fail> {
    let alloc = rt.alloc();
    let mut triples = Triples::new(alloc);
    for scope in [Scope::Shapes, Scope::Data] {
        let subject = Text::from_str(alloc, "b")?;
        let predicate = Text::from_str(alloc, "urn:p")?;
        let object = iri(alloc, "urn:o")?;
        triples.push(Triple::new(
            Term::Blank {
                scope,
                label: subject,
            },
            Term::Iri(predicate),
            object,
        ))?;
    }
    let written = write_graph(alloc, &Graph::from_triples(alloc, triples)?)?;
    assert_eq!(rt;
        written.as_slice(),
        b"_:b <urn:p> <urn:o> .\n_:b <urn:p> <urn:o> .\n".as_slice()
    );
    Ok(())
}

#[test]
fn any_term_is_written(rt: HostRuntime) -> Result<(), Fail> {
    let alloc = rt.alloc();
    let written = write_term(alloc, &iri(alloc, "a b>")?)?;
    assert_eq!(rt; written.as_slice(), b"<a b>>".as_slice());
    let written = write_term(alloc, &blank(alloc, Scope::Data, "a.")?)?;
    assert_eq!(rt; written.as_slice(), b"_:a.".as_slice());
    Ok(())
}
