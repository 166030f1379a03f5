//! Documents that are too long to be written down, and the public call that no command makes. All other words
//! and bytes are worked cases.

use crate::calls::expect_note;
use core_constraints::conforms;
use explain_cli::Status;
use ntriples_io::read_ntriples;
use rdf_terms::{Bytes, Scope};
use shapes_graph::read_shapes;
use shelf_io::MemoryShelf;
use std::test::Fail;

/// One byte more than a document may have.
const TOO_MANY: u64 = (1 << 30) + 1;

#[test]
fn long_documents_are_refused(rt: HostRuntime) -> Result<(), Fail> {
    let alloc = rt.alloc();
    let mut shelf = MemoryShelf::new(alloc);
    for name in ["s.nt", "d.nt", "d.ttl", "o.nt"] {
        shelf.hold(name, b"")?;
    }
    let explain = ["explain", "s.nt", "long", "o.nt"];
    shelf.hold_repeated("long", b'\n', TOO_MANY)?;
    expect_note(
        &rt,
        alloc,
        &explain,
        &mut shelf,
        Status::Input,
        "input: DATA: too long\n",
    )?;
    let validate = ["validate", "s.nt", "long"];
    expect_note(
        &rt,
        alloc,
        &validate,
        &mut shelf,
        Status::Input,
        "input: DATA: too long\n",
    )?;
    let apply = ["apply", "d.nt", "long"];
    expect_note(
        &rt,
        alloc,
        &apply,
        &mut shelf,
        Status::Input,
        "input: DOCUMENT: too long\n",
    )?;
    // the length is told before the grammar
    shelf.hold_repeated("d.ttl", b'\n', TOO_MANY)?;
    let turtle = ["explain", "s.nt", "d.ttl", "o.nt"];
    expect_note(
        &rt,
        alloc,
        &turtle,
        &mut shelf,
        Status::Input,
        "input: DATA: too long\n",
    )?;
    Ok(())
}

/// Each subject of `p` is an IRI.
const SHAPES: &[u8] = b"\
<http://example.org/S> <http://www.w3.org/ns/shacl#targetSubjectsOf> <http://example.org/p> .
<http://example.org/S> <http://www.w3.org/ns/shacl#nodeKind> <http://www.w3.org/ns/shacl#IRI> .
";

#[test]
fn conformance_is_decided(rt: HostRuntime) -> Result<(), Fail> {
    let alloc = rt.alloc();
    let shapes = read_shapes(alloc, read_ntriples(alloc, Scope::Shapes, SHAPES)?)?;
    for (data, expected) in [
        ("", true),
        ("<http://example.org/a> <http://example.org/p> _:b .", true),
        ("_:b <http://example.org/p> <http://example.org/a> .", false),
        ("_:b <http://example.org/q> <http://example.org/a> .", true),
        (
            "<http://example.org/a> <http://example.org/p> _:b .\n_:b <http://example.org/p> _:b .",
            false,
        ),
    ] {
        let graph = read_ntriples(alloc, Scope::Data, data.as_bytes())?;
        assert_eq!(rt; conforms(alloc, &shapes, &graph)?, expected, "{data}");
    }
    Ok(())
}

#[test]
fn data_conforms_to_deactivated_shapes(rt: HostRuntime) -> Result<(), Fail> {
    let alloc = rt.alloc();
    let mut bytes = Bytes::new(alloc);
    bytes.append(SHAPES)?;
    bytes.append(
        b"<http://example.org/S> <http://www.w3.org/ns/shacl#deactivated> \"true\"^^<http://www.w3.org/2001/XMLSchema#boolean> .",
    )?;
    let shapes = read_shapes(
        alloc,
        read_ntriples(alloc, Scope::Shapes, bytes.as_slice())?,
    )?;
    let data = b"_:b <http://example.org/p> <http://example.org/a> .";
    let graph = read_ntriples(alloc, Scope::Data, data)?;
    assert!(rt; conforms(alloc, &shapes, &graph)?);
    Ok(())
}
