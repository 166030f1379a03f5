//! The document of a proof is written as it was read.

use certificates::{check_document, document_bytes, read_document_text};
use ntriples_io::read_ntriples;
use rdf_terms::{Bytes, Scope};
use repair_problem::Problem;
use shapes_graph::read_shapes;
use std::alloc::Global;
use std::test::Fail;

/// A node that has to have a name.
const SHAPES: &[u8] = b"\
<http://example.org/P> <http://www.w3.org/ns/shacl#minCount> \"1\"^^<http://www.w3.org/2001/XMLSchema#integer> .
<http://example.org/P> <http://www.w3.org/ns/shacl#path> <http://example.org/name> .
<http://example.org/S> <http://www.w3.org/ns/shacl#property> <http://example.org/P> .
<http://example.org/S> <http://www.w3.org/ns/shacl#targetNode> <http://example.org/a> .
";

const NAME: &[u8] = b"<http://example.org/a> <http://example.org/name> \"A\" .\n";

/// The name is offered.
const PAIR: &[u8] = b"\
explanation 1
claim pair
add <http://example.org/a> <http://example.org/name> \"A\" .
chain 0
rule undo 0
rule root 1 0
rule target 1 0 0
rule conforms 1 0 0
rule holds 2 0 0
rule marked 2 0 0 2
rule good 2 0 1
rule conforms 0 0 0
rule holds 0 0 1
rule count 0 0 1 1 3
rule reach 4 0 1 1
step 0 10 9 8 7 6 5 4 3 1 2
end
";

/// Nothing is offered.
const NO_PAIR: &[u8] = b"\
explanation 1
claim none
rule root 1 0
rule target 1 0 0
rule conforms 1 0 0
rule holds 2 0 0
rule marked 2 0 0 2
rule good 2 0 1
rule conforms 0 0 0
rule holds 0 0 1
step 7 6 5 4 3 2 0 1
end
";

const SPENT: &[u8] = b"explanation 1\nclaim spent\nrule root 1 0\nend\n";

/// The problem of the shapes, of data without a triple, and of these offers.
fn problem_of(alloc: Global, offered: &[u8]) -> Result<Problem, Fail> {
    let shapes = read_shapes(alloc, read_ntriples(alloc, Scope::Shapes, SHAPES)?)?;
    let present = read_ntriples(alloc, Scope::Data, b"")?;
    let offered = read_ntriples(alloc, Scope::Data, offered)?;
    Ok(Problem::new(alloc, shapes, present, offered)?)
}

/// The text that is written of the proof of an accepted document.
fn written_again(alloc: Global, problem: &Problem, document: &[u8]) -> Result<Bytes, Fail> {
    let text = read_document_text(alloc, document)?;
    let _accepted = check_document(alloc, problem, &text)?;
    Ok(document_bytes(alloc, problem, &text.proof)?)
}

#[test]
fn documents_are_written_as_they_were_read(rt: HostRuntime) -> Result<(), Fail> {
    let alloc = rt.alloc();
    for (offered, document) in [(NAME, PAIR), (b"".as_slice(), NO_PAIR), (NAME, SPENT)] {
        let problem = problem_of(alloc, offered)?;
        let written = written_again(alloc, &problem, document)?;
        assert_eq!(rt; written.as_slice(), document);
    }
    Ok(())
}
