//! A document that `explain` wrote is bent, and `check` says where.

use crate::calls::{expect_note, owned_words};
use explain_cli::{Status, run};
use rdf_terms::OutOfMemory;
use shelf_io::{MemoryShelf, MemorySink};
use std::alloc::Global;
use std::test::Fail;

/// Each of four persons has a seat, and each of three seats is of one person at most.
const SHAPES: &[u8] = b"\
<http://example.org/Person> <http://www.w3.org/ns/shacl#targetNode> <http://example.org/p1> .
<http://example.org/Person> <http://www.w3.org/ns/shacl#targetNode> <http://example.org/p2> .
<http://example.org/Person> <http://www.w3.org/ns/shacl#targetNode> <http://example.org/p3> .
<http://example.org/Person> <http://www.w3.org/ns/shacl#targetNode> <http://example.org/p4> .
<http://example.org/Person> <http://www.w3.org/ns/shacl#property> <http://example.org/One> .
<http://example.org/One> <http://www.w3.org/ns/shacl#path> <http://example.org/seat> .
<http://example.org/One> <http://www.w3.org/ns/shacl#minCount> \"1\"^^<http://www.w3.org/2001/XMLSchema#integer> .
<http://example.org/Seat> <http://www.w3.org/ns/shacl#targetNode> <http://example.org/s1> .
<http://example.org/Seat> <http://www.w3.org/ns/shacl#targetNode> <http://example.org/s2> .
<http://example.org/Seat> <http://www.w3.org/ns/shacl#targetNode> <http://example.org/s3> .
<http://example.org/Seat> <http://www.w3.org/ns/shacl#property> <http://example.org/Free> .
_:b0 <http://www.w3.org/ns/shacl#inversePath> <http://example.org/seat> .
<http://example.org/Free> <http://www.w3.org/ns/shacl#path> _:b0 .
<http://example.org/Free> <http://www.w3.org/ns/shacl#maxCount> \"1\"^^<http://www.w3.org/2001/XMLSchema#integer> .
";

/// Each person may have each seat.
const OFFERS: &[u8] = b"\
<http://example.org/p1> <http://example.org/seat> <http://example.org/s1> .
<http://example.org/p1> <http://example.org/seat> <http://example.org/s2> .
<http://example.org/p1> <http://example.org/seat> <http://example.org/s3> .
<http://example.org/p2> <http://example.org/seat> <http://example.org/s1> .
<http://example.org/p2> <http://example.org/seat> <http://example.org/s2> .
<http://example.org/p2> <http://example.org/seat> <http://example.org/s3> .
<http://example.org/p3> <http://example.org/seat> <http://example.org/s1> .
<http://example.org/p3> <http://example.org/seat> <http://example.org/s2> .
<http://example.org/p3> <http://example.org/seat> <http://example.org/s3> .
<http://example.org/p4> <http://example.org/seat> <http://example.org/s1> .
<http://example.org/p4> <http://example.org/seat> <http://example.org/s2> .
<http://example.org/p4> <http://example.org/seat> <http://example.org/s3> .
";

/// Appends the line with this number in the place of its last word.
fn push_with_last(text: &mut String, line: &str, last: u64) -> Result<(), OutOfMemory> {
    let count = line.split(' ').count();
    for word in line.split(' ').take(count.saturating_sub(1)) {
        write!(text, "{word} ")?;
    }
    write!(text, "{last}\n")?;
    Ok(())
}

/// A document with the last id of its first step replaced by the step's own, and the number of that line. Rules and
/// steps are numbered from 0, and lines from 1.
fn with_own_id(alloc: Global, document: &str) -> Result<(String, u64), OutOfMemory> {
    let mut bent = String::new(alloc);
    let mut id = 0u64;
    let mut number = 0u64;
    let mut bent_at = 0;
    for line in document.split_terminator('\n') {
        number = number.saturating_add(1);
        if bent_at == 0 && line.starts_with("step ") {
            push_with_last(&mut bent, line, id)?;
            bent_at = number;
        } else {
            write!(bent, "{line}\n")?;
        }
        if line.starts_with("rule ") || line.starts_with("step ") {
            id = id.saturating_add(1);
        }
    }
    Ok((bent, bent_at))
}

#[test]
fn a_step_that_cites_itself_is_refused(rt: HostRuntime) -> Result<(), Fail> {
    let alloc = rt.alloc();
    let mut shelf = MemoryShelf::new(alloc);
    shelf.hold("s.nt", SHAPES)?;
    shelf.hold("d.nt", b"")?;
    shelf.hold("o.nt", OFFERS)?;
    let words = owned_words(alloc, &["explain", "s.nt", "d.nt", "o.nt"])?;
    let mut out = MemorySink::new(alloc, 1 << 20)?;
    let mut notes = MemorySink::new(alloc, 100)?;
    assert_eq!(rt;
        run(alloc, words.as_slice(), &mut shelf, &mut out, &mut notes),
        Status::No
    );
    let (bent, number) = with_own_id(alloc, str::from_utf8(out.bytes())?)?;
    shelf.hold("e.txt", bent.as_bytes())?;
    let note = format!(in alloc; "rejected: bad step at line {number}\n")?;
    let check = ["check", "s.nt", "d.nt", "o.nt", "e.txt"];
    expect_note(&rt, alloc, &check, &mut shelf, Status::No, note.as_str())?;
    Ok(())
}
