use rdf_terms::OutOfMemory;
use shelf_io::{
    MemoryShelf, MemorySink, ReadRefusal, Shelf, Sink, WriteFault, read_document, write_all_of,
};
use std::alloc::Global;
use std::test::Fail;

/// A shelf that holds these names.
fn shelf(alloc: Global, held: &[(&str, &str)]) -> Result<MemoryShelf, OutOfMemory> {
    let mut shelf = MemoryShelf::new(alloc);
    for (name, text) in held {
        shelf.hold(name, text.as_bytes())?;
    }
    Ok(shelf)
}

/// Whether the document of that name is read as this text.
fn reads(
    alloc: Global,
    shelf: &mut MemoryShelf,
    name: &str,
    text: &str,
) -> Result<bool, ReadRefusal> {
    let bytes = read_document(alloc, shelf, name)?;
    Ok(bytes.as_slice() == text.as_bytes())
}

/// How many bytes one pull gives.
fn pulled(shelf: &mut MemoryShelf, name: &str, at: u64) -> Option<usize> {
    let mut buf = [0u8; 8];
    shelf.pull(name, at, &mut buf).ok()
}

/// A shelf that holds this name, and whose pull of that number fails.
fn failing_shelf(
    alloc: Global,
    name: &str,
    text: &str,
    pull: u64,
) -> Result<MemoryShelf, OutOfMemory> {
    let mut shelf = MemoryShelf::new(alloc);
    shelf.hold(name, text.as_bytes())?;
    shelf.fail_at(name, pull)?;
    Ok(shelf)
}

#[test]
fn shelf_holds_the_last_bytes_of_a_name(rt: HostRuntime) -> Result<(), Fail> {
    let alloc = rt.alloc();
    let mut shelf = shelf(alloc, &[("a", "first"), ("b", ""), ("a", "second")])?;
    for (name, text) in [("a", "second"), ("b", "")] {
        assert_eq!(rt; reads(alloc, &mut shelf, name, text), Ok(true), "{name}");
    }
    assert_eq!(rt;
        reads(alloc, &mut shelf, "c", ""),
        Err(ReadRefusal::ReadFault)
    );
    Ok(())
}

#[test]
fn shelf_fails_at_the_named_pull_alone(rt: HostRuntime) -> Result<(), Fail> {
    let mut shelf = failing_shelf(rt.alloc(), "a", "bytes", 2)?;
    shelf.hold("b", b"others")?;
    let pulls = [
        ("a", 0, Some(5)),
        ("b", 0, Some(6)),
        ("b", 1, Some(5)),
        ("a", 0, None),
        ("a", 5, Some(0)),
    ];
    for (name, at, len) in pulls {
        assert_eq!(rt; pulled(&mut shelf, name, at), len, "{name} at {at}");
    }
    Ok(())
}

#[test]
fn document_is_refused_at_the_failed_pull(rt: HostRuntime) -> Result<(), Fail> {
    let alloc = rt.alloc();
    for pull in [1, 2, 3] {
        let mut shelf = failing_shelf(alloc, "a", "bytes", pull)?;
        for answer in [Err(ReadRefusal::ReadFault), Ok(true)] {
            assert_eq!(rt; reads(alloc, &mut shelf, "a", "bytes"), answer, "at {pull}");
        }
    }
    Ok(())
}

/// What reading a document answers that has this byte so many times: whether it has them.
fn reads_repeated(
    alloc: Global,
    byte: u8,
    times: u64,
) -> Result<Result<bool, ReadRefusal>, OutOfMemory> {
    let mut shelf = MemoryShelf::new(alloc);
    shelf.hold_repeated("long", byte, times)?;
    Ok(read_document(alloc, &mut shelf, "long").map(|bytes| are_all(bytes.as_slice(), byte, times)))
}

fn are_all(bytes: &[u8], byte: u8, times: u64) -> bool {
    bytes.len() as u64 == times && bytes.iter().all(|other| *other == byte)
}

#[test]
fn document_of_one_byte_too_many_is_too_long(rt: HostRuntime) -> Result<(), Fail> {
    let alloc = rt.alloc();
    for (times, answer) in [
        (40_000, Ok(true)),
        ((1 << 30) + 1, Err(ReadRefusal::TooLong)),
    ] {
        assert_eq!(rt; reads_repeated(alloc, b'x', times)?, answer, "{times}");
    }
    Ok(())
}

#[test]
fn sink_takes_what_fits(rt: HostRuntime) -> Result<(), Fail> {
    let mut sink = MemorySink::new(rt.alloc(), 10)?;
    for (text, answer) in [("explana", Ok(())), ("tion 1", Err(WriteFault))] {
        assert_eq!(rt; write_all_of(&mut sink, text.as_bytes()), answer, "{text}");
    }
    assert_eq!(rt; sink.bytes(), b"explanatio".as_slice());
    Ok(())
}

#[test]
fn sink_fails_at_the_named_write_alone(rt: HostRuntime) -> Result<(), Fail> {
    let mut sink = MemorySink::new(rt.alloc(), 10)?;
    sink.fail_at(2)?;
    assert_eq!(rt; sink.write(b"ab").ok(), Some(2));
    assert_eq!(rt; sink.write(b"cd").ok(), None);
    assert_eq!(rt; sink.write(b"ef").ok(), Some(2));
    assert_eq!(rt; sink.bytes(), b"abef".as_slice());
    Ok(())
}
