use rdf_terms::OutOfMemory;
use shelf_io::{FileShelf, ReadRefusal, Shelf, StdSink, WriteFault, read_document, write_all_of};
use std::fs;
use std::io::BufWriter;
use std::test::Fail;

/// What reading the file of that name answers, over a shelf of files: whether it has so many bytes
/// `x` and no others.
fn reads(
    rt: &HostRuntime,
    name: &str,
    len: usize,
) -> Result<Result<bool, ReadRefusal>, OutOfMemory> {
    let words = [String::from_str(rt.alloc(), name)?];
    let mut shelf = FileShelf::new(rt, rt.alloc(), &words)?;
    Ok(read_document(rt.alloc(), &mut shelf, name).map(|bytes| are_all_x(bytes.as_slice(), len)))
}

fn are_all_x(bytes: &[u8], len: usize) -> bool {
    bytes.len() == len && bytes.iter().all(|byte| *byte == b'x')
}

/// How many bytes one pull at that place gives.
fn pulled(rt: &HostRuntime, name: &str, at: u64) -> Result<Option<usize>, OutOfMemory> {
    let words = [String::from_str(rt.alloc(), name)?];
    let mut shelf = FileShelf::new(rt, rt.alloc(), &words)?;
    let mut buf = [0u8; 4];
    Ok(shelf.pull(name, at, &mut buf).ok())
}

#[test]
fn file_shelf_reads_files(rt: HostRuntime) -> Result<(), Fail> {
    let text = vec![in rt.alloc(); b'x'; 100_000]?;
    fs::write(&rt, "held.nt", text.as_slice())?;
    fs::write(&rt, "empty.nt", "")?;
    for (name, len) in [("held.nt", 100_000), ("empty.nt", 0)] {
        assert_eq!(rt; reads(&rt, name, len)?, Ok(true), "{name}");
    }
    assert_eq!(rt; reads(&rt, "missing.nt", 0)?, Err(ReadRefusal::ReadFault));
    assert_eq!(rt; pulled(&rt, "held.nt", 99_999)?, Some(1));
    Ok(())
}

/// The bytes of that file once the texts were written to it over a sink that is still there: each
/// write is flushed.
fn write_texts(rt: &HostRuntime, name: &str, texts: &[&str]) -> Result<Vec<u8>, Fail> {
    let buffered = BufWriter::new(rt.alloc(), fs::create(rt, name)?)?;
    let mut out = StdSink::new(buffered);
    for text in texts {
        write_all_of(&mut out, text.as_bytes())?;
    }
    Ok(fs::read(rt, name)?)
}

#[test]
fn std_sink_writes_to_a_stream(rt: HostRuntime) -> Result<(), Fail> {
    let written = write_texts(&rt, "out.txt", &["explanation 1\n", "claim pair\n"])?;
    assert_eq!(rt;
        written.as_slice(),
        b"explanation 1\nclaim pair\n".as_slice()
    );
    Ok(())
}

#[test]
fn std_sink_tells_a_write_that_failed(rt: HostRuntime) -> Result<(), Fail> {
    fs::write(&rt, "closed.txt", "")?;
    // a file that is open for reading takes nothing
    let mut closed = StdSink::new(fs::open(&rt, "closed.txt")?);
    assert_eq!(rt; write_all_of(&mut closed, b"more"), Err(WriteFault));
    let mut standard = StdSink::new(rt.stdout());
    assert_eq!(rt; write_all_of(&mut standard, b"written\n"), Ok(()));
    Ok(())
}
