ghost use Rattle.std.specs.Prelude.{◌+◌, ◌<◌, ◌^◌, length};

use ntriples_io::{NtReader, NtRefusal, read_ntriples, read_pieces};
use rdf_terms::{Bytes, Graph, OutOfMemory, Scope, Term, Text};
use std::alloc::Global;

#[test]
fn the_scope_is_the_reader_s(rt: HostRuntime) -> Result<(), NtRefusal> {
    let graph = read_ntriples(rt.alloc(), Scope::Shapes, b"_:x <http://a/b> _:x .")?;
    assert_eq!(rt; graph.len(), 1);
    let blank = Term::Blank {
        scope: Scope::Shapes,
        label: Text::from_str(rt.alloc(), "x")?,
    };
    assert!(rt; graph.nth(0).subject() == &blank);
    Ok(())
}

fn fed_in_two(alloc: Global, first: &[u8], second: &[u8]) -> Result<Graph, NtRefusal>
    requires { length first.now + length second.now < 2 ^ 63 }
{
    let mut reader = NtReader::new(alloc, Scope::Data);
    reader.feed(first)?;
    reader.feed(second)?;
    reader.finish()
}

fn fed_by_byte(alloc: Global, bytes: &[u8]) -> Result<Graph, NtRefusal> {
    let mut reader = NtReader::new(alloc, Scope::Data);
    'feeding: for i in 0..bytes.len() {
        reader.feed(&bytes[i..i + 1])?;
    }
    reader.finish()
}

fn in_pieces(alloc: Global, bytes: &[u8]) -> Result<Graph, NtRefusal> {
    let half = bytes.len() / 2;
    let mut first = Bytes::new(alloc);
    first.append(&bytes[..half])?;
    let mut second = Bytes::new(alloc);
    second.append(&bytes[half..])?;
    read_pieces(alloc, Scope::Data, &[first, second])
}

const GOOD: &str =
    "<http://a/a> <http://a/b> \"\u{e9}\u{1f600}\"@EN .\r\n\r# c\n_:x <http://a/b> _:y.\r\n_:x <http://a/b> _:y .";

#[test]
fn every_cutting_reads_the_same(rt: HostRuntime) -> Result<(), NtRefusal> {
    let bytes = GOOD.as_bytes();
    let whole = read_ntriples(rt.alloc(), Scope::Data, bytes)?;
    assert_eq!(rt; whole.len(), 2);
    for cut in 0..bytes.len() + 1 {
        let parts = fed_in_two(rt.alloc(), &bytes[..cut], &bytes[cut..])?;
        assert!(rt; parts == whole, "cut at {cut}");
    }
    assert!(rt; fed_by_byte(rt.alloc(), bytes)? == whole);
    assert!(rt; in_pieces(rt.alloc(), bytes)? == whole);
    Ok(())
}

#[test]
fn every_cutting_names_the_same_line(rt: HostRuntime) -> Result<(), NtRefusal> {
    let bytes = b"#\r\n_:x <http://a/b> _:y .\r\r\nbad\r\nworse";
    for cut in 0..bytes.len() + 1 {
        match fed_in_two(rt.alloc(), &bytes[..cut], &bytes[cut..]) {
            Err(NtRefusal::Syntax { line }) => assert_eq!(rt; line, 4, "cut at {cut}"),
            _ => assert!(rt; false, "not refused, cut at {cut}"),
        }
    }
    match fed_by_byte(rt.alloc(), bytes) {
        Err(NtRefusal::Syntax { line }) => assert_eq!(rt; line, 4),
        _ => assert!(rt; false, "not refused"),
    }
    match in_pieces(rt.alloc(), bytes) {
        Err(NtRefusal::Syntax { line }) => assert_eq!(rt; line, 4),
        _ => assert!(rt; false, "not refused"),
    }
    Ok(())
}

#[test]
fn a_line_is_refused_when_it_ends_and_from_then_on(rt: HostRuntime) -> Result<(), NtRefusal> {
    let refused = NtRefusal::Syntax { line: 2 };
    let mut reader = NtReader::new(rt.alloc(), Scope::Data);
    reader.feed(b"#\nbad")?;
    assert_eq!(rt; reader.bytes_taken(), 5);
    assert!(rt; reader.feed(b"\r") == Err(refused));
    assert!(rt; reader.feed(b"") == Err(refused));
    assert!(rt; reader.feed(b"\nworse\n") == Err(refused));
    match reader.finish() {
        Err(refusal) => assert!(rt; refusal == refused),
        Ok(_) => assert!(rt; false, "read"),
    }
    Ok(())
}

#[test]
fn an_unfinished_line_is_refused_at_the_end(rt: HostRuntime) -> Result<(), NtRefusal> {
    let bytes = b"<http://example.org/a> <http://example.org/p> \"y\" .
<http://example.org/a> <http://example.org/p> \"y\" .
<http://example.org/a> <http://example.org/p> \"x";
    let mut reader = NtReader::new(rt.alloc(), Scope::Data);
    'feeding: for i in 0..bytes.len() {
        assert!(rt; reader.feed(&bytes[i..i + 1]).is_ok(), "at {i}");
    }
    match reader.finish() {
        Err(NtRefusal::Syntax { line }) => assert_eq!(rt; line, 3),
        _ => assert!(rt; false, "not refused"),
    }
    Ok(())
}
