//! Calls of the program in tests.

use explain_cli::{Status, run};
use rdf_terms::OutOfMemory;
use shelf_io::{MemoryShelf, MemorySink};
use std::alloc::Global;
use std::process::Abort;

/// The words as strings.
pub fn owned_words(alloc: Global, words: &[&str]) -> Result<Vec<String>, OutOfMemory> {
    let mut owned = Vec::new(alloc);
    for word in words {
        owned.push(String::from_str(alloc, word)?)?;
    }
    Ok(owned)
}

/// The call ends with the status, and writes this note and nothing else.
pub fn expect_note(
    rt: &impl Abort,
    alloc: Global,
    words: &[&str],
    shelf: &mut MemoryShelf,
    status: Status,
    note: &str,
) -> Result<(), OutOfMemory> {
    let owned = owned_words(alloc, words)?;
    let mut out = MemorySink::new(alloc, 1000)?;
    let mut notes = MemorySink::new(alloc, 1000)?;
    assert_eq!(rt;
        run(alloc, owned.as_slice(), shelf, &mut out, &mut notes),
        status,
        "{note}"
    );
    assert_eq!(rt; out.bytes(), b"".as_slice(), "{note}");
    assert_eq!(rt; notes.bytes(), note.as_bytes());
    Ok(())
}
