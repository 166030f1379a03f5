ghost use Rattle.std.specs.Prelude.{OnOk, IsSome};
ghost use Rattle.shelf_io.specs.Kept.{kept_at};

use crate::case::{Case, Cases, Document, Kept, Shown, SinkPlan};
use explain_cli::run;
use rdf_terms::OutOfMemory;
use shelf_io::{MemoryShelf, MemorySink};
use std::alloc::{AllocError, Global};

/// The case by its name, and of each of its calls the status and what it wrote: the lines of `out` behind
/// `> ` and those of `notes` behind `! `.
pub fn report_of(alloc: Global, cases: &Cases, case: &Case) -> Result<String, OutOfMemory> {
    let mut shelf = MemoryShelf::new(alloc);
    hold_shared(&mut shelf, cases, case)?;
    hold_all(&mut shelf, &case.documents)?;
    let name = &case.name;
    let mut report = format!(in alloc; "=== {name}\n")?;
    let words = case.words.as_ref().unwrap_or(&cases.words);
    push_call(alloc, &mut report, &mut shelf, case, words, &case.kept)?;
    for call in &case.later {
        push_call(
            alloc,
            &mut report,
            &mut shelf,
            case,
            &call.words,
            &call.kept,
        )?;
    }
    Ok(report)
}

/// Makes a call of the case, and appends its status and what it wrote.
fn push_call(
    alloc: Global,
    report: &mut String,
    shelf: &mut MemoryShelf,
    case: &Case,
    words: &[String],
    kept: &Option<Kept>,
) -> Result<(), OutOfMemory> {
    let mut out = sink_of(alloc, &case.out)?;
    let mut notes = sink_of(alloc, &case.notes)?;
    let status = run(alloc, words, shelf, &mut out, &mut notes);
    let code = status.code();
    write!(report, "{code}\n")?;
    match kept {
        Some(kept) => {
            shelf.hold(kept.name.as_str(), out.bytes())?;
            push_shown(report, kept.shown, out.bytes())?;
        }
        None => push_lines(report, "> ", out.bytes())?,
    }
    push_lines(report, "! ", notes.bytes())?;
    Ok(())
}

/// Appends what is shown of a document that was kept.
fn push_shown(report: &mut String, shown: Shown, bytes: &[u8]) -> Result<(), AllocError> {
    let text = str::from_utf8(bytes).unwrap_or("");
    match shown {
        Shown::Nothing => {}
        Shown::Claim => {
            push_lines_with(report, text, "claim ")?;
            push_lines_with(report, text, "add ")?;
            push_lines_with(report, text, "delete ")?;
        }
        Shown::Sizes => {
            push_lines_with(report, text, "claim ")?;
            let adds = count_lines(text, "add ");
            let deletes = count_lines(text, "delete ");
            write!(report, "> add {adds} delete {deletes}\n")?;
        }
        Shown::Steps => {
            push_lines_with(report, text, "claim ")?;
            let steps = count_lines(text, "step ");
            write!(report, "> steps {steps}\n")?;
        }
    }
    Ok(())
}

/// Appends the lines that begin so.
fn push_lines_with(report: &mut String, text: &str, begin: &str) -> Result<(), AllocError> {
    for line in text.split_terminator('\n') {
        if line.starts_with(begin) {
            write!(report, "> {line}\n")?;
        }
    }
    Ok(())
}

/// How many lines begin so.
fn count_lines(text: &str, begin: &str) -> usize {
    text.split_terminator('\n')
        .filter(|line| line.starts_with(begin))
        .count()
}

/// Holds the documents that all cases have, but those in whose place the case has one of its own: a
/// shelf that holds a name anew keeps its pulls that are to fail.
fn hold_shared(shelf: &mut MemoryShelf, cases: &Cases, case: &Case) -> Result<(), OutOfMemory> {
    for shared in &cases.documents {
        if !case.documents.iter().any(|own| own.name == shared.name) {
            hold(shelf, shared)?;
        }
    }
    Ok(())
}

fn hold_all(shelf: &mut MemoryShelf, documents: &[Document]) -> Result<(), OutOfMemory> {
    for document in documents {
        hold(shelf, document)?;
    }
    Ok(())
}

/// Holds the document, and names the pulls that are to fail.
fn hold(shelf: &mut MemoryShelf, document: &Document) -> Result<(), OutOfMemory> {
    let name = document.name.as_str();
    shelf.hold(name, &document.bytes)?;
    for call in &document.failing {
        shelf.fail_at(name, *call)?;
    }
    Ok(())
}

fn sink_of(alloc: Global, plan: &SinkPlan) -> Result<MemorySink, OutOfMemory> {
    let mut sink = MemorySink::new(alloc, plan.room as usize)?;
    for call in &plan.failing {
        sink.fail_at(*call)?;
    }
    Ok(sink)
}

/// Appends each line behind the mark. A last line that doesn't end is told so, and bytes that are no
/// text are told by their number.
fn push_lines(report: &mut String, mark: &str, bytes: &[u8]) -> Result<(), AllocError> {
    let Ok(text) = str::from_utf8(bytes) else {
        let count = bytes.len();
        return write!(report, "{mark}({count} bytes that are no text)\n");
    };
    for line in text.split_terminator('\n') {
        write!(report, "{mark}{line}\n")?;
    }
    if !text.is_empty() && !text.ends_with("\n") {
        write!(report, "{mark}(without its LF)\n")?;
    }
    Ok(())
}
