ghost use Rattle.std.specs.Prelude.{◌≡◌, map, string_bytes, IfOk};
ghost use Rattle.command_words.specs.Words.{HasBudget};
ghost use Rattle.document_input.specs.Told.{during, shelf_told};
ghost use Rattle.explain_cli.specs.Answer.{CommandMeans, Means};
ghost use Rattle.explain_cli.specs.Causes.{Causes};
ghost use Rattle.explain_cli.specs.Commands.{AnswersCommand, IsErrorReport};
ghost use Rattle.explain_cli.specs.Outcome.{sink_told, Writes, Outcome};

use crate::apply::apply_report;
use crate::check::check_report;
use crate::explain::explain_report;
use crate::report::Report;
use crate::validate::validate_report;
use crate::{Command, Status, WordsRefusal, read_words};
use document_input::{InputError, Reader};
use rdf_terms::OutOfMemory;
use shelf_io::{Shelf, Sink, write_all_of};
use std::alloc::Global;

/// The answer to a command. A command reads its documents, and then makes its report.
fn answer_command<H: Shelf>(command: &Command, reader: &mut Reader<H>) -> Result<Report, InputError>
    requires { HasBudget command.now }
    ensures answer { AnswersCommand command.now
        (during (shelf_told H.held H.faults) reader.old.shelf.now reader.new.shelf.now) result }
    ensures same_shelf { reader.new.shelf.ghost_name ≡ reader.old.shelf.ghost_name }
{
    match command {
        Command::Validate { shapes, present } => {
            validate_report(reader, shapes.as_str(), present.as_str())
        }
        Command::Explain {
            shapes,
            present,
            offered,
            conflicts,
        } => explain_report(
            reader,
            shapes.as_str(),
            present.as_str(),
            offered.as_str(),
            *conflicts,
        ),
        Command::Apply { present, document } => {
            apply_report(reader, present.as_str(), document.as_str())
        }
        Command::Check {
            shapes,
            present,
            offered,
            document,
        } => check_report(
            reader,
            shapes.as_str(),
            present.as_str(),
            offered.as_str(),
            document.as_str(),
        ),
    }
}

/// The report of a command, with all its bytes: its answer, or why there is none.
fn report_command<H: Shelf>(
    alloc: Global,
    command: &Command,
    shelf: &mut H,
) -> Result<Report, OutOfMemory>
    requires { HasBudget command.now }
    ensures { IfOk result (CommandMeans command.now (during (shelf_told H.held H.faults) shelf.old shelf.new)) }
{
    let mut reader = Reader::new(alloc, shelf);
    match answer_command(command, &mut reader) {
        Ok(report) => Ok(report),
        Err(error) => report_error(alloc, error),
    }
}

/// The report of why a command has no answer.
fn report_error(alloc: Global, error: InputError) -> Result<Report, OutOfMemory>
    ensures { IfOk result (IsErrorReport error) }
{
    Report::error(alloc, &error)
}

/// The report of the words, with all its bytes.
fn report_words<H: Shelf>(
    alloc: Global,
    words: &[String],
    shelf: &mut H,
) -> Result<Report, OutOfMemory>
    ensures { IfOk result (Means (map string_bytes words.now)
        (during (shelf_told H.held H.faults) shelf.old shelf.new)) }
{
    match read_words(alloc, words) {
        Ok(command) => report_command(alloc, &command, shelf),
        Err(WordsRefusal::Word { position }) => Report::usage(alloc, position),
        Err(WordsRefusal::OutOfMemory) => Err(OutOfMemory),
    }
}

/// Writes the two texts of a report, and answers how the call ends. The notes are written only if
/// `out` took all of its text.
fn write_report<O: Sink, N: Sink>(report: &Report, out: &mut O, notes: &mut N) -> Status
    ensures { Writes report.now
        (during (sink_told O.written O.faults) out.old out.new)
        (during (sink_told N.written N.faults) notes.old notes.new) result }
{
    if write_all_of(out, report.out.as_slice()).is_err() {
        return Status::Write;
    }
    if write_all_of(notes, report.notes.as_slice()).is_err() {
        return Status::Write;
    }
    report.status
}

/// Does what the words say, as `run` promises.
fn run_words<H: Shelf, O: Sink, N: Sink>(
    alloc: Global,
    words: &[String],
    shelf: &mut H,
    out: &mut O,
    notes: &mut N,
) -> Status
    ensures { Outcome (map string_bytes words.now)
        (during (shelf_told H.held H.faults) shelf.old shelf.new)
        (during (sink_told O.written O.faults) out.old out.new)
        (during (sink_told N.written N.faults) notes.old notes.new) result }
{
    match report_words(alloc, words, shelf) {
        Ok(report) => write_report(&report, out, notes),
        Err(_) => Status::Memory,
    }
}

/// Does what the words after the program's name say: reads the documents that they name from the
/// shelf, writes the answer to `out` and what there is to say of a refusal to `notes`, and answers
/// the status.
///
/// All bytes are made before the first write, and `out` is written before `notes`. At `Memory`
/// nothing was written. At `Read` the shelf's count of faults for the named document rose, and
/// `out` gained nothing. At `Write` a sink's count of faults rose: each sink holds a prefix of its
/// text, and `notes` gained bytes only if `out` took all of its own.
pub fn run<H: Shelf, O: Sink, N: Sink>(
    alloc: Global,
    words: &[String],
    shelf: &mut H,
    out: &mut O,
    notes: &mut N,
) -> Status
    // What stands in the two sinks at each status.
    ensures outcome { Outcome (map string_bytes words.now)
        (during (shelf_told H.held H.faults) shelf.old shelf.new)
        (during (sink_told O.written O.faults) out.old out.new)
        (during (sink_told N.written N.faults) notes.old notes.new) result }
    // When each status comes.
    ensures causes { Causes (map string_bytes words.now)
        (during (shelf_told H.held H.faults) shelf.old shelf.new)
        (during (sink_told O.written O.faults) out.old out.new)
        (during (sink_told N.written N.faults) notes.old notes.new) result }
{
    run_words(alloc, words, shelf, out, notes)
}
