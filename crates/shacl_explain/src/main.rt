//! `shacl-explain`: which triples to delete and which offered triples to add, minimally, so that
//! RDF data conforms to its SHACL shapes.
#![tactic(auto)]

ghost use Rattle.std.specs.Prelude.{◌≡◌, ◌≢◌, [], ◌∷◌, IfErr, IsErr, map, string_bytes};
ghost use Rattle.std.specs.Process.{exit_status};
ghost use Rattle.command_words.specs.Words.{words_of};
ghost use Rattle.explain_cli.specs.declared.status.Status.TheVariants.{Usage, Write, Memory, Spent};
ghost use Rattle.explain_cli.specs.Answer.{IsOneOf};
ghost use Rattle.explain_cli.specs.Causes.{ComesExactly, Searches};
ghost use Rattle.explain_cli.specs.ExitCode.{code_of};

use explain_cli::{Status, run};
use shelf_io::{FileShelf, StdSink};
use std::env;
use std::io::ErrorKind;
use std::process::ExitCode;
use std::rt::Env;

/// The words after the program's name. The error is the status of the program where they cannot be
/// collected: `Memory` where memory could not be had, and else `Usage`, as for a word that is not
/// UTF-8.
fn words_after_name<R: Env + AllocGlobal>(rt: &R) -> Result<Vec<String>, Status>
    ensures { IfErr result (IsOneOf (Memory ∷ Usage ∷ [])) }
{
    let words = env::args(rt).map_err(|error| status_of(error.kind()))?;
    words
        .skip(1)
        .collect(rt.alloc())
        .map_err(|_| Status::Memory)
}

/// The status where the words can't be collected for an error of that kind.
fn status_of(kind: ErrorKind) -> Status
    ensures memory { kind ≡ ErrorKind.OutOfMemory → result ≡ Status.Memory }
    ensures others { kind ≢ ErrorKind.OutOfMemory → result ≡ Status.Usage }
{
    match kind {
        ErrorKind::OutOfMemory => Status::Memory,
        _ => Status::Usage,
    }
}

/// Runs the words over the files that they name, with standard output for the answer and standard
/// error for the notes.
fn run_words(rt: &HostRuntime, words: &[String]) -> Status
    ensures usage { ComesExactly Usage (Write ∷ Memory ∷ []) (IsErr (words_of (map string_bytes words.now))) result }
    ensures searched { result ≡ Spent → Searches (words_of (map string_bytes words.now)) }
{
    let alloc = rt.alloc();
    let mut shelf = match FileShelf::new(rt, alloc, words) {
        Ok(shelf) => shelf,
        Err(_) => return Status::Memory,
    };
    let mut out = StdSink::new(rt.stdout());
    let mut notes = StdSink::new(rt.stderr());
    run(alloc, words, &mut shelf, &mut out, &mut notes)
}

/// The exit status of the program is the code of its status.
fn exit_code(status: Status) -> ExitCode
    ensures { exit_status result ≡ code_of status }
{
    ExitCode::from(status.code())
}

fn main(rt: HostRuntime) -> ExitCode {
    let status = match words_after_name(&rt) {
        Ok(words) => run_words(&rt, words.as_slice()),
        Err(status) => status,
    };
    exit_code(status)
}
