ghost use Rattle.std.specs.Prelude.{◌≡◌, IfOk};
ghost use Rattle.explain_cli.specs.Notes.{usage_line, rejected_line};

use crate::Status;
use certificates::CheckRefusal;
use document_input::{InputError, bytes_of};
use rdf_terms::{Bytes, OutOfMemory};
use std::alloc::Global;

/// What a call is to write, made before the first write.
#[derive(Drop)]
pub struct Report {
    /// How the call ends, if both texts are written.
    pub status: Status,
    /// The text for `out`.
    pub out: Bytes,
    /// The text for `notes`.
    pub notes: Bytes,
}

impl Report {
    ghost use Rattle.explain_cli.specs.Commands.{IsErrorReport};
    ghost use Rattle.explain_cli.specs.Reports.{answer, note};

    /// An answer to `out`, and no notes. It takes no memory.
    pub fn answer(alloc: Global, status: Status, out: Bytes) -> Report
        ensures { result ≡ answer status out }
    {
        Report {
            status,
            out,
            notes: Bytes::new(alloc),
        }
    }

    /// One line to the notes, and nothing to `out`.
    fn note(alloc: Global, status: Status, line: &str) -> Result<Report, OutOfMemory>
        ensures { IfOk result (λ r. r ≡ note status line.now) }
    {
        Ok(Report {
            status,
            out: Bytes::new(alloc),
            notes: bytes_of(alloc, line)?,
        })
    }

    /// The words are wrong from that position on.
    pub fn usage(alloc: Global, position: usize) -> Result<Report, OutOfMemory>
        ensures { IfOk result (λ r. r ≡ note Status.Usage (usage_line position)) }
    {
        let line = format!(in alloc; "usage: word {position}\n")?;
        Report::note(alloc, Status::Usage, line.as_str())
    }

    /// The document is not accepted, for that reason.
    pub fn rejected(alloc: Global, reason: CheckRefusal) -> Result<Report, OutOfMemory>
        ensures { IfOk result (λ r. r ≡ note Status.No (rejected_line reason)) }
    {
        let line = format!(in alloc; "rejected: {reason}\n")?;
        Report::note(alloc, Status::No, line.as_str())
    }

    /// The input could not be read, or is refused.
    pub fn error(alloc: Global, error: &InputError) -> Result<Report, OutOfMemory>
        ensures { IfOk result (IsErrorReport error.now) }
    {
        match error {
            InputError::Unread { role } => {
                let line = format!(in alloc; "read: {role}\n")?;
                Report::note(alloc, Status::Read, line.as_str())
            }
            InputError::Refused(refusal) => {
                let text = refusal.text(alloc)?;
                let mut notes = bytes_of(alloc, "input: ")?;
                notes.append(text.as_slice())?;
                notes.append(b"\n")?;
                Ok(Report {
                    status: Status::Input,
                    out: Bytes::new(alloc),
                    notes,
                })
            }
            InputError::OutOfMemory => Err(OutOfMemory),
        }
    }
}
