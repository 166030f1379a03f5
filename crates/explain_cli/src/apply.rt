ghost use Rattle.std.specs.Prelude.{◌≡◌};
ghost use Rattle.command_words.specs.declared.words.Command.TheVariants.{Apply};
ghost use Rattle.document_input.specs.Told.{during, shelf_told};
ghost use Rattle.explain_cli.specs.Commands.{AnswersCommand, ReportsEdited};

use crate::report::Report;
use crate::{ClaimRefusal, InputRefusal, Role, Status};
use document_input::{InputError, Reader};
use ntriples_io::write_graph;
use proof_documents::{ApplyRefusal, apply_document};
use rdf_terms::Graph;
use shelf_io::Shelf;
use std::alloc::Global;

/// The answer to `apply`: the data and the claim are read, and the data is edited.
pub fn apply_report<H: Shelf>(
    reader: &mut Reader<H>,
    present: &str,
    document: &str,
) -> Result<Report, InputError>
    ensures answer { AnswersCommand (Apply present.now document.now)
        (during (shelf_told H.held H.faults) reader.old.shelf.now reader.new.shelf.now) result }
    ensures same_shelf { reader.new.shelf.ghost_name ≡ reader.old.shelf.ghost_name }
{
    let present = reader.graph(Role::Data, present)?;
    let claim = reader.document(document)?;
    let edited = apply_document(reader.alloc, &present, &claim);
    edited_report(reader.alloc, edited)
}

/// The report of the edited graph, or why there is none.
fn edited_report(alloc: Global, edited: Result<Graph, ApplyRefusal>) -> Result<Report, InputError>
    ensures { ReportsEdited edited result }
{
    match edited {
        Ok(graph) => {
            let out = write_graph(alloc, &graph)?;
            Ok(Report::answer(alloc, Status::Done, out))
        }
        Err(ApplyRefusal::NoPair) => Err(claim_error(ClaimRefusal::NoPair)),
        Err(ApplyRefusal::OutsideData { line }) => {
            Err(claim_error(ClaimRefusal::PairOutside { line }))
        }
        Err(ApplyRefusal::OutOfMemory) => Err(InputError::OutOfMemory),
    }
}

/// The error of a claim that can't be applied.
fn claim_error(refusal: ClaimRefusal) -> InputError
    ensures { result ≡ InputError.Refused (InputRefusal.Claim refusal) }
{
    InputError::Refused(InputRefusal::Claim(refusal))
}
