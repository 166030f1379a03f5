ghost use Rattle.std.specs.Prelude.{◌≡◌, IfOk};
ghost use Rattle.command_words.specs.declared.words.Command.TheVariants.{Check};
ghost use Rattle.document_input.specs.Told.{during, shelf_told};
ghost use Rattle.explain_cli.specs.Commands.{AnswersCommand, ReportsVerdict, IsVerdictReport};
ghost use Rattle.explain_cli.specs.Input.{graphs_of};
ghost use Rattle.explain_cli.specs.Verdicts.{claim_word};

use crate::report::Report;
use crate::shapes::comparable_shapes;
use crate::{Role, Status};
use certificates::{CheckRefusal, check_document};
use document_input::{InputError, Reader, bytes_of};
use proof_documents::DocumentText;
use proof_lines::Claim;
use rdf_terms::{Graph, OutOfMemory};
use repair_problem::Problem;
use shelf_io::Shelf;
use std::alloc::Global;

/// The answer to `check`: the three graphs and the document are read, and the document is judged.
pub fn check_report<H: Shelf>(
    reader: &mut Reader<H>,
    shapes: &str,
    present: &str,
    offered: &str,
    document: &str,
) -> Result<Report, InputError>
    ensures answer { AnswersCommand (Check shapes.now present.now offered.now document.now)
        (during (shelf_told H.held H.faults) reader.old.shelf.now reader.new.shelf.now) result }
    ensures same_shelf { reader.new.shelf.ghost_name ≡ reader.old.shelf.ghost_name }
{
    let shapes = reader.graph(Role::Shapes, shapes)?;
    let present = reader.graph(Role::Data, present)?;
    let offered = reader.graph(Role::Offered, offered)?;
    let text = reader.document(document)?;
    report_verdict(reader.alloc, shapes, present, offered, &text)
}

/// The report of whether the document is accepted, or why it isn't judged.
fn report_verdict(
    alloc: Global,
    shapes: Graph,
    present: Graph,
    offered: Graph,
    text: &DocumentText,
) -> Result<Report, InputError>
    ensures { ReportsVerdict (graphs_of shapes present offered) text.now result }
{
    let shapes = comparable_shapes(alloc, shapes, &present, &offered)?;
    let problem = Problem::new(alloc, shapes, present, offered)?;
    let verdict = check_document(alloc, &problem, text);
    Ok(verdict_report(alloc, text, verdict)?)
}

/// The report of a verdict on the document.
fn verdict_report(
    alloc: Global,
    text: &DocumentText,
    verdict: Result<(), CheckRefusal>,
) -> Result<Report, OutOfMemory>
    ensures { IfOk result (IsVerdictReport text.now.proof.claim verdict) }
{
    match verdict {
        Ok(()) => {
            let mut out = bytes_of(alloc, "accepted ")?;
            out.append(claim_word(text.proof.claim).as_bytes())?;
            out.append(b"\n")?;
            Ok(Report::answer(alloc, Status::Done, out))
        }
        Err(CheckRefusal::OutOfMemory) => Err(OutOfMemory),
        Err(refusal) => Report::rejected(alloc, refusal),
    }
}

/// The word for what a document claims.
fn claim_word(claim: Claim) -> &'static str
    ensures { result.now ≡ claim_word claim }
{
    match claim {
        Claim::Pair => "pair",
        Claim::NoPair => "none",
        Claim::Spent => "spent",
    }
}
