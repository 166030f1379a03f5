ghost use Rattle.std.specs.Prelude.{◌≡◌};
ghost use Rattle.command_words.specs.declared.words.Command.TheVariants.{Explain};
ghost use Rattle.command_words.specs.Words.{IsBudget};
ghost use Rattle.document_input.specs.Told.{during, shelf_told};
ghost use Rattle.explain_cli.specs.Commands.{AnswersCommand, ReportsExplanation, status_of_claim};
ghost use Rattle.explain_cli.specs.Input.{graphs_of};

use crate::report::Report;
use crate::shapes::comparable_shapes;
use crate::{Role, Status};
use certificates::document_bytes;
use document_input::{InputError, Reader};
use proof_lines::Claim;
use rdf_terms::Graph;
use repair_problem::Problem;
use shelf_io::Shelf;
use shrink_pair::explain_problem;
use std::alloc::Global;

/// The answer to `explain`: its three graphs are read, and a proof about their repairs is sought, with at most so many
/// steps.
pub fn explain_report<H: Shelf>(
    reader: &mut Reader<H>,
    shapes: &str,
    present: &str,
    offered: &str,
    conflicts: u64,
) -> Result<Report, InputError>
    requires { IsBudget conflicts }
    ensures answer { AnswersCommand (Explain shapes.now present.now offered.now conflicts)
        (during (shelf_told H.held H.faults) reader.old.shelf.now reader.new.shelf.now) result }
    ensures same_shelf { reader.new.shelf.ghost_name ≡ reader.old.shelf.ghost_name }
{
    let shapes = reader.graph(Role::Shapes, shapes)?;
    let present = reader.graph(Role::Data, present)?;
    let offered = reader.graph(Role::Offered, offered)?;
    report_explanation(reader.alloc, shapes, present, offered, conflicts)
}

/// The report of what is proved of the repairs of the data, or why nothing is sought.
fn report_explanation(
    alloc: Global,
    shapes: Graph,
    present: Graph,
    offered: Graph,
    conflicts: u64,
) -> Result<Report, InputError>
    requires { IsBudget conflicts }
    ensures { ReportsExplanation (graphs_of shapes present offered) conflicts result }
{
    let shapes = comparable_shapes(alloc, shapes, &present, &offered)?;
    let problem = Problem::new(alloc, shapes, present, offered)?;
    let proof = explain_problem(alloc, &problem, conflicts)?;
    let out = document_bytes(alloc, &problem, &proof)?;
    Ok(Report::answer(alloc, status_of(proof.claim), out))
}

/// The status of a proof that claims so.
fn status_of(claim: Claim) -> Status
    ensures { result ≡ status_of_claim claim }
{
    match claim {
        Claim::Pair => Status::Done,
        Claim::NoPair => Status::No,
        Claim::Spent => Status::Spent,
    }
}
