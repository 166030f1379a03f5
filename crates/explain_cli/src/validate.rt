ghost use Rattle.std.specs.Prelude.{◌≡◌, IfOk};
ghost use Rattle.command_words.specs.declared.words.Command.TheVariants.{Validate};
ghost use Rattle.document_input.specs.Told.{during, shelf_told};
ghost use Rattle.explain_cli.specs.Commands.{AnswersCommand, ReportsValidation, ReportsRows};

use crate::report::Report;
use crate::shapes::comparable_shapes;
use crate::{Role, Status};
use core_constraints::{Rows, results};
use document_input::{InputError, Reader};
use rdf_terms::{Graph, OutOfMemory};
use report_writer::report_bytes;
use shelf_io::Shelf;
use std::alloc::Global;

/// The answer to `validate`: its two graphs are read, and the data is validated.
pub fn validate_report<H: Shelf>(
    reader: &mut Reader<H>,
    shapes: &str,
    present: &str,
) -> Result<Report, InputError>
    ensures answer { AnswersCommand (Validate shapes.now present.now)
        (during (shelf_told H.held H.faults) reader.old.shelf.now reader.new.shelf.now) result }
    ensures same_shelf { reader.new.shelf.ghost_name ≡ reader.old.shelf.ghost_name }
{
    let shapes = reader.graph(Role::Shapes, shapes)?;
    let present = reader.graph(Role::Data, present)?;
    report_validation(reader.alloc, shapes, &present)
}

/// The report of the data's validation results, or why there is none.
fn report_validation(alloc: Global, shapes: Graph, present: &Graph) -> Result<Report, InputError>
    ensures { ReportsValidation shapes present.now result }
{
    let offered = Graph::new(alloc);
    let shapes = comparable_shapes(alloc, shapes, present, &offered)?;
    let rows = results(alloc, &shapes, present)?;
    Ok(rows_report(alloc, &rows)?)
}

/// The report of the rows.
fn rows_report(alloc: Global, rows: &Rows) -> Result<Report, OutOfMemory>
    ensures { IfOk result (ReportsRows rows.now) }
{
    let status = if rows.as_slice().is_empty() {
        Status::Done
    } else {
        Status::No
    };
    let out = report_bytes(alloc, rows)?;
    Ok(Report::answer(alloc, status, out))
}
