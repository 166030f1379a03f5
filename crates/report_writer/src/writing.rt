ghost use Rattle.std.specs.Prelude.{◌≡◌, ◌<◌, ◌^◌, ◌++◌, IsTrue, OnOk, IfOk, flat_map, option_map};
ghost use Rattle.rdf_terms.specs.declared.term.Scope.TheVariants.{Data};
ghost use Rattle.rdf_terms.specs.Statement.{is_node};
ghost use Rattle.rdf_terms.specs.Vocab.Sh as sh_terms;
ghost use Rattle.ntriples_io.specs.CanonicalText.{line_text};
ghost use Rattle.ntriples_io.specs.Text.{NtText};
ghost use Rattle.report_writer.specs.Report.{report_text, report_graph, AreLawfulRows};
ghost use Rattle.report_writer.specs.Report.{optional_triple, string_literal};
ghost use Rattle.report_writer.specs.Report.{report_node, node_triples, shape_triples, result_triples, head_triples};

use crate::lines::{push_foreign, push_optional, push_triple};
use crate::terms::{blank_node, boolean, iri, result_node, string};
use core_constraints::{ResultRow, Rows};
use rdf_terms::vocab::{rdf, sh};
use rdf_terms::{Bytes, OutOfMemory, Term, Text};
use std::alloc::Global;

/// Appends what a result says of its node and its value (SHACL 2017, sections 3.6.2.1 to 3.6.2.3).
fn push_node(
    alloc: Global,
    out: &mut Bytes,
    node: &Term,
    row: &ResultRow,
) -> Result<(), OutOfMemory>
    requires { IsTrue (is_node node.now) }
    ensures { OnOk result (out.new ≡ out.old ++ flat_map line_text (node_triples node.now row.now)) }
{
    let kind = iri(alloc, sh::VALIDATION_RESULT)?;
    push_triple(alloc, out, node, rdf::TYPE, kind)?;
    push_foreign(alloc, out, node, sh::FOCUS_NODE, &row.focus)?;
    push_optional(alloc, out, node, sh::RESULT_PATH, &row.path)?;
    push_optional(alloc, out, node, sh::VALUE, &row.value)
}

/// Appends the message of a result, if it has one (SHACL 2017, section 3.6.2.7).
fn push_message(
    alloc: Global,
    out: &mut Bytes,
    node: &Term,
    message: &Option<Text>,
) -> Result<(), OutOfMemory>
    requires { IsTrue (is_node node.now) }
    ensures { OnOk result (out.new ≡ out.old ++ flat_map line_text
        (optional_triple node.now sh_terms.result_message (option_map string_literal message.now))) }
{
    match message {
        Some(message) => {
            let message = string(alloc, message.as_str())?;
            push_triple(alloc, out, node, sh::RESULT_MESSAGE, message)
        }
        None => Ok(()),
    }
}

/// Appends what a result says of its shape (SHACL 2017, sections 3.6.2.4, 3.6.2.5, 3.6.2.7 and
/// 3.6.2.8).
fn push_shape(
    alloc: Global,
    out: &mut Bytes,
    node: &Term,
    row: &ResultRow,
) -> Result<(), OutOfMemory>
    requires { IsTrue (is_node node.now) }
    ensures { OnOk result (out.new ≡ out.old ++ flat_map line_text (shape_triples node.now row.now)) }
{
    push_foreign(alloc, out, node, sh::RESULT_SEVERITY, &row.severity)?;
    let component = iri(alloc, row.component.as_str())?;
    push_triple(alloc, out, node, sh::SOURCE_CONSTRAINT_COMPONENT, component)?;
    push_foreign(alloc, out, node, sh::SOURCE_SHAPE, &row.shape)?;
    push_message(alloc, out, node, &row.message)
}

/// Appends the result with this number, and that it is one of the report.
fn push_result(
    alloc: Global,
    out: &mut Bytes,
    report: &Term,
    number: usize,
    row: &ResultRow,
) -> Result<(), OutOfMemory>
    requires { report.now ≡ report_node }
    ensures text { OnOk result (out.new ≡ out.old ++ flat_map line_text (result_triples number row.now)) }
    // A usize fits in 64 bits, so that the number's label is one.
    ensures fits { number < 2 ^ 64 }
{
    let node = result_node(alloc, number)?;
    push_triple(alloc, out, report, sh::RESULT, node.copy(alloc)?)?;
    push_node(alloc, out, &node, row)?;
    push_shape(alloc, out, &node, row)
}

/// Appends what the report says of its node (SHACL 2017, section 3.6.1).
fn push_head(
    alloc: Global,
    out: &mut Bytes,
    report: &Term,
    conforms: bool,
) -> Result<(), OutOfMemory>
    requires { report.now ≡ report_node }
    ensures { OnOk result (out.new ≡ out.old ++ flat_map line_text (head_triples conforms)) }
{
    let kind = iri(alloc, sh::VALIDATION_REPORT)?;
    push_triple(alloc, out, report, rdf::TYPE, kind)?;
    push_triple(alloc, out, report, sh::CONFORMS, boolean(alloc, conforms)?)
}

/// The report of the rows (SHACL 2017, section 3.6) as canonical lines of N-Triples: the report, whether
/// there is no row, and then each row in order, as a result with a blank node of its own. The blank nodes
/// of the data have `d-` before their labels and those of the shapes `s-`.
pub fn report_bytes(alloc: Global, rows: &Rows) -> Result<Bytes, OutOfMemory>
    ensures text { IfOk result (λ b. b ≡ report_text rows.now) }
    // The text is N-Triples, and means the graph of the report.
    ensures read_back { AreLawfulRows rows.now → IfOk result (λ b. NtText b Data (report_graph rows.now)) }
{
    let mut out = Bytes::new(alloc);
    let report = blank_node(alloc, "report")?;
    push_head(alloc, &mut out, &report, rows.as_slice().is_empty())?;
    'rows: for (number, row) in rows.as_slice().iter().enumerate() {
        push_result(alloc, &mut out, &report, number, row)?;
    }
    Ok(out)
}
