ghost use Rattle.std.specs.Prelude.{◌≡◌, ℕ, IsTrue, IsFalse, OnOk, Contains, true};
ghost use Rattle.std.specs.List.Sorted.{IsStrictlyIncreasing};
ghost use Rattle.rdf_navigation.specs.Values.{among};
ghost use Rattle.shapes_graph.specs.Forms.{NotObject, Every, Closing, Same, Unique, form_of};
ghost use Rattle.shapes_graph.specs.Results.{row_of_triple};
ghost use Rattle.path_eval.specs.Numbered.{AreNumbers};
ghost use Rattle.core_constraints.specs.Decisions.{Says};
ghost use Rattle.core_constraints.specs.Findings.{shapes_of, term_of, IsNodeNumber, IsTruthful};
ghost use Rattle.core_constraints.specs.Findings.{IsValueNode, AreValueNodes};
ghost use Rattle.core_constraints.specs.Levels.{IsStated};
ghost use Rattle.core_constraints.specs.Tests.{is_tested, IsGoodNode};
ghost use Rattle.core_constraints.specs.RowLists.{Gains, frame_for};
ghost use Rattle.core_constraints.specs.RowLists.{frame_by, IsOwnRowBy};
ghost use Rattle.core_constraints.specs.FrameRows.{IsFrame, AreFrameValues, row_of_node, IsOpenRow, IsRowOfForm};
ghost use Rattle.core_constraints.specs.FrameRows.{has_one_row};

use crate::evaluation::{holds, is_good};
use crate::input::Input;
use crate::memo::Memo;
use crate::result_rows::{Frame, Rows};
use crate::tags::repeated_tags;
use crate::value_nodes::{contains, is_among, objects_of, triples_of};
use rdf_terms::{OutOfMemory, Term, Triple};
use shapes_graph::{Constraint, Kind};
use std::alloc::Global;

/// Appends a row of the node, if it is at fault.
fn push_row_of_node(
    alloc: Global,
    frame: Frame<'_>,
    node: usize,
    is_at_fault: bool,
    rows: &mut Rows,
) -> Result<(), OutOfMemory>
    requires frame { IsFrame frame }
    requires node { IsNodeNumber frame.input.now node }
    ensures { OnOk result (Gains rows.old (λ r. IsTrue is_at_fault × (r ≡ row_of_node frame.entry node)) rows.new) }
{
    if !is_at_fault {
        return Ok(());
    }
    rows.push(frame.row_of_value(alloc, node)?)
}

/// Appends a row of the triple, if its predicate isn't allowed.
fn push_row_of_triple(
    alloc: Global,
    frame: Frame<'_>,
    triple: &Triple,
    allowed: &[Term],
    rows: &mut Rows,
) -> Result<(), OutOfMemory>
    requires { IsFrame frame }
    ensures { OnOk result (Gains rows.old (λ r. IsFalse (among allowed.now triple.now.predicate)
        × (r ≡ row_of_triple (frame_by frame.entry) triple.now)) rows.new) }
{
    if is_among(allowed, &triple.predicate) {
        return Ok(());
    }
    rows.push(frame.row_of_triple(alloc, triple)?)
}

/// Appends a row for each triple of a value node whose predicate isn't allowed.
fn push_open_rows_of_value(
    alloc: Global,
    frame: Frame<'_>,
    value: usize,
    allowed: &[Term],
    rows: &mut Rows,
) -> Result<(), OutOfMemory>
    requires frame { IsFrame frame }
    requires value { IsNodeNumber frame.input.now value }
    ensures { OnOk result (Gains rows.old (IsOpenRow frame.entry allowed.now
        (λ y. y ≡ term_of frame.entry.input.now value)) rows.new) }
{
    'triples: for triple in triples_of(frame.input, value) {
        push_row_of_triple(alloc, frame, triple, allowed, rows)?;
    }
    Ok(())
}

/// Appends the rows of `sh:closed`.
fn push_open_rows(
    alloc: Global,
    frame: Frame<'_>,
    values: &[usize],
    allowed: &[Term],
    rows: &mut Rows,
) -> Result<(), OutOfMemory>
    requires frame { IsFrame frame }
    requires values { AreFrameValues frame values.now }
    ensures { OnOk result (Gains rows.old (IsRowOfForm frame.entry (Closing true allowed.now)) rows.new) }
{
    'values: for value in values {
        push_open_rows_of_value(alloc, frame, *value, allowed, rows)?;
    }
    Ok(())
}

/// Appends a row for each of the nodes that is, or isn't, among the others.
fn push_rows_of_nodes(
    alloc: Global,
    frame: Frame<'_>,
    nodes: &[usize],
    others: &[usize],
    among: bool,
    rows: &mut Rows,
) -> Result<(), OutOfMemory>
    requires frame { IsFrame frame }
    requires within { AreNumbers frame.input.now.graph.nodes nodes.now }
    requires rises { IsStrictlyIncreasing others.now }
    ensures { OnOk result (Gains rows.old (λ r. (a : ℕ) × Contains nodes.now a × (Says among (Contains others.now a)
        × (r ≡ row_of_node frame.entry a))) rows.new) }
{
    'nodes: for node in nodes {
        push_row_of_node(alloc, frame, *node, contains(others, *node) == among, rows)?;
    }
    Ok(())
}

/// Appends the rows of `sh:equals`.
fn push_equals_rows(
    alloc: Global,
    frame: Frame<'_>,
    values: &[usize],
    predicate: &str,
    rows: &mut Rows,
) -> Result<(), OutOfMemory>
    requires frame { IsFrame frame }
    requires values { AreFrameValues frame values.now }
    ensures { OnOk result (Gains rows.old (IsRowOfForm frame.entry (Same predicate.now)) rows.new) }
{
    let objects = objects_of(alloc, frame.input, frame.node, predicate)?;
    push_rows_of_nodes(alloc, frame, values, objects.as_slice(), false, rows)?;
    push_rows_of_nodes(alloc, frame, objects.as_slice(), values, false, rows)
}

/// Appends the rows of `sh:disjoint`.
fn push_common_rows(
    alloc: Global,
    frame: Frame<'_>,
    values: &[usize],
    predicate: &str,
    rows: &mut Rows,
) -> Result<(), OutOfMemory>
    requires frame { IsFrame frame }
    requires values { AreFrameValues frame values.now }
    ensures { OnOk result (Gains rows.old (IsRowOfForm frame.entry (Every (NotObject predicate.now))) rows.new) }
{
    let objects = objects_of(alloc, frame.input, frame.node, predicate)?;
    push_rows_of_nodes(alloc, frame, values, objects.as_slice(), true, rows)
}

/// Appends the rows of `sh:uniqueLang`.
fn push_tag_rows(
    alloc: Global,
    frame: Frame<'_>,
    values: &[usize],
    rows: &mut Rows,
) -> Result<(), OutOfMemory>
    requires frame { IsFrame frame }
    requires values { AreFrameValues frame values.now }
    ensures { OnOk result (Gains rows.old (IsRowOfForm frame.entry (Unique true)) rows.new) }
{
    let tags = repeated_tags(alloc, frame.input, values)?;
    'tags: for tag in tags.as_slice() {
        rows.push(frame.row_of_tag(alloc, tag)?)?;
    }
    Ok(())
}

/// Appends a row for each value node that fails the test of the constraint.
fn push_bad_rows(
    alloc: Global,
    frame: Frame<'_>,
    memo: &mut Memo,
    place: usize,
    values: &[usize],
    rows: &mut Rows,
) -> Result<(), OutOfMemory>
    requires stated { IsStated (shapes_of frame.input.now) place frame.constraint.now }
    requires frame { IsFrame frame }
    requires within { AreNumbers frame.input.now.graph.nodes values.now }
    requires alone { IsTrue (is_tested frame.constraint.now.kind) }
    requires truthful { IsTruthful frame.input.now memo.old }
    ensures rows { OnOk result (Gains rows.old (λ r. (a : ℕ) × Contains values.now a
        × ((¬ (IsGoodNode frame.entry.input.now frame.entry.constraint.now.kind (term_of frame.entry.input.now a)))
        × (r ≡ row_of_node frame.entry a))) rows.new) }
    ensures truthful { IsTruthful frame.entry.input.now memo.new }
{
    'values: for value in values {
        let passes = is_good(alloc, frame.input, memo, place, frame.constraint, *value)?;
        push_row_of_node(alloc, frame, *value, !passes, rows)?;
    }
    Ok(())
}

/// Whether a constraint of the kind has one result or none, of all value nodes together.
fn has_one_row(kind: &Kind) -> bool
    ensures { result ≡ has_one_row (form_of kind.now) }
{
    matches!(
        kind,
        Kind::HasValue(_)
            | Kind::MinCount(_)
            | Kind::MaxCount(_)
            | Kind::QualifiedMinCount { .. }
            | Kind::QualifiedMaxCount { .. }
    )
}

/// Appends the row of a constraint that has one result or none.
fn push_one_row(
    alloc: Global,
    frame: Frame<'_>,
    memo: &mut Memo,
    place: usize,
    values: &[usize],
    rows: &mut Rows,
) -> Result<(), OutOfMemory>
    requires stated { IsStated (shapes_of frame.input.now) place frame.constraint.now }
    requires frame { IsFrame frame }
    requires values { AreFrameValues frame values.now }
    requires one { IsTrue (has_one_row (form_of frame.constraint.now.kind)) }
    requires truthful { IsTruthful frame.input.now memo.old }
    ensures rows { OnOk result (Gains rows.old (IsRowOfForm frame.entry (form_of frame.entry.constraint.now.kind))
        rows.new) }
    ensures truthful { IsTruthful frame.entry.input.now memo.new }
{
    if holds(
        alloc,
        frame.input,
        memo,
        place,
        frame.constraint,
        frame.node,
        values,
    )? {
        return Ok(());
    }
    rows.push(frame.row_without_value(alloc)?)
}

/// Appends the rows of the constraint, which the triple at the place states, at a focus node with these
/// value nodes (SHACL 2017, section 4). Those of `sh:property` are rows of another shape, and not among
/// them.
pub(crate) fn push_constraint_rows(
    alloc: Global,
    input: &Input<'_>,
    memo: &mut Memo,
    place: usize,
    constraint: &Constraint,
    node: usize,
    values: &[usize],
    rows: &mut Rows,
) -> Result<(), OutOfMemory>
    requires stated { IsStated (shapes_of input.now) place constraint.now }
    requires node { IsNodeNumber input.now node }
    requires values { AreValueNodes input.now constraint.now.shape node values.now }
    requires truthful { IsTruthful input.now memo.old }
    ensures rows { OnOk result (Gains rows.old (IsOwnRowBy input.now
        (IsValueNode input.now constraint.now.shape node) (term_of input.now node)
        (frame_for (shapes_of input.now) constraint.now (term_of input.now node)) (form_of constraint.now.kind))
        rows.new) }
    ensures truthful { IsTruthful input.now memo.new }
{
    let frame = Frame {
        input,
        constraint,
        node,
    };
    if has_one_row(&constraint.kind) {
        return push_one_row(alloc, frame, memo, place, values, rows);
    }
    match &constraint.kind {
        Kind::Property(_) => Ok(()),
        Kind::Closed { on, allowed } => {
            if *on {
                return push_open_rows(alloc, frame, values, allowed.as_slice(), rows);
            }
            Ok(())
        }
        Kind::UniqueLang(on) => {
            if *on {
                return push_tag_rows(alloc, frame, values, rows);
            }
            Ok(())
        }
        Kind::Equals(predicate) => push_equals_rows(alloc, frame, values, predicate.as_str(), rows),
        Kind::Disjoint(predicate) => {
            push_common_rows(alloc, frame, values, predicate.as_str(), rows)
        }
        _ => push_bad_rows(alloc, frame, memo, place, values, rows),
    }
}
