ghost use Rattle.std.specs.Prelude.{◌≡◌, [], IfOk, Some, None, option_map, option_copied, unwrap_or};
ghost use Rattle.shapes_graph.specs.Constraints.{component_of};
ghost use Rattle.shapes_graph.specs.PathForms.{text_of};
ghost use Rattle.shapes_graph.specs.Results.{row, row_of_triple};
ghost use Rattle.core_constraints.specs.Findings.{term_of, IsNodeNumber, IsShapeNumber};
ghost use Rattle.core_constraints.specs.Rows.{result_of};
ghost use Rattle.core_constraints.specs.RowLists.{frame_by};

use crate::input::Input;
use rdf_navigation::value_of;
use rdf_terms::vocab::sh;
use rdf_terms::{Items, OutOfMemory, Term, Text, Triple};
use shapes_graph::{Constraint, Kind};
use std::alloc::Global;

/// A validation result (SHACL 2017, section 3.6.2). Rows are ordered by their fields, one after the
/// other, and an absent field comes first.
#[derive(Debug, PartialEq, Eq, PartialOrd, Ord, Drop)]
pub struct ResultRow {
    /// The focus node.
    pub focus: Term,
    /// The shape whose constraint is violated.
    pub shape: Term,
    /// The IRI of the constraint component.
    pub component: Text,
    /// The value of `sh:path` for a property shape, and for a closed shape the predicate that isn't
    /// allowed.
    pub path: Option<Term>,
    /// The term at fault: a value node, for `sh:equals` also an object of its predicate, for `sh:closed` the
    /// object of the triple. `None` where all value nodes together are at fault.
    pub value: Option<Term>,
    /// The language tag that comes twice.
    pub message: Option<Text>,
    /// The severity of the shape.
    pub severity: Term,
}

/// A list of validation results.
pub type Rows = Items<ResultRow>;

/// What the rows of a constraint at a focus node say beside their values.
#[derive(Clone, Copy)]
pub(crate) struct Frame<'a> {
    pub(crate) input: &'a Input<'a>,
    pub(crate) constraint: &'a Constraint,
    pub(crate) node: usize,
}

/// The IRI of the constraint component of a kind, and the empty text for `sh:property`, which has no results
/// of its own.
fn component_of(kind: &Kind) -> &'static str
    ensures { result.now ≡ unwrap_or (option_map text_of (component_of kind.now)) [] }
{
    match kind {
        Kind::Class(_) => sh::CLASS_CONSTRAINT_COMPONENT,
        Kind::Datatype(_) => sh::DATATYPE_CONSTRAINT_COMPONENT,
        Kind::NodeKind(_) => sh::NODE_KIND_CONSTRAINT_COMPONENT,
        Kind::MinExclusive(_) => sh::MIN_EXCLUSIVE_CONSTRAINT_COMPONENT,
        Kind::MinInclusive(_) => sh::MIN_INCLUSIVE_CONSTRAINT_COMPONENT,
        Kind::MaxExclusive(_) => sh::MAX_EXCLUSIVE_CONSTRAINT_COMPONENT,
        Kind::MaxInclusive(_) => sh::MAX_INCLUSIVE_CONSTRAINT_COMPONENT,
        Kind::MinLength(_) => sh::MIN_LENGTH_CONSTRAINT_COMPONENT,
        Kind::MaxLength(_) => sh::MAX_LENGTH_CONSTRAINT_COMPONENT,
        Kind::LanguageIn(_) => sh::LANGUAGE_IN_CONSTRAINT_COMPONENT,
        Kind::In(_) => sh::IN_CONSTRAINT_COMPONENT,
        Kind::Not(_) => sh::NOT_CONSTRAINT_COMPONENT,
        Kind::Node(_) => sh::NODE_CONSTRAINT_COMPONENT,
        Kind::And(_) => sh::AND_CONSTRAINT_COMPONENT,
        Kind::Or(_) => sh::OR_CONSTRAINT_COMPONENT,
        Kind::Xone(_) => sh::XONE_CONSTRAINT_COMPONENT,
        Kind::Property(_) => "",
        Kind::Closed { .. } => sh::CLOSED_CONSTRAINT_COMPONENT,
        Kind::Disjoint(_) => sh::DISJOINT_CONSTRAINT_COMPONENT,
        Kind::Equals(_) => sh::EQUALS_CONSTRAINT_COMPONENT,
        Kind::HasValue(_) => sh::HAS_VALUE_CONSTRAINT_COMPONENT,
        Kind::UniqueLang(_) => sh::UNIQUE_LANG_CONSTRAINT_COMPONENT,
        Kind::MinCount(_) => sh::MIN_COUNT_CONSTRAINT_COMPONENT,
        Kind::MaxCount(_) => sh::MAX_COUNT_CONSTRAINT_COMPONENT,
        Kind::QualifiedMinCount { .. } => sh::QUALIFIED_MIN_COUNT_CONSTRAINT_COMPONENT,
        Kind::QualifiedMaxCount { .. } => sh::QUALIFIED_MAX_COUNT_CONSTRAINT_COMPONENT,
    }
}

/// A copy of the term, if there is one.
fn copy_of(alloc: Global, term: Option<&Term>) -> Result<Option<Term>, OutOfMemory>
    ensures { IfOk result (λ t. t ≡ option_copied term.entry) }
{
    match term {
        Some(term) => Ok(Some(term.copy(alloc)?)),
        None => Ok(None),
    }
}

impl Frame<'_> {
    /// The value of `sh:path` for the shape of the constraint, if it has one.
    pub(crate) fn path(&self) -> Option<&Term>
        requires { IsShapeNumber self.now.input.now self.now.constraint.now.shape }
        ensures { option_copied result ≡ (frame_by self.now).path }
    {
        let shapes = self.input.shapes;
        value_of(
            shapes.triples(),
            shapes.shape_term(self.constraint.shape),
            sh::PATH,
        )
    }

    /// A row with this path, value and message.
    fn row(
        &self,
        alloc: Global,
        path: Option<&Term>,
        value: Option<&Term>,
        message: Option<Text>,
    ) -> Result<ResultRow, OutOfMemory>
        requires shape { IsShapeNumber self.now.input.now self.now.constraint.now.shape }
        requires node { IsNodeNumber self.now.input.now self.now.node }
        ensures { IfOk result (λ r. result_of r ≡ row (record (frame_by self.now) { path = option_copied path.entry })
            (option_copied value.entry) message) }
    {
        let shapes = self.input.shapes;
        let shape = self.constraint.shape;
        Ok(ResultRow {
            focus: self.input.term(self.node).copy(alloc)?,
            shape: shapes.shape_term(shape).copy(alloc)?,
            component: Text::from_str(alloc, component_of(&self.constraint.kind))?,
            path: copy_of(alloc, path)?,
            value: copy_of(alloc, value)?,
            message,
            severity: shapes.severity(shape).copy(alloc)?,
        })
    }

    /// A row with no value.
    pub(crate) fn row_without_value(&self, alloc: Global) -> Result<ResultRow, OutOfMemory>
        requires shape { IsShapeNumber self.now.input.now self.now.constraint.now.shape }
        requires node { IsNodeNumber self.now.input.now self.now.node }
        ensures { IfOk result (λ r. result_of r ≡ row (frame_by self.now) None None) }
    {
        self.row(alloc, self.path(), None, None)
    }

    /// A row with this node as value.
    pub(crate) fn row_of_value(&self, alloc: Global, value: usize) -> Result<ResultRow, OutOfMemory>
        requires shape { IsShapeNumber self.now.input.now self.now.constraint.now.shape }
        requires node { IsNodeNumber self.now.input.now self.now.node }
        requires value { IsNodeNumber self.now.input.now value }
        ensures { IfOk result (λ r. result_of r ≡ row (frame_by self.now)
            (Some (term_of self.now.input.now value)) None) }
    {
        self.row(alloc, self.path(), Some(self.input.term(value)), None)
    }

    /// A row with this language tag as message.
    pub(crate) fn row_of_tag(&self, alloc: Global, tag: &Text) -> Result<ResultRow, OutOfMemory>
        requires shape { IsShapeNumber self.now.input.now self.now.constraint.now.shape }
        requires node { IsNodeNumber self.now.input.now self.now.node }
        ensures { IfOk result (λ r. result_of r ≡ row (frame_by self.now)
            None (Some tag.now)) }
    {
        self.row(alloc, self.path(), None, Some(tag.copy(alloc)?))
    }

    /// A row of a triple whose predicate isn't allowed.
    pub(crate) fn row_of_triple(
        &self,
        alloc: Global,
        triple: &Triple,
    ) -> Result<ResultRow, OutOfMemory>
        requires shape { IsShapeNumber self.now.input.now self.now.constraint.now.shape }
        requires node { IsNodeNumber self.now.input.now self.now.node }
        ensures { IfOk result (λ r. result_of r ≡ row_of_triple (frame_by self.now)
            triple.now) }
    {
        self.row(alloc, Some(&triple.predicate), Some(&triple.object), None)
    }
}
