use crate::refusal::CaseError;
use crate::terms_text::{push_iri, push_numbers, push_term, push_terms};
use rdf_terms::Places;
use shapes_graph::Kind;
use std::alloc::{AllocError, Global};

/// Appends what a constraint asks, behind the local name of the property that states it.
pub fn push_kind(alloc: Global, out: &mut String, kind: &Kind) -> Result<(), CaseError> {
    match kind {
        Kind::Class(class) => push_term(alloc, out, "class", class)?,
        Kind::Datatype(datatype) => push_term(alloc, out, "datatype", datatype)?,
        Kind::NodeKind(node_kind) => push_term(alloc, out, "nodeKind", node_kind)?,
        Kind::MinExclusive(bound) => push_term(alloc, out, "minExclusive", bound)?,
        Kind::MinInclusive(bound) => push_term(alloc, out, "minInclusive", bound)?,
        Kind::MaxExclusive(bound) => push_term(alloc, out, "maxExclusive", bound)?,
        Kind::MaxInclusive(bound) => push_term(alloc, out, "maxInclusive", bound)?,
        Kind::MinLength(count) => write!(out, "minLength {count}")?,
        Kind::MaxLength(count) => write!(out, "maxLength {count}")?,
        Kind::LanguageIn(ranges) => push_terms(alloc, out, "languageIn", ranges.as_slice())?,
        Kind::In(terms) => push_terms(alloc, out, "in", terms.as_slice())?,
        Kind::Not(shape) => write!(out, "not shape {shape}")?,
        Kind::Node(shape) => write!(out, "node shape {shape}")?,
        Kind::And(shapes) => push_numbers(out, "and shapes", shapes.as_slice())?,
        Kind::Or(shapes) => push_numbers(out, "or shapes", shapes.as_slice())?,
        Kind::Xone(shapes) => push_numbers(out, "xone shapes", shapes.as_slice())?,
        Kind::Property(shape) => write!(out, "property shape {shape}")?,
        Kind::Closed { on, allowed } => {
            write!(out, "closed {on}, ")?;
            push_terms(alloc, out, "allowed", allowed.as_slice())?;
        }
        Kind::Disjoint(property) => push_iri(out, "disjoint", property)?,
        Kind::Equals(property) => push_iri(out, "equals", property)?,
        Kind::HasValue(term) => push_term(alloc, out, "hasValue", term)?,
        Kind::UniqueLang(on) => write!(out, "uniqueLang {on}")?,
        Kind::MinCount(count) => write!(out, "minCount {count}")?,
        Kind::MaxCount(count) => write!(out, "maxCount {count}")?,
        Kind::QualifiedMinCount {
            count,
            shape,
            siblings,
        } => {
            write!(out, "qualifiedMinCount {count}")?;
            push_qualified(out, *shape, siblings)?;
        }
        Kind::QualifiedMaxCount {
            count,
            shape,
            siblings,
        } => {
            write!(out, "qualifiedMaxCount {count}")?;
            push_qualified(out, *shape, siblings)?;
        }
    }
    Ok(())
}

/// Appends which value nodes are counted: those that conform to the shape and to no sibling.
fn push_qualified(out: &mut String, shape: usize, siblings: &Places) -> Result<(), AllocError> {
    write!(out, " of shape {shape}, ")?;
    push_numbers(out, "siblings", siblings.as_slice())
}
