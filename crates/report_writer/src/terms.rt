ghost use Rattle.std.specs.Prelude.{◌≡◌, ◌++◌, Bool, true, false, None, IfOk, codes, decimal};
ghost use Rattle.rdf_terms.specs.declared.term.Scope.TheVariants.{Data};
ghost use Rattle.rdf_terms.specs.Vocab.Xsd as xsd_texts;
ghost use Rattle.report_writer.specs.Report.{in_report, result_node, boolean_literal, string_literal};

use rdf_terms::vocab::xsd;
use rdf_terms::{OutOfMemory, Scope, Term, Text};
use std::alloc::Global;

/// A blank node of the report.
pub(crate) fn blank_node(alloc: Global, label: &str) -> Result<Term, OutOfMemory>
    ensures { IfOk result (λ t. t ≡ Term.Blank Data label.now) }
{
    Ok(Term::Blank {
        scope: Scope::Data,
        label: Text::from_str(alloc, label)?,
    })
}

/// The node of a result.
pub(crate) fn result_node(alloc: Global, number: usize) -> Result<Term, OutOfMemory>
    ensures { IfOk result (λ t. t ≡ result_node number) }
{
    let label = format!(in alloc; "r-{number}")?;
    blank_node(alloc, label.as_str())
}

/// A blank node of another document, whose label is put behind a prefix.
fn foreign_node(alloc: Global, prefix: &str, label: &Text) -> Result<Term, OutOfMemory>
    ensures { IfOk result (λ t. t ≡ Term.Blank Data (prefix.now ++ label.now)) }
{
    let mut text = String::from_str(alloc, prefix)?;
    text.push_str(label.as_str())?;
    blank_node(alloc, text.as_str())
}

/// The term as it stands in a report.
pub(crate) fn in_report(alloc: Global, term: &Term) -> Result<Term, OutOfMemory>
    ensures { IfOk result (λ t. t ≡ in_report term.now) }
{
    match term {
        Term::Blank {
            scope: Scope::Data,
            label,
        } => foreign_node(alloc, "d-", label),
        Term::Blank {
            scope: Scope::Shapes,
            label,
        } => foreign_node(alloc, "s-", label),
        Term::Iri(_) | Term::Literal { .. } => term.copy(alloc),
    }
}

/// The text as an IRI.
pub(crate) fn iri(alloc: Global, text: &str) -> Result<Term, OutOfMemory>
    ensures { IfOk result (λ t. t ≡ Term.Iri text.now) }
{
    Ok(Term::Iri(Text::from_str(alloc, text)?))
}

/// A literal without a language tag.
fn literal(alloc: Global, lexical: &str, datatype: &str) -> Result<Term, OutOfMemory>
    ensures { IfOk result (λ t. t ≡ Term.Literal lexical.now datatype.now None) }
{
    Ok(Term::Literal {
        lexical: Text::from_str(alloc, lexical)?,
        datatype: Text::from_str(alloc, datatype)?,
        tag: None,
    })
}

/// A string.
pub(crate) fn string(alloc: Global, text: &str) -> Result<Term, OutOfMemory>
    ensures { IfOk result (λ t. t ≡ string_literal text.now) }
{
    literal(alloc, text, xsd::STRING)
}

/// A boolean.
pub(crate) fn boolean(alloc: Global, value: bool) -> Result<Term, OutOfMemory>
    ensures { IfOk result (λ t. t ≡ boolean_literal value) }
{
    let lexical = if value { "true" } else { "false" };
    literal(alloc, lexical, xsd::BOOLEAN)
}
