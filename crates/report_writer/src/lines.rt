ghost use Rattle.std.specs.Prelude.{◌≡◌, ◌++◌, IsTrue, OnOk, flat_map, option_map, option_copied};
ghost use Rattle.rdf_terms.specs.Statement.{is_node};
ghost use Rattle.ntriples_io.specs.CanonicalText.{line_text};
ghost use Rattle.report_writer.specs.Report.{triple_of, optional_triple, in_report as term_in_report};

use crate::terms::{in_report, iri};
use ntriples_io::write_triple;
use rdf_terms::{Bytes, OutOfMemory, Term, Triple};
use std::alloc::Global;

/// Appends the line of the triple with these terms.
pub(crate) fn push_triple(
    alloc: Global,
    out: &mut Bytes,
    subject: &Term,
    predicate: &str,
    object: Term,
) -> Result<(), OutOfMemory>
    requires { IsTrue (is_node subject.now) }
    ensures { OnOk result (out.new ≡ out.old
        ++ line_text (triple_of subject.now (Term.Iri predicate.now) object)) }
{
    let triple = Triple::new(subject.copy(alloc)?, iri(alloc, predicate)?, object);
    let line = write_triple(alloc, &triple)?;
    out.append(line.as_slice())
}

/// Appends the line of the triple with this object of another document, as the report has it.
pub(crate) fn push_foreign(
    alloc: Global,
    out: &mut Bytes,
    subject: &Term,
    predicate: &str,
    object: &Term,
) -> Result<(), OutOfMemory>
    requires { IsTrue (is_node subject.now) }
    ensures { OnOk result (out.new ≡ out.old
        ++ line_text (triple_of subject.now (Term.Iri predicate.now) (term_in_report object.now))) }
{
    let object = in_report(alloc, object)?;
    push_triple(alloc, out, subject, predicate, object)
}

/// The same, if there is an object.
pub(crate) fn push_optional(
    alloc: Global,
    out: &mut Bytes,
    subject: &Term,
    predicate: &str,
    object: &Option<Term>,
) -> Result<(), OutOfMemory>
    requires { IsTrue (is_node subject.now) }
    ensures { OnOk result (out.new ≡ out.old ++ flat_map line_text
        (optional_triple subject.now (Term.Iri predicate.now) (option_map term_in_report object.now))) }
{
    match object {
        Some(object) => push_foreign(alloc, out, subject, predicate, object),
        None => Ok(()),
    }
}
