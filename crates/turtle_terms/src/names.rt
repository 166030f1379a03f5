ghost use Rattle.std.specs.Prelude.{◌≡◌, ◌≤◌, ◌++◌, IfOk, IsSomeAnd, None, MatchOption, false, true, length};
ghost use Rattle.std.specs.Prelude.{string_bytes, encode_utf8_all};
ghost use Rattle.std.specs.List.{list_all};
ghost use Rattle.std.specs.Str.{chars};
ghost use Rattle.regular_forms.specs.Regular.{Has, empty, maybe};
ghost use Rattle.rdf_grammar.specs.Lawful.{IsIri};
ghost use Rattle.turtle_tokens.specs.Tokens.{pn_local, pname_ln, pname_ns};
ghost use Rattle.grammar_forms.specs.Reading.{one_at};
ghost use Rattle.turtle_terms.specs.Names.{is_not_colon, is_not_backslash, IsNameOf, HasForms};
ghost use Rattle.turtle_terms.specs.Names.{unescaped, expanded};
ghost use Rattle.turtle_terms.specs.Appending.{LeavesRest};

use rdf_grammar::{CharClass, first_char, front, skip, strip_char};
use rdf_terms::{OutOfMemory, Text};
use std::alloc::Global;

/// A prefixed name, cut at its first colon (PNAME_NS or PNAME_LN of RDF 1.1 Turtle, section 6.5).
#[derive(Clone, Copy, Debug)]
pub struct PrefixedName<'t> {
    /// The prefix, which may be empty.
    pub prefix: &'t str,
    /// The local part as it is written, which is empty in a PNAME_NS.
    pub local: &'t str,
}

/// Any character but a colon.
#[derive(Clone, Copy)]
struct PrefixChars;

impl CharClass for PrefixChars {
    ghost test = { λ _. is_not_colon };

    fn contains(&self, c: char) -> bool {
        c != ':'
    }
}

/// Any character but a backslash.
#[derive(Clone, Copy)]
struct PlainChars;

impl CharClass for PlainChars {
    ghost test = { λ _. is_not_backslash };

    fn contains(&self, c: char) -> bool {
        c != '\\'
    }
}

/// The prefix and the local part of a name, or `None` where it has no colon. Of a PNAME_NS or PNAME_LN they are the
/// parts of the production, since no prefix has a colon.
pub fn split_name(name: &str) -> Option<PrefixedName<'_>>
    ensures cut { MatchOption result (list_all is_not_colon (chars name.now) ≡ true)
        (λ x. IsNameOf (chars name.now) (chars x.prefix.now) (chars x.local.now)) }
    ensures namespace { Has pname_ns (chars name.now)
        → IsSomeAnd result (λ x. HasForms empty (chars x.prefix.now) (chars x.local.now)) }
    ensures local { Has pname_ln (chars name.now)
        → IsSomeAnd result (λ x. HasForms pn_local (chars x.prefix.now) (chars x.local.now)) }
{
    let rest = skip(&PrefixChars, name);
    let local = strip_char(rest, ':')?;
    Some(PrefixedName {
        prefix: front(name, rest),
        local,
    })
}

/// Appends the characters at the front that are no backslash, and answers the rest.
fn push_run<'t>(out: &mut String, text: &'t str) -> Result<&'t str, OutOfMemory>
    ensures pushes { IfOk result (λ rest.
        LeavesRest false (string_bytes out.old) (chars text.now) (string_bytes out.new) (chars rest.now)) }
    ensures stops { IfOk result (λ rest. one_at is_not_backslash (chars rest.now) ≡ None) }
    ensures shorter { IfOk result (λ rest. length (chars rest.now) ≤ length (chars text.now)) }
{
    let rest = skip(&PlainChars, text);
    out.push_str(front(text, rest))?;
    Ok(rest)
}

/// Appends the character that stands behind a backslash, if any, and answers the rest.
fn push_escaped<'t>(out: &mut String, text: &'t str) -> Result<&'t str, OutOfMemory>
    ensures pushes { IfOk result (λ rest.
        LeavesRest true (string_bytes out.old) (chars text.now) (string_bytes out.new) (chars rest.now)) }
    ensures shorter { IfOk result (λ rest. length (chars rest.now) ≤ length (chars text.now)) }
{
    match first_char(text) {
        Some((c, rest)) => {
            out.push(c)?;
            Ok(rest)
        }
        None => Ok(text),
    }
}

/// Appends the local part without the backslashes that escape a character of it. A `%` and its two digits stay as they
/// are written (RDF 1.1 Turtle, section 6.4).
fn push_unescaped(out: &mut String, local: &str) -> Result<(), OutOfMemory>
    ensures { IfOk result (λ _.
        string_bytes out.new ≡ string_bytes out.old ++ encode_utf8_all (unescaped false (chars local.now))) }
{
    let mut rest = push_run(out, local)?;
    'escapes: while let Some(escaped) = strip_char(rest, '\\') {
        let behind = push_escaped(out, escaped)?;
        rest = push_run(out, behind)?;
    }
    Ok(())
}

/// The IRI that a prefixed name stands for: the IRI of its prefix and then its local part without the backslashes that
/// escape a character of it (RDF 1.1 Turtle, section 2.4). The one error is want of memory.
pub fn expand_name(alloc: Global, namespace: &Text, local: &str) -> Result<String, OutOfMemory>
    ensures expands { IfOk result (λ iri. string_bytes iri ≡ expanded namespace.now (chars local.now)) }
    ensures lawful { IsIri namespace.now → Has (maybe pn_local) (chars local.now)
        → IfOk result (λ iri. IsIri (string_bytes iri)) }
{
    let mut iri = String::from_str(alloc, namespace.as_str())?;
    push_unescaped(&mut iri, local)?;
    Ok(iri)
}
