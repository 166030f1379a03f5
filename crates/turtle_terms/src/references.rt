ghost use Rattle.std.specs.Prelude.{◌≡◌, ℕ, List, IfOk, IfSome};
ghost use Rattle.std.specs.Cow.{cow_str_bytes};
ghost use Rattle.std.specs.Option.{option_copied};
ghost use Rattle.std.specs.Str.{chars};
ghost use Rattle.rdf_grammar.specs.Answers.{GivesAll};
ghost use Rattle.rdf_grammar.specs.Lawful.{IsIri};
ghost use Rattle.rdf_grammar.specs.Productions.{iriref};
ghost use Rattle.turtle_terms.specs.Answers.{Means};
ghost use Rattle.turtle_terms.specs.References.{Refers, iri_under};

use crate::ends::is_end;
use iri_references::resolve_iri;
use rdf_grammar::{ParseError, RecentTexts, has_scheme, parse_iriref};
use rdf_terms::Text;
use std::alloc::Global;
use std::borrow::CowStr;

/// The reference that an IRIREF spells: what stands between `<` and `>`, with its escapes resolved.
fn parse_reference<'t>(alloc: Global, token: &'t str) -> Result<CowStr<'t>, ParseError>
    ensures { Means (λ s. cow_str_bytes s) result iriref (chars token.now) }
{
    let (reference, rest) = parse_iriref(alloc, token)?;
    if is_end(rest) {
        Ok(reference)
    } else {
        Err(ParseError::NoMatch)
    }
}

/// The IRI that a reference stands for, or `NoMatch` where it has no scheme and there is no base.
fn resolve_under(alloc: Global, base: Option<&Text>, reference: Text) -> Result<Text, ParseError>
    requires { IfSome base (λ b. IsIri b.now) }
    ensures gives { GivesAll (λ t. t) result (iri_under (option_copied base.entry) reference) }
    ensures lawful { (text : List ℕ) → iriref text reference → IfOk result (λ iri. IsIri iri) }
{
    match base {
        Some(base) => {
            let iri = resolve_iri(alloc, base, &reference)?;
            let _text = iri.as_str();
            Ok(iri)
        }
        None if has_scheme(reference.as_str()) => Ok(reference),
        None => Err(ParseError::NoMatch),
    }
}

/// The IRI that an IRIREF stands for under the base of the document, if it has one (RDF 1.1 Turtle, section 6.3): what
/// is between `<` and `>` with its escapes resolved, and, where that has no scheme, the target under the base. The base
/// is an IRI, as what this function answers is. `NoMatch` where a UCHAR names no character of an IRI, or where there is
/// neither a scheme nor a base.
pub fn parse_iri(
    alloc: Global,
    texts: &mut RecentTexts,
    base: Option<&Text>,
    token: &str,
) -> Result<Text, ParseError>
    requires { IfSome base (λ b. IsIri b.now) }
    ensures means { Means (λ t. t) result (Refers (option_copied base.entry)) (chars token.now) }
    ensures lawful { IfOk result (λ iri. IsIri iri) }
{
    let reference = parse_reference(alloc, token)?;
    let reference = texts.text_of_read(reference)?;
    resolve_under(alloc, base, reference)
}
