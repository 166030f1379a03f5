ghost use Rattle.std.specs.Prelude.{◌≡◌, ◌++◌, IfOk, string_bytes};
ghost use Rattle.std.specs.List.{after_first, before_first};
ghost use Rattle.std.specs.Option.{option_copied};
ghost use Rattle.rdf_grammar.specs.Productions.{BeginsWithScheme};
ghost use Rattle.iri_references.specs.Components.{is_colon};
ghost use Rattle.iri_references.specs.Resolution.{marked, recomposed, resolved};
ghost use Rattle.iri_references.specs.Views.{target_parts};

use crate::components::parts_of;
use crate::target::{Target, target_of};
use rdf_grammar::has_scheme;
use rdf_terms::{OutOfMemory, Text};
use std::alloc::{AllocError, Global};

/// The scheme of an IRI, and what stands behind its colon (RFC 3986, section 3.1).
fn split_scheme(iri: &str) -> (&str, &str)
    requires { BeginsWithScheme iri.now }
    ensures scheme { result.0.now ≡ before_first is_colon iri.now }
    ensures rest { result.1.now ≡ after_first is_colon iri.now }
{
    match iri.split_once(':') {
        Some(parts) => parts,
        None => unreachable!(),
    }
}

/// Appends a component behind its mark, where it is there.
fn push_marked(out: &mut String, mark: &str, component: Option<&str>) -> Result<(), AllocError>
    ensures { IfOk result (λ _.
        string_bytes out.new ≡ string_bytes out.old ++ marked mark.now (option_copied component.entry)) }
{
    if let Some(text) = component {
        out.push_str(mark)?;
        out.push_str(text)?;
    }
    Ok(())
}

/// The text of a scheme and the components behind it (RFC 3986, section 5.3).
fn recompose(alloc: Global, scheme: &str, target: &Target<'_>) -> Result<String, AllocError>
    ensures { IfOk result (λ iri. string_bytes iri ≡ recomposed scheme.now (target_parts target.now)) }
{
    let mut iri = String::from_str(alloc, scheme)?;
    iri.push_str(":")?;
    push_marked(&mut iri, "//", target.authority)?;
    iri.push_str(target.path.as_str())?;
    push_marked(&mut iri, "?", target.query)?;
    push_marked(&mut iri, "#", target.fragment)?;
    Ok(iri)
}

/// The IRI that a reference stands for under a base (RFC 3986, section 5): the reference itself where it begins with a
/// scheme, and otherwise the target of section 5.2. The base has to begin with a scheme. `OutOfMemory` comes only where
/// memory can't be had.
#[tactic(auto, unfolding(crate::specs::Resolution::resolved))]
pub fn resolve_iri(alloc: Global, base: &Text, reference: &Text) -> Result<Text, OutOfMemory>
    requires { BeginsWithScheme base.now }
    ensures { IfOk result (λ iri. iri ≡ resolved base.now reference.now) }
{
    if has_scheme(reference.as_str()) {
        return reference.copy(alloc);
    }
    let (scheme, rest) = split_scheme(base.as_str());
    let made = target_of(alloc, &parts_of(rest), &parts_of(reference.as_str()))?;
    Text::from_string(recompose(alloc, scheme, &made)?)
}
