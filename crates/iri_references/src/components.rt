//! The components of a text (RFC 3986, section 3), which are found from the back: the fragment, the query, the
//! authority, and the path.
ghost use Rattle.std.specs.Prelude.{◌≡◌};
ghost use Rattle.std.specs.Option.{option_copied};
ghost use Rattle.iri_references.specs.Components.{authority_of, path_of, components_of};
ghost use Rattle.iri_references.specs.Views.{parts};

use crate::cuts::{slash_from, split_at_first, strip};

/// The components of a reference without a scheme, and of an IRI behind its scheme.
#[derive(Clone, Copy)]
pub struct Parts<'a> {
    pub authority: Option<&'a str>,
    pub path: &'a str,
    pub query: Option<&'a str>,
    pub fragment: Option<&'a str>,
}

/// The authority, where the text begins with `//`, and the path.
fn split_authority(hier_part: &str) -> (Option<&str>, &str)
    ensures authority { option_copied result.0 ≡ authority_of hier_part.now }
    ensures path { result.1.now ≡ path_of hier_part.now }
{
    match strip(hier_part, "//") {
        Some(rest) => {
            let (authority, path) = rest.split_at(slash_from(rest, 0));
            (Some(authority), path)
        }
        None => (None, hier_part),
    }
}

/// The components of a reference without a scheme, or of an IRI behind its scheme.
pub fn parts_of(text: &str) -> Parts<'_>
    ensures { parts result ≡ components_of text.now }
{
    let (front, fragment) = split_at_first(text, '#');
    let (hier_part, query) = split_at_first(front, '?');
    let (authority, path) = split_authority(hier_part);
    Parts {
        authority,
        path,
        query,
        fragment,
    }
}
