//! The components of the target (RFC 3986, section 5.2.2).
ghost use Rattle.std.specs.Prelude.{◌≡◌, IfOk, string_bytes};
ghost use Rattle.iri_references.specs.Components.{is_slash};
ghost use Rattle.iri_references.specs.DotSegments.{without_dot_segments};
ghost use Rattle.iri_references.specs.Resolution.{merged, target, up_to_last, whole_path};
ghost use Rattle.iri_references.specs.Views.{parts, target_parts};

use crate::components::Parts;
use crate::cuts::last_slash;
use crate::dot_segments::remove_dot_segments;
use std::alloc::{AllocError, Global};

/// The components of the target, whose path is a text of its own.
#[derive(Drop)]
pub struct Target<'a> {
    pub authority: Option<&'a str>,
    pub path: String,
    pub query: Option<&'a str>,
    pub fragment: Option<&'a str>,
}

/// The path up to and with its last `/`.
fn without_last_segment(path: &str) -> &str
    ensures { result.now ≡ up_to_last is_slash path.now }
{
    match last_slash(path) {
        Some(at) => &path[..at + 1],
        None => "",
    }
}

/// The path of a reference, behind all but the last segment of the base's path (section 5.2.3).
fn merge(alloc: Global, base: &Parts<'_>, path: &str) -> Result<String, AllocError>
    ensures { IfOk result (λ all. string_bytes all ≡ merged (parts base.now) path.now) }
{
    let front = if base.authority.is_some() && base.path.is_empty() {
        "/"
    } else {
        without_last_segment(base.path)
    };
    let mut all = String::from_str(alloc, front)?;
    all.push_str(path)?;
    Ok(all)
}

/// The target's path, of a reference whose path isn't empty and that has no authority.
fn target_path(alloc: Global, base: &Parts<'_>, path: &str) -> Result<String, AllocError>
    ensures { IfOk result (λ whole. string_bytes whole ≡ without_dot_segments (whole_path (parts base.now) path.now)) }
{
    if path.starts_with('/') {
        return remove_dot_segments(alloc, path);
    }
    let merged = merge(alloc, base, path)?;
    remove_dot_segments(alloc, merged.as_str())
}

/// The target of a reference without a scheme.
pub fn target_of<'a>(
    alloc: Global,
    base: &Parts<'a>,
    reference: &Parts<'a>,
) -> Result<Target<'a>, AllocError>
    ensures { IfOk result (λ t. target_parts t ≡ target (parts base.now) (parts reference.now)) }
{
    if reference.authority.is_some() {
        return Ok(Target {
            authority: reference.authority,
            path: remove_dot_segments(alloc, reference.path)?,
            query: reference.query,
            fragment: reference.fragment,
        });
    }
    if reference.path.is_empty() {
        return Ok(Target {
            authority: base.authority,
            path: String::from_str(alloc, base.path)?,
            query: reference.query.or(base.query),
            fragment: reference.fragment,
        });
    }
    Ok(Target {
        authority: base.authority,
        path: target_path(alloc, base, reference.path)?,
        query: reference.query,
        fragment: reference.fragment,
    })
}
