//! The removal of dot segments from a path (RFC 3986, section 5.2.4).
ghost use Rattle.std.specs.Prelude.{◌≡◌, ◌<◌, IfOk, IfSome, drop, is_some, length, string_bytes, take};
ghost use Rattle.std.specs.List.{before_last};
ghost use Rattle.iri_references.specs.Components.{is_slash};
ghost use Rattle.iri_references.specs.DotSegments.{begins_with_segment, segment_len, slash_for};
ghost use Rattle.iri_references.specs.DotSegments.{turn, without_dot_segments};

use crate::cuts::{last_slash, slash_from, strip};
use std::alloc::{AllocError, Global};

/// Where the first segment ends with the prefix: the path behind the prefix, from its `/` on, or `/` where nothing is
/// left.
fn strip_segment<'a>(path: &'a str, prefix: &str) -> Option<&'a str>
    requires { 1 < length prefix.now }
    ensures found { is_some result ≡ begins_with_segment prefix.now path.now }
    ensures rest { IfSome result (λ rest. rest.now ≡ slash_for prefix.now path.now) }
    ensures shorter { IfSome result (λ rest. length rest.now < length path.now) }
{
    let rest = strip(path, prefix)?;
    if rest.is_empty() {
        return Some("/");
    }
    if rest.starts_with('/') {
        return Some(rest);
    }
    None
}

/// Takes the last segment, and the `/` before it, if any.
fn remove_last_segment(path: &mut String)
    ensures { string_bytes path.new ≡ before_last is_slash (string_bytes path.old) }
{
    path.truncate(last_slash(path.as_str()).unwrap_or(0));
}

/// The first segment, with the `/` before it, if any, and the rest of the path.
fn split_first_segment(path: &str) -> (&str, &str)
    requires { 0 < length path.now }
    ensures segment { result.0.now ≡ take (segment_len path.now) path.now }
    ensures rest { result.1.now ≡ drop (segment_len path.now) path.now }
    ensures shorter { length result.1.now < length path.now }
{
    path.split_at(slash_from(path, 1))
}

/// Does what the first of the rules A to E says that fits, and answers what is left of the input.
fn take_turn<'a>(input: &'a str, output: &mut String) -> Result<&'a str, AllocError>
    requires { 0 < length input.now }
    ensures turn { IfOk result (λ rest.
        turn input.now (string_bytes output.old) ≡ record { input = rest.now; output = string_bytes output.new }) }
    ensures shorter { IfOk result (λ rest. length rest.now < length input.now) }
{
    if let Some(rest) = strip(input, "../") {
        return Ok(rest);
    }
    if let Some(rest) = strip(input, "./") {
        return Ok(rest);
    }
    if let Some(rest) = strip_segment(input, "/.") {
        return Ok(rest);
    }
    if let Some(rest) = strip_segment(input, "/..") {
        remove_last_segment(output);
        return Ok(rest);
    }
    if input == "." || input == ".." {
        return Ok("");
    }
    let (segment, rest) = split_first_segment(input);
    output.push_str(segment)?;
    Ok(rest)
}

/// The path without its dot segments, in time linear in the path.
pub fn remove_dot_segments(alloc: Global, path: &str) -> Result<String, AllocError>
    ensures { IfOk result (λ output. string_bytes output ≡ without_dot_segments path.now) }
{
    let mut input = path;
    let mut output = String::new(alloc);
    'turns: while !input.is_empty() {
        input = take_turn(input, &mut output)?;
    }
    Ok(output)
}
