ghost use Rattle.std.specs.Prelude.{◌≡◌, ◌<◌, ℕ, List, Some, IfOk, IfSome, length, string_bytes};
ghost use Rattle.std.specs.Cow.{cow_str_bytes};
ghost use Rattle.std.specs.Str.{chars};
ghost use Rattle.grammar_forms.specs.Reading.{Read, one_at, either_at, all_at, written_at};
ghost use Rattle.rdf_grammar.specs.Answers.{Gives, GivesOr, PushesRun};

use crate::ParseError;
use crate::characters::{CharClass, front, skip};
use rdf_terms::OutOfMemory;
use std::alloc::Global;
use std::borrow::CowStr;

/// What stands between two marks: characters of a class, which mean themselves, and escapes.
pub trait Quoted: CharClass {
    ghost escape_at: { Self → List ℕ → Read ℕ ℕ };

    /// The character that the escape at the front names, and the rest behind it.
    fn parse_escape<'a>(&self, text: &'a str) -> Option<(char, &'a str)>
        ensures gives { Gives (λ c. c) result (escape_at self.now (chars text.now)) }
        ensures shorter { IfSome result (λ x. length (chars x.1.now) < length (chars text.now)) };
}

/// The characters at the front that may stand between the marks, with their escapes resolved. They
/// are borrowed where there is no escape.
pub fn parse_quoted<'a, Q: Quoted>(
    alloc: Global,
    quoted: &Q,
    text: &'a str,
) -> Result<(CowStr<'a>, &'a str), ParseError>
    ensures { GivesOr (λ s. cow_str_bytes s) result
        (written_at (all_at (either_at (one_at (Q.test quoted.now)) (Q.escape_at quoted.now))) (chars text.now)) }
{
    if let Some((run, rest)) = parse_plain(quoted, text) {
        return Ok((CowStr::Borrowed(run), rest));
    }
    let (resolved, rest) = parse_escaped(alloc, quoted, text)?;
    Ok((CowStr::Owned(resolved), rest))
}

/// The characters at the front that may stand between the marks, where no escape stands behind them.
fn parse_plain<'a, Q: Quoted>(quoted: &Q, text: &'a str) -> Option<(&'a str, &'a str)>
    ensures { IfSome result (λ x.
        written_at (all_at (either_at (one_at (Q.test quoted.now)) (Q.escape_at quoted.now))) (chars text.now)
        ≡ Some (x.0.now, chars x.1.now)) }
{
    let rest = skip(quoted, text);
    match quoted.parse_escape(rest) {
        None => Some((front(text, rest), rest)),
        Some(_) => None,
    }
}

/// The same with escapes among them, which are resolved.
fn parse_escaped<'a, Q: Quoted>(
    alloc: Global,
    quoted: &Q,
    text: &'a str,
) -> Result<(String, &'a str), ParseError>
    ensures { GivesOr (λ s. string_bytes s) result
        (written_at (all_at (either_at (one_at (Q.test quoted.now)) (Q.escape_at quoted.now))) (chars text.now)) }
{
    let mut out = String::new(alloc);
    let mut rest = push_run(&mut out, quoted, text)?;
    'escapes: while let Some((c, behind)) = quoted.parse_escape(rest) {
        out.push(c)?;
        rest = push_run(&mut out, quoted, behind)?;
    }
    Ok((out, rest))
}

/// Appends the characters of the class at the front, and answers the rest.
fn push_run<'a, C: CharClass>(
    out: &mut String,
    class: &C,
    text: &'a str,
) -> Result<&'a str, OutOfMemory>
    ensures { IfOk result (λ rest.
        PushesRun (C.test class.now) (chars text.now) (chars rest.now) (string_bytes out.old) (string_bytes out.new)) }
{
    let rest = skip(class, text);
    out.push_str(front(text, rest))?;
    Ok(rest)
}
