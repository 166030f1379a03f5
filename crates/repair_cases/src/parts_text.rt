//! Atoms and parts as words and numbers.

use crate::refusal::CaseError;
use repair_problem::{Atom, Part, Parts};

/// Appends the name and the numbers of an atom. Of other atoms than those of paths and triples no numbers are written.
pub fn push_atom(out: &mut String, atom: &Atom) -> Result<(), CaseError> {
    match *atom {
        Atom::Triple { t } => write!(out, "triple {t}")?,
        Atom::Reach { p, x, y } => write!(out, "reach {p} {x} {y}")?,
        Atom::Level { p, k, x, y } => write!(out, "level {p} {k} {x} {y}")?,
        Atom::Middle { p, k, x, z, y } => write!(out, "middle {p} {k} {x} {z} {y}")?,
        _ => out.push_str("other")?,
    }
    Ok(())
}

/// Appends a part behind a comma and a space.
fn push_part(out: &mut String, part: &Part) -> Result<(), CaseError> {
    out.push_str(", ")?;
    match part {
        Part::Fixed(true) => out.push_str("true")?,
        Part::Fixed(false) => out.push_str("false")?,
        Part::Lit(literal) => {
            if !literal.positive {
                out.push_str("not ")?;
            }
            push_atom(out, &literal.atom)?;
        }
    }
    Ok(())
}

/// Appends the line of an atom and its parts.
pub fn push_parts(out: &mut String, atom: &Atom, parts: &Parts) -> Result<(), CaseError> {
    push_atom(out, atom)?;
    out.push_str(if parts.every { ": all of" } else { ": any of" })?;
    for part in parts.list.as_slice() {
        push_part(out, part)?;
    }
    out.push('\n')?;
    Ok(())
}
