ghost use Rattle.std.specs.Prelude.{◌≡◌, ◌+◌, ◌&&◌, ℕ, IfOk, length, nat_eq, nat_lt};
ghost use Rattle.repair_problem.specs.declared.atom.Atom.TheVariants as variant;
ghost use Rattle.path_levels.specs.PossibleNodes.{possible};
ghost use Rattle.path_levels.specs.PathParts.{is_possible, is_path_atom, named, path_part, level_part, form_at};

use crate::PossibleNodes;
use crate::forms::{form_at, has_level, is_start};
use rdf_terms::OutOfMemory;
use repair_problem::{Atom, Literal, Part};
use shapes_graph::PathForm;

/// The atom as a part, and `Fixed(false)` where the numbers name none.
fn named(is_atom: bool, atom: Atom) -> Part
    ensures { result ≡ named is_atom atom }
{
    if is_atom {
        Part::Lit(Literal {
            atom,
            positive: true,
        })
    } else {
        Part::Fixed(false)
    }
}

/// That a path leads from one node to another, as a part.
pub(crate) fn reach_part(
    nodes: &mut PossibleNodes<'_>,
    p: u64,
    x: u64,
    y: u64,
) -> Result<Part, OutOfMemory>
    ensures value { IfOk result (λ part. part ≡ path_part nodes.old (variant.Reach p x y)) }
    ensures same { nodes.new ≡ nodes.old }
{
    let numbers = nodes.numbers(p, x)?;
    Ok(named(numbers.has(y), Atom::Reach { p, x, y }))
}

/// Whether the numbers name a level of a repeated path.
pub(crate) fn is_level_atom(
    nodes: &mut PossibleNodes<'_>,
    p: u64,
    k: u64,
    x: u64,
    y: u64,
) -> Result<bool, OutOfMemory>
    ensures value { IfOk result (λ b. b ≡ is_path_atom nodes.old (variant.Level p k x y)) }
    ensures same { nodes.new ≡ nodes.old }
{
    let numbers = nodes.numbers(p, x)?;
    let can_lead = numbers.has(y);
    let is_level = has_level(nodes.problem(), p, k, numbers.len());
    Ok(can_lead && is_level)
}

/// A level of a repeated path, as a part.
pub(crate) fn level_part(
    nodes: &mut PossibleNodes<'_>,
    p: u64,
    k: u64,
    x: u64,
    y: u64,
) -> Result<Part, OutOfMemory>
    ensures value { IfOk result (λ part. part ≡ level_part nodes.old (form_at nodes.old p) p k x y) }
    ensures same { nodes.new ≡ nodes.old }
{
    if is_start(nodes.problem(), p, k) {
        return Ok(Part::Fixed(x == y));
    }
    let is_atom = is_level_atom(nodes, p, k, x, y)?;
    Ok(named(is_atom, Atom::Level { p, k, x, y }))
}

/// Whether level `k` isn't the last, where there are so many possible nodes.
fn is_before_last(k: u64, count: u64) -> bool
    ensures { result ≡ nat_lt (k + 1) count }
{
    count > 1 && k < count - 1
}

/// Whether the numbers name a middle of a sequence of two paths.
fn is_sequence_middle(
    nodes: &mut PossibleNodes<'_>,
    paths: (u64, u64),
    k: u64,
    x: u64,
    z: u64,
    y: u64,
) -> Result<bool, OutOfMemory>
    ensures value { IfOk result (λ b. b
        ≡ (nat_eq k 0 && (is_possible nodes.old paths.0 x z && is_possible nodes.old paths.1 z y))) }
    ensures same { nodes.new ≡ nodes.old }
{
    let (first, second) = paths;
    let leads_there = nodes.numbers(first, x)?.has(z);
    let leads_on = nodes.numbers(second, z)?.has(y);
    Ok(k == 0 && (leads_there && leads_on))
}

/// Whether the numbers name a middle of a repeated path: so many steps and one more along the inner path.
fn is_repeated_middle(
    nodes: &mut PossibleNodes<'_>,
    paths: (u64, u64),
    k: u64,
    x: u64,
    z: u64,
    y: u64,
) -> Result<bool, OutOfMemory>
    ensures value { IfOk result (λ b. b ≡ (nat_lt (k + 1) (length (possible nodes.old paths.0 x))
        && (is_possible nodes.old paths.0 x z && is_possible nodes.old paths.1 z y))) }
    ensures same { nodes.new ≡ nodes.old }
{
    let (path, inner) = paths;
    let numbers = nodes.numbers(path, x)?;
    let is_early = is_before_last(k, numbers.len());
    let leads_there = numbers.has(z);
    let leads_on = nodes.numbers(inner, z)?.has(y);
    Ok(is_early && (leads_there && leads_on))
}

/// Whether the numbers name a middle of a path.
pub(crate) fn is_middle_atom(
    nodes: &mut PossibleNodes<'_>,
    p: u64,
    k: u64,
    x: u64,
    z: u64,
    y: u64,
) -> Result<bool, OutOfMemory>
    ensures value { IfOk result (λ b. b ≡ is_path_atom nodes.old (variant.Middle p k x z y)) }
    ensures same { nodes.new ≡ nodes.old }
{
    match form_at(nodes.problem(), p) {
        Some(PathForm::Sequence(first, second)) => {
            is_sequence_middle(nodes, (*first as u64, *second as u64), k, x, z, y)
        }
        Some(PathForm::ZeroOrMore(inner)) | Some(PathForm::OneOrMore(inner)) => {
            is_repeated_middle(nodes, (p, *inner as u64), k, x, z, y)
        }
        _ => Ok(false),
    }
}

/// A middle of a path, as a part.
pub(crate) fn middle_part(
    nodes: &mut PossibleNodes<'_>,
    p: u64,
    k: u64,
    x: u64,
    z: u64,
    y: u64,
) -> Result<Part, OutOfMemory>
    ensures value { IfOk result (λ part. part ≡ path_part nodes.old (variant.Middle p k x z y)) }
    ensures same { nodes.new ≡ nodes.old }
{
    let is_atom = is_middle_atom(nodes, p, k, x, z, y)?;
    Ok(named(is_atom, Atom::Middle { p, k, x, z, y }))
}
