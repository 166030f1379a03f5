ghost use Rattle.std.specs.Prelude.{◌≡◌, IfOk, option_map};
ghost use Rattle.repair_problem.specs.declared.atom.Atom.TheVariants as variant;
ghost use Rattle.path_levels.specs.PathParts.{path_parts};
ghost use Rattle.atom_parts.specs.PartsTable.{parts_of};
ghost use Rattle.atom_parts.specs.Fixing.{fixing};
ghost use Rattle.atom_parts.specs.Sources.{listed_parts, listed_fixing};

use crate::counters::{is_needed, item_at};
use crate::good::good_parts;
use crate::holds::holds_parts;
use crate::marked::{differ_parts, is_value, marked_parts, twin_parts};
use crate::shape_parts::{conforms_parts, target_parts};
use crate::sources::{AtomParts, PartSource};
use crate::value_parts::{constraint_at, is_node};
use path_levels::PossibleNodes;
use rdf_terms::OutOfMemory;
use repair_problem::{Atom, Part};
use std::alloc::Global;

/// What fixes the truth of an atom. Contracts see it by `listed_fixing`.
#[derive(Drop)]
pub enum Fixing<'p> {
    /// The numbers name no atom.
    NoAtom,
    /// Nothing: it is a candidate.
    Free,
    /// Its parts.
    ByParts(AtomParts<'p>),
    /// Of a counter of these numbers: two counters over one item less, and the item.
    ByCount {
        i: u64,
        x: u64,
        j: u64,
        m: u64,
        item: Part,
    },
}

/// The parts of a node that passes a constraint.
fn parts_of_good<'p>(
    alloc: Global,
    nodes: &mut PossibleNodes<'p>,
    i: u64,
    y: u64,
) -> Result<Option<AtomParts<'p>>, OutOfMemory>
    ensures value { IfOk result (λ o. option_map listed_parts o ≡ parts_of nodes.old (variant.Good i y)) }
    ensures same { nodes.new ≡ nodes.old }
{
    let problem = nodes.problem();
    match constraint_at(problem, i) {
        Some(constraint) if is_node(problem, y) => {
            good_parts(alloc, nodes, i, y, &constraint.kind)
        }
        _ => Ok(None),
    }
}

/// The parts of a value node that counts for or against a constraint.
fn parts_of_marked<'p>(
    alloc: Global,
    nodes: &mut PossibleNodes<'p>,
    i: u64,
    x: u64,
    y: u64,
) -> Result<Option<AtomParts<'p>>, OutOfMemory>
    ensures value { IfOk result (λ o. option_map listed_parts o ≡ parts_of nodes.old (variant.Marked i x y)) }
    ensures same { nodes.new ≡ nodes.old }
{
    let problem = nodes.problem();
    match constraint_at(problem, i) {
        Some(constraint) if is_node(problem, x) && is_node(problem, y) => {
            if !is_value(alloc, nodes, constraint.shape, x, y)? {
                return Ok(None);
            }
            marked_parts(alloc, nodes, i, x, y, constraint)
        }
        _ => Ok(None),
    }
}

/// The parts of an object that is no value node.
fn parts_of_differ<'p>(
    alloc: Global,
    nodes: &mut PossibleNodes<'p>,
    i: u64,
    x: u64,
    y: u64,
) -> Result<Option<AtomParts<'p>>, OutOfMemory>
    ensures value { IfOk result (λ o. option_map listed_parts o ≡ parts_of nodes.old (variant.Differ i x y)) }
    ensures same { nodes.new ≡ nodes.old }
{
    let problem = nodes.problem();
    match constraint_at(problem, i) {
        Some(constraint) if is_node(problem, x) && is_node(problem, y) => {
            differ_parts(alloc, nodes, x, y, constraint)
        }
        _ => Ok(None),
    }
}

/// The parts of two value nodes with the same language tag.
fn parts_of_twin<'p>(
    alloc: Global,
    nodes: &mut PossibleNodes<'p>,
    i: u64,
    x: u64,
    y: u64,
    z: u64,
) -> Result<Option<AtomParts<'p>>, OutOfMemory>
    ensures value { IfOk result (λ o. option_map listed_parts o ≡ parts_of nodes.old (variant.Twin i x y z)) }
    ensures same { nodes.new ≡ nodes.old }
{
    let problem = nodes.problem();
    let are_nodes = is_node(problem, x) && is_node(problem, y) && is_node(problem, z);
    match constraint_at(problem, i) {
        Some(constraint) if are_nodes => twin_parts(alloc, nodes, x, y, z, constraint),
        _ => Ok(None),
    }
}

/// The parts of a constraint that holds for a node.
fn parts_of_holds<'p>(
    alloc: Global,
    nodes: &mut PossibleNodes<'p>,
    i: u64,
    x: u64,
) -> Result<Option<AtomParts<'p>>, OutOfMemory>
    ensures value { IfOk result (λ o. option_map listed_parts o ≡ parts_of nodes.old (variant.Holds i x)) }
    ensures same { nodes.new ≡ nodes.old }
{
    let problem = nodes.problem();
    match constraint_at(problem, i) {
        Some(constraint) if is_node(problem, x) => {
            Ok(Some(holds_parts(alloc, nodes, i, x, constraint)?))
        }
        _ => Ok(None),
    }
}

/// The parts of an atom of a path.
fn parts_of_path<'p>(
    nodes: &mut PossibleNodes<'p>,
    atom: &Atom,
) -> Result<Option<AtomParts<'p>>, OutOfMemory>
    ensures value { IfOk result (λ o. option_map listed_parts o ≡ path_parts nodes.old atom.now) }
    ensures same { nodes.new ≡ nodes.old }
{
    match nodes.path_parts(atom)? {
        Some(parts) => Ok(Some(AtomParts {
            every: parts.every,
            source: PartSource::Listed(parts.list),
        })),
        None => Ok(None),
    }
}

/// The parts of an atom. There are none where the numbers name no atom, nor of candidates and counters.
pub(crate) fn source_of<'p>(
    alloc: Global,
    nodes: &mut PossibleNodes<'p>,
    atom: &Atom,
) -> Result<Option<AtomParts<'p>>, OutOfMemory>
    ensures value { IfOk result (λ o. option_map listed_parts o ≡ parts_of nodes.old atom.now) }
    ensures same { nodes.new ≡ nodes.old }
{
    let problem = nodes.problem();
    match *atom {
        Atom::Triple { .. } | Atom::Count { .. } => Ok(None),
        Atom::Reach { .. } | Atom::Level { .. } | Atom::Middle { .. } => parts_of_path(nodes, atom),
        Atom::Good { i, y } => parts_of_good(alloc, nodes, i, y),
        Atom::Marked { i, x, y } => parts_of_marked(alloc, nodes, i, x, y),
        Atom::Differ { i, x, y } => parts_of_differ(alloc, nodes, i, x, y),
        Atom::Twin { i, x, y, z } => parts_of_twin(alloc, nodes, i, x, y, z),
        Atom::Holds { i, x } => parts_of_holds(alloc, nodes, i, x),
        Atom::Conforms { s, x } => {
            if is_node(problem, x) {
                Ok(conforms_parts(alloc, problem, s, x))
            } else {
                Ok(None)
            }
        }
        Atom::Target { s, x } => {
            if is_node(problem, x) {
                target_parts(alloc, nodes, s, x)
            } else {
                Ok(None)
            }
        }
    }
}

/// What fixes a counter.
fn fixing_of_count<'p>(
    alloc: Global,
    nodes: &mut PossibleNodes<'p>,
    i: u64,
    x: u64,
    j: u64,
    m: u64,
) -> Result<Fixing<'p>, OutOfMemory>
    ensures value { IfOk result (λ f. listed_fixing f ≡ fixing nodes.old (variant.Count i x j m)) }
    ensures same { nodes.new ≡ nodes.old }
{
    let problem = nodes.problem();
    let Some(constraint) = constraint_at(problem, i) else {
        return Ok(Fixing::NoAtom);
    };
    if !is_node(problem, x) || m == 0 || j < m || !is_needed(&constraint.kind, m) {
        return Ok(Fixing::NoAtom);
    }
    match item_at(alloc, nodes, i, x, constraint, j - 1)? {
        Some(item) => Ok(Fixing::ByCount { i, x, j, m, item }),
        None => Ok(Fixing::NoAtom),
    }
}

/// What fixes an atom.
pub(crate) fn fixing_of<'p>(
    alloc: Global,
    nodes: &mut PossibleNodes<'p>,
    atom: &Atom,
) -> Result<Fixing<'p>, OutOfMemory>
    ensures value { IfOk result (λ f. listed_fixing f ≡ fixing nodes.old atom.now) }
    ensures same { nodes.new ≡ nodes.old }
{
    match *atom {
        Atom::Triple { t } => {
            if t < nodes.problem().candidate_count() as u64 {
                Ok(Fixing::Free)
            } else {
                Ok(Fixing::NoAtom)
            }
        }
        Atom::Count { i, x, j, m } => fixing_of_count(alloc, nodes, i, x, j, m),
        _ => match source_of(alloc, nodes, atom)? {
            Some(parts) => Ok(Fixing::ByParts(parts)),
            None => Ok(Fixing::NoAtom),
        },
    }
}
