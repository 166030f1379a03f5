//! The atoms of the paths of a problem, and which of them are true in an edited graph.

use path_levels::PossibleNodes;
use rdf_terms::{Graph, OutOfMemory};
use repair_problem::{Atom, Part, Parts, Problem};
use std::alloc::Global;
use std::collections::HashSet;

/// An atom of a path, with its parts.
#[derive(Drop)]
pub struct PathAtom {
    /// The atom.
    pub atom: Atom,
    /// What it comes down to.
    pub parts: Parts,
}

/// All atoms of the paths of the problem, by path, first node, last node, level and node between.
pub fn path_atoms(alloc: Global, problem: &Problem) -> Result<Vec<PathAtom>, OutOfMemory> {
    let mut nodes = PossibleNodes::new(alloc, problem)?;
    let mut atoms = Vec::new(alloc);
    for p in 0..problem.shapes().path_count() as u64 {
        push_atoms_of(&mut atoms, &mut nodes, p)?;
    }
    Ok(atoms)
}

/// How many numbers are tried of nodes and of levels: one more than there are.
fn tried_count(problem: &Problem) -> u64 {
    (problem.nodes().len() as u64).saturating_add(1)
}

/// Appends all atoms of a path.
fn push_atoms_of(
    atoms: &mut Vec<PathAtom>,
    nodes: &mut PossibleNodes<'_>,
    p: u64,
) -> Result<(), OutOfMemory> {
    let tried = tried_count(nodes.problem());
    for x in 0..tried {
        for y in 0..tried {
            push_if_atom(atoms, nodes, Atom::Reach { p, x, y })?;
            for k in 0..tried {
                push_if_atom(atoms, nodes, Atom::Level { p, k, x, y })?;
                push_middles(atoms, nodes, p, k, x, y)?;
            }
        }
    }
    Ok(())
}

/// Appends the middles of a path by way of each node.
fn push_middles(
    atoms: &mut Vec<PathAtom>,
    nodes: &mut PossibleNodes<'_>,
    p: u64,
    k: u64,
    x: u64,
    y: u64,
) -> Result<(), OutOfMemory> {
    for z in 0..tried_count(nodes.problem()) {
        push_if_atom(atoms, nodes, Atom::Middle { p, k, x, z, y })?;
    }
    Ok(())
}

/// Appends the atom with its parts, if the numbers name one.
fn push_if_atom(
    atoms: &mut Vec<PathAtom>,
    nodes: &mut PossibleNodes<'_>,
    atom: Atom,
) -> Result<(), OutOfMemory> {
    if let Some(parts) = nodes.path_parts(&atom)? {
        atoms.push(PathAtom { atom, parts })?;
    }
    Ok(())
}

/// Those of these atoms that are true in an edited graph, by their parts alone.
///
/// In each round those are added whose parts are known to be true. Each atom comes down to atoms below it, so there
/// are no more rounds than atoms.
pub fn true_atoms(
    alloc: Global,
    problem: &Problem,
    edited: &Graph,
    atoms: &[PathAtom],
) -> Result<HashSet<Atom>, OutOfMemory> {
    let mut known = HashSet::new(alloc);
    for _ in atoms {
        if !add_true_atoms(&mut known, problem, edited, atoms)? {
            break;
        }
    }
    Ok(known)
}

/// Adds the atoms that are true by what is known, and answers whether one of them is new.
fn add_true_atoms(
    known: &mut HashSet<Atom>,
    problem: &Problem,
    edited: &Graph,
    atoms: &[PathAtom],
) -> Result<bool, OutOfMemory> {
    let mut is_more = false;
    for it in atoms {
        if are_true(known, problem, edited, &it.parts) && known.insert(it.atom)? {
            is_more = true;
        }
    }
    Ok(is_more)
}

/// Whether all of the parts are known to be true, or any of them.
fn are_true(known: &HashSet<Atom>, problem: &Problem, edited: &Graph, parts: &Parts) -> bool {
    let mut list = parts.list.as_slice().iter();
    if parts.every {
        list.all(|part| is_true(known, problem, edited, part))
    } else {
        list.any(|part| is_true(known, problem, edited, part))
    }
}

/// Whether the part is known to be true.
fn is_true(known: &HashSet<Atom>, problem: &Problem, edited: &Graph, part: &Part) -> bool {
    match part {
        Part::Fixed(fixed) => *fixed,
        Part::Lit(literal) => is_known(known, problem, edited, &literal.atom) == literal.positive,
    }
}

/// Whether the atom is known to be true. That of a triple is known by the graph.
fn is_known(known: &HashSet<Atom>, problem: &Problem, edited: &Graph, atom: &Atom) -> bool {
    match *atom {
        Atom::Triple { t } => {
            let t = t as usize;
            t < problem.candidate_count() && edited.contains(problem.candidate(t))
        }
        _ => known.contains(atom),
    }
}
