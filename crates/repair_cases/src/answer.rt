ghost use Rattle.std.specs.Prelude.{IsTrue};
ghost use Rattle.repair_problem.specs.Changes.{AreCandidates};

use crate::case_text::Case;
use crate::parts_text::{push_atom, push_parts};
use crate::path_atoms::{path_atoms, true_atoms};
use crate::question::Question;
use crate::refusal::CaseError;
use crate::setting::problem_of;
use crate::terms_text::{push_term, push_triple};
use ntriples_io::write_graph;
use path_levels::{path_parts, possible};
use rdf_terms::{Graph, OutOfMemory, Places};
use repair_problem::{Atom, Problem};
use std::alloc::Global;

/// The name of a case, the candidates and nodes of its problem, and the answers to its questions.
pub fn answer_of(alloc: Global, case: &Case) -> Result<String, CaseError> {
    let name = &case.name;
    let mut out = format!(in alloc; "== {name}\n")?;
    let problem = problem_of(alloc, case)?;
    push_candidates(alloc, &mut out, &problem)?;
    push_nodes(alloc, &mut out, &problem)?;
    for question in &case.questions {
        push_answer(alloc, &mut out, &problem, question)?;
    }
    Ok(out)
}

/// Appends the lines of the candidates, each of which has to be found by its number.
fn push_candidates(alloc: Global, out: &mut String, problem: &Problem) -> Result<(), CaseError> {
    for t in 0..problem.candidate_count() {
        let triple = problem.candidate(t);
        let kind = if problem.in_data(t) { "data" } else { "offer" };
        let is_found = problem.candidate_of(triple) == Some(t);
        let found = if is_found { "" } else { " (not found)" };
        let words = format!(in alloc; "{kind} {t}{found}")?;
        push_triple(alloc, out, words.as_str(), triple)?;
    }
    Ok(())
}

/// Appends the lines of the nodes.
fn push_nodes(alloc: Global, out: &mut String, problem: &Problem) -> Result<(), CaseError> {
    let nodes = problem.nodes();
    for x in 0..nodes.len() {
        let words = format!(in alloc; "node {x}")?;
        push_term(alloc, out, words.as_str(), nodes.nth_term(x))?;
    }
    Ok(())
}

/// Appends the answer to a question.
fn push_answer(
    alloc: Global,
    out: &mut String,
    problem: &Problem,
    question: &Question,
) -> Result<(), CaseError> {
    match question {
        Question::Possible { p, x } => push_possible(alloc, out, problem, *p, *x),
        Question::Parts(atom) => push_parts_of(alloc, out, problem, atom),
        Question::Change(change) => push_edited(alloc, out, problem, change),
        Question::True(change) => push_true(alloc, out, problem, change),
        Question::All => push_all(alloc, out, problem),
    }
}

/// Appends the line of the nodes to which a path can lead.
fn push_possible(
    alloc: Global,
    out: &mut String,
    problem: &Problem,
    p: usize,
    x: usize,
) -> Result<(), CaseError> {
    write!(out, "possible {p} {x}:")?;
    let numbers = possible(alloc, problem, p, x)?;
    for y in numbers.as_slice() {
        write!(out, " {y}")?;
    }
    out.push('\n')?;
    Ok(())
}

/// Appends the line of the parts of an atom.
fn push_parts_of(
    alloc: Global,
    out: &mut String,
    problem: &Problem,
    atom: &Atom,
) -> Result<(), CaseError> {
    match path_parts(alloc, problem, atom)? {
        Some(parts) => push_parts(out, atom, &parts),
        None => {
            push_atom(out, atom)?;
            out.push_str(": no atom\n")?;
            Ok(())
        }
    }
}

/// Whether each number is of a candidate.
fn are_candidates(problem: &Problem, numbers: &[u64]) -> bool
    ensures { IsTrue result → AreCandidates problem.now numbers.now }
{
    let count = problem.candidate_count();
    numbers.iter().all(|t| (*t as usize) < count)
}

/// The edited data, if all numbers are of candidates.
fn edited_by(
    alloc: Global,
    problem: &Problem,
    change: &Places,
) -> Result<Option<Graph>, OutOfMemory> {
    if !are_candidates(problem, change.as_slice()) {
        return Ok(None);
    }
    Ok(Some(problem.edited_by(alloc, change)?))
}

/// Appends the edited data, if all numbers are of candidates.
fn push_edited(
    alloc: Global,
    out: &mut String,
    problem: &Problem,
    change: &Places,
) -> Result<(), CaseError> {
    match edited_by(alloc, problem, change)? {
        Some(edited) => {
            let bytes = write_graph(alloc, &edited)?;
            out.push_str("edited\n")?;
            out.push_str(str::from_utf8(bytes.as_slice()).map_err(|_| CaseError::NoText)?)?;
        }
        None => out.push_str("no candidate\n")?,
    }
    Ok(())
}

/// Appends the lines of the atoms of paths that are true in the edited data, if all numbers are of candidates.
fn push_true(
    alloc: Global,
    out: &mut String,
    problem: &Problem,
    change: &Places,
) -> Result<(), CaseError> {
    let Some(edited) = edited_by(alloc, problem, change)? else {
        out.push_str("no candidate\n")?;
        return Ok(());
    };
    let atoms = path_atoms(alloc, problem)?;
    let known = true_atoms(alloc, problem, &edited, atoms.as_slice())?;
    for it in &atoms {
        if known.contains(&it.atom) {
            out.push_str("true ")?;
            push_atom(out, &it.atom)?;
            out.push('\n')?;
        }
    }
    Ok(())
}

/// Appends the lines of all atoms of paths, with their parts.
fn push_all(alloc: Global, out: &mut String, problem: &Problem) -> Result<(), CaseError> {
    for it in &path_atoms(alloc, problem)? {
        push_parts(out, &it.atom, &it.parts)?;
    }
    Ok(())
}
