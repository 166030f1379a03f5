ghost use Rattle.std.specs.Prelude.{All, IsTrue};
ghost use Rattle.repair_problem.specs.Changes.{AreCandidates};

use crate::all_atoms::push_all;
use crate::atoms_text::{push_atom, push_literals, push_parts, push_rule};
use crate::case_text::Case;
use crate::question::Question;
use crate::refusal::CaseError;
use crate::setting::problem_of;
use crate::terms_text::{push_term, push_triple};
use premise_rules::{
    Chain, Clause, PremiseRules, Rule, RuleName, RuleRefusal, clause_of, parts_of,
};
use rdf_terms::{Graph, Numbers, OutOfMemory, Places};
use repair_problem::{Atom, LiteralList, Parts, Problem};
use std::alloc::Global;

/// The name of a case, what has numbers in its problem, and the answers to its questions.
pub fn answer_of(alloc: Global, case: &Case) -> Result<String, CaseError> {
    let name = &case.name;
    let mut out = format!(in alloc; "== {name}\n")?;
    let problem = problem_of(alloc, case)?;
    push_numbered(alloc, &mut out, &problem)?;
    push_answers(alloc, &mut out, &problem, case.questions.as_slice())?;
    Ok(out)
}

/// Appends the lines of what has numbers in a problem.
fn push_numbered(alloc: Global, out: &mut String, problem: &Problem) -> Result<(), CaseError> {
    push_triples(alloc, out, "triple", problem.shapes().triples())?;
    push_shapes(alloc, out, problem)?;
    push_triples(alloc, out, "data", problem.present())?;
    push_triples(alloc, out, "offer", problem.offers())?;
    push_nodes(alloc, out, problem)
}

/// Appends the answers to questions, in order.
fn push_answers(
    alloc: Global,
    out: &mut String,
    problem: &Problem,
    questions: &[Question],
) -> Result<(), CaseError> {
    let mut rules = PremiseRules::new(alloc, problem)?;
    let mut chain = Chain::new(alloc);
    for question in questions {
        push_answer(alloc, out, &mut rules, &mut chain, question)?;
    }
    Ok(())
}

/// Appends the lines of the triples of a graph, by their places.
fn push_triples(
    alloc: Global,
    out: &mut String,
    kind: &str,
    graph: &Graph,
) -> Result<(), CaseError> {
    for place in 0..graph.len() {
        let words = format!(in alloc; "{kind} {place}")?;
        push_triple(alloc, out, words.as_str(), graph.nth(place))?;
    }
    Ok(())
}

/// Appends the lines of the shapes.
fn push_shapes(alloc: Global, out: &mut String, problem: &Problem) -> Result<(), CaseError> {
    let shapes = problem.shapes();
    for s in 0..shapes.shape_count() {
        let words = format!(in alloc; "shape {s}")?;
        push_term(alloc, out, words.as_str(), shapes.shape_term(s))?;
    }
    Ok(())
}

/// Appends the lines of the nodes.
fn push_nodes(alloc: Global, out: &mut String, problem: &Problem) -> Result<(), CaseError> {
    let nodes = problem.nodes();
    for x in 0..nodes.len() {
        let words = format!(in alloc; "node {x}")?;
        push_term(alloc, out, words.as_str(), nodes.nth_term(x))?;
    }
    Ok(())
}

/// Appends the answer to a question.
fn push_answer(
    alloc: Global,
    out: &mut String,
    rules: &mut PremiseRules<'_>,
    chain: &mut Chain,
    question: &Question,
) -> Result<(), CaseError> {
    match question {
        Question::Pair(pair) => Ok(chain.push(copy_of(alloc, pair.as_slice())?)?),
        Question::Rule(rule) => push_clause(alloc, out, rules.problem(), chain, rule),
        Question::Atom(atom) => {
            let parts = parts_of(alloc, rules.problem(), atom)?;
            push_atom_lines(alloc, out, rules, atom, parts.as_ref())
        }
        Question::All => push_all(alloc, out, rules),
    }
}

/// The same numbers.
fn copy_of(alloc: Global, numbers: &[u64]) -> Result<Numbers, OutOfMemory> {
    let mut copy = Numbers::new(alloc);
    for number in numbers {
        copy.push(*number)?;
    }
    Ok(copy)
}

/// Whether each number is of a candidate.
fn are_candidates(problem: &Problem, numbers: &[u64]) -> bool
    ensures { IsTrue result → AreCandidates problem.now numbers.now }
{
    let count = problem.candidate_count();
    numbers.iter().all(|t| (*t as usize) < count)
}

/// Whether each number of each pair is of a candidate.
fn are_pairs(problem: &Problem, chain: &[Places]) -> bool
    ensures { IsTrue result → All (AreCandidates problem.now) chain.now }
{
    chain
        .iter()
        .all(|pair| are_candidates(problem, pair.as_slice()))
}

/// Appends the line of the clause of a rule.
fn push_clause(
    alloc: Global,
    out: &mut String,
    problem: &Problem,
    chain: &Chain,
    rule: &Rule,
) -> Result<(), CaseError> {
    push_rule(out, rule)?;
    if !are_pairs(problem, chain.as_slice()) {
        out.push_str(": no candidate in the chain\n")?;
        return Ok(());
    }
    match clause_of(alloc, problem, chain, rule) {
        Ok(literals) => push_literals(out, literals.as_slice())?,
        Err(RuleRefusal::OutOfMemory) => return Err(CaseError::OutOfMemory),
        Err(refusal) => write!(out, ": {refusal}\n")?,
    }
    Ok(())
}

/// Appends the lines of an atom: these parts of it, if it has parts, and its clauses.
pub fn push_atom_lines(
    alloc: Global,
    out: &mut String,
    rules: &mut PremiseRules<'_>,
    atom: &Atom,
    parts: Option<&Parts>,
) -> Result<(), CaseError> {
    push_atom(out, atom)?;
    match parts {
        Some(parts) => push_parts(out, parts)?,
        None if rules.is_atom(atom)? => out.push_str(": an atom without parts\n")?,
        None => out.push_str(": no atom\n")?,
    }
    let clauses = rules.clauses_of(atom)?;
    for clause in clauses.as_slice() {
        match clause {
            Clause::Literals(literals) => push_literals(out, literals.as_slice())?,
            Clause::Tautology => out.push_str(": tautology\n")?,
            Clause::OutOfRange => out.push_str(": out of range\n")?,
        }
    }
    push_places(alloc, out, rules, atom, clauses.as_slice())
}

/// Tries the clause of each place by itself, and one place more, and appends a line where it is another one.
fn push_places(
    alloc: Global,
    out: &mut String,
    rules: &mut PremiseRules<'_>,
    atom: &Atom,
    clauses: &[Clause],
) -> Result<(), CaseError> {
    for place in 0..=clauses.len() {
        push_place(alloc, out, rules, atom, place as u64, clauses.get(place))?;
    }
    Ok(())
}

/// Appends a line where the clause of the place by itself is another one than that of all clauses.
fn push_place(
    alloc: Global,
    out: &mut String,
    rules: &mut PremiseRules<'_>,
    atom: &Atom,
    place: u64,
    clause: Option<&Clause>,
) -> Result<(), CaseError> {
    let Some(rule) = rule_of(alloc, atom, place)? else {
        return Ok(());
    };
    let no_chain = Chain::new(alloc);
    let answer = rules.clause_of(&no_chain, &rule);
    if matches!(answer, Err(RuleRefusal::OutOfMemory)) {
        return Err(CaseError::OutOfMemory);
    }
    if !is_answer(&answer, clause) {
        write!(out, "place {place} by itself gives another clause\n")?;
    }
    Ok(())
}

/// Whether the answer is this clause, and that there is none where there is no clause.
fn is_answer(answer: &Result<LiteralList, RuleRefusal>, clause: Option<&Clause>) -> bool {
    match (answer, clause) {
        (Ok(literals), Some(Clause::Literals(others))) => literals.as_slice() == others.as_slice(),
        (Err(RuleRefusal::Tautology), Some(Clause::Tautology)) => true,
        (Err(RuleRefusal::OutOfRange), None) => true,
        _ => false,
    }
}

/// The rule of an atom and a place, and `None` for a candidate, which has no rule.
fn rule_of(alloc: Global, atom: &Atom, place: u64) -> Result<Option<Rule>, OutOfMemory> {
    match *atom {
        Atom::Triple { .. } => Ok(None),
        Atom::Reach { p, x, y } => rule_with(alloc, RuleName::Reach, &[p, x, y, place]),
        Atom::Level { p, k, x, y } => rule_with(alloc, RuleName::Level, &[p, k, x, y, place]),
        Atom::Middle { p, k, x, z, y } => {
            rule_with(alloc, RuleName::Middle, &[p, k, x, z, y, place])
        }
        Atom::Good { i, y } => rule_with(alloc, RuleName::Good, &[i, y, place]),
        Atom::Marked { i, x, y } => rule_with(alloc, RuleName::Marked, &[i, x, y, place]),
        Atom::Count { i, x, j, m } => rule_with(alloc, RuleName::Count, &[i, x, j, m, place]),
        Atom::Differ { i, x, y } => rule_with(alloc, RuleName::Differ, &[i, x, y, place]),
        Atom::Twin { i, x, y, z } => rule_with(alloc, RuleName::Twin, &[i, x, y, z, place]),
        Atom::Holds { i, x } => rule_with(alloc, RuleName::Holds, &[i, x, place]),
        Atom::Conforms { s, x } => rule_with(alloc, RuleName::Conforms, &[s, x, place]),
        Atom::Target { s, x } => rule_with(alloc, RuleName::Target, &[s, x, place]),
    }
}

/// The rule of this name and these numbers.
fn rule_with(alloc: Global, name: RuleName, numbers: &[u64]) -> Result<Option<Rule>, OutOfMemory> {
    let numbers = copy_of(alloc, numbers)?;
    Ok(Some(Rule { name, numbers }))
}
