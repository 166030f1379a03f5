use crate::atoms_text::{push_literals, push_rule};
use crate::case_text::Case;
use crate::counts::push_counts;
use crate::literals::literals_of;
use crate::question::Question;
use crate::refusal::CaseError;
use crate::setting::problem_of;
use clause_ground::{Ground, ground_problem};
use premise_rules::{Chain, Rule, RuleRefusal, clause_of};
use repair_problem::{Atom, Literal, Problem};
use std::alloc::Global;

/// The name of a case, and the answers to its questions.
pub fn answer_of(alloc: Global, case: &Case) -> Result<String, CaseError> {
    let name = &case.name;
    let mut out = format!(in alloc; "== {name}\n")?;
    let problem = problem_of(alloc, case)?;
    let ground = ground_problem(alloc, &problem)?;
    push_answers(
        alloc,
        &mut out,
        &problem,
        &ground,
        case.questions.as_slice(),
    )?;
    Ok(out)
}

/// Appends the answers to questions, in order.
fn push_answers(
    alloc: Global,
    out: &mut String,
    problem: &Problem,
    ground: &Ground,
    questions: &[Question],
) -> Result<(), CaseError> {
    for question in questions {
        match question {
            Question::Ground => push_ground(alloc, out, problem, ground)?,
            Question::Counts => push_counts(out, ground)?,
        }
    }
    Ok(())
}

/// Appends the lines of the premises, in order, and of the candidates that stand in none.
fn push_ground(
    alloc: Global,
    out: &mut String,
    problem: &Problem,
    ground: &Ground,
) -> Result<(), CaseError> {
    for r in 0..ground.rule_count() {
        let literals = literals_of(alloc, ground, ground.clause(r))?;
        push_premise(alloc, out, problem, ground.rule(r), literals.as_slice())?;
    }
    push_left(out, problem, ground)
}

/// Appends the line of a premise, and one more where its clause is another than that of its rule.
fn push_premise(
    alloc: Global,
    out: &mut String,
    problem: &Problem,
    rule: &Rule,
    literals: &[Literal],
) -> Result<(), CaseError> {
    push_rule(out, rule)?;
    push_literals(out, literals)?;
    match clause_of(alloc, problem, &Chain::new(alloc), rule) {
        Ok(wanted) if wanted.as_slice() == literals => {}
        Ok(wanted) => {
            out.push_str("the clause of the rule")?;
            push_literals(out, wanted.as_slice())?;
        }
        Err(RuleRefusal::OutOfMemory) => return Err(CaseError::OutOfMemory),
        Err(refusal) => write!(out, "the clause of the rule: {refusal}\n")?,
    }
    Ok(())
}

/// Appends the lines of the candidates that stand in no premise.
fn push_left(out: &mut String, problem: &Problem, ground: &Ground) -> Result<(), CaseError> {
    for t in 0..problem.candidate_count() as u64 {
        if ground.var_of(&Atom::Triple { t }).is_none() {
            write!(out, "triple {t}: in no clause\n")?;
        }
    }
    Ok(())
}
