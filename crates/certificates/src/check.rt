ghost use Rattle.std.specs.Prelude.{◌≡◌, ◌↔◌, ◌<◌, ◌+◌, ◌^◌, [], All, IfOk, IfErr, OnOk, IsTrue, length};
ghost use Rattle.rdf_terms.specs.Graph.{of_list};
ghost use Rattle.premise_rules.specs.Documents.{no_lines, Leads, AnyStep, IsClaimed};
ghost use Rattle.certificates.specs.Checks.{AreChangesThere, IsVerdict, IsNotAccepted, FitsClaim};
ghost use Rattle.atom_numbers.specs.Numbers.{lines_of};
ghost use Rattle.certificates.specs.Checker.{refused_at, IsReady, IsRefusedLine, IsEnded};
ghost use Rattle.certificates.specs.Checker.{IsClaimChecked, claim_answer};
ghost use Rattle.repair_problem.specs.Changes.{AreCandidates};
ghost use Rattle.certificates.specs.Shown.{IsShown};

use crate::CheckRefusal;
use crate::changes::{FIRST_CHANGE, first_change_outside, is_pair_of};
use crate::checker::Checker;
use crate::refusal::LineRefusal;
use clause_store::{ClauseStore, PlainStore};
use proof_documents::DocumentText;
use proof_lines::{Claim, ProofLine};
use rdf_terms::{OutOfMemory, Places};
use refute_check::is_refuted;
use repair_problem::Problem;
use std::alloc::Global;

/// The refusal of a line of the proof, as that of the line of the document.
fn refusal_at(refusal: LineRefusal, line: u64) -> CheckRefusal
    ensures { result ≡ refused_at refusal line }
{
    match refusal {
        LineRefusal::PairOutside => CheckRefusal::PairOutside { line },
        LineRefusal::NotBelow => CheckRefusal::NotBelow { line },
        LineRefusal::NotConforming => CheckRefusal::NotConforming { line },
        LineRefusal::BadRule => CheckRefusal::BadRule { line },
        LineRefusal::BadStep => CheckRefusal::BadStep { line },
        LineRefusal::OutOfMemory => CheckRefusal::OutOfMemory,
    }
}

/// Checks the lines of a proof one after another. The first of them is this line of the document.
fn check_lines<S: ClauseStore + Drop>(
    checker: &mut Checker<'_, S>,
    first: u64,
    lines: &[ProofLine],
) -> Result<(), CheckRefusal>
    requires ready { IsReady checker.old.rules checker.old.chain checker.old.atoms.keys
        (S.clauses checker.old.store) checker.old.marks }
    requires none { lines_of checker.old.chain checker.old.atoms.keys (S.clauses checker.old.store) ≡ no_lines }
    requires fits { first + length lines.now < 2 ^ 64 }
    ensures leads { OnOk result (Leads checker.old.rules AnyStep no_lines lines.now
        (lines_of checker.new.chain checker.new.atoms.keys (S.clauses checker.new.store))) }
    ensures err { IfErr result (λ e. IsRefusedLine checker.old.rules lines.now first e) }
    ensures ready { OnOk result (IsReady checker.new.rules checker.new.chain checker.new.atoms.keys
        (S.clauses checker.new.store) checker.new.marks) }
    ensures same { checker.new.rules ≡ checker.old.rules }
{
    let mut number = first;
    'lines: for line in lines {
        match checker.check_line(line) {
            Ok(()) => {}
            Err(refusal) => return Err(refusal_at(refusal, number)),
        }
        number += 1;
    }
    Ok(())
}

/// Whether the last clause is empty, where the claim needs it.
fn is_done<S: ClauseStore>(store: &S, claim: Claim) -> bool
    ensures { IsTrue result ↔ IsEnded claim (S.clauses store.now) }
{
    claim == Claim::Spent || is_refuted(store)
}

/// Whether the last pair of the chain is the claimed one.
fn fits_pair(
    alloc: Global,
    problem: &Problem,
    chain: &[Places],
    text: &DocumentText,
) -> Result<bool, OutOfMemory>
    requires { All (AreCandidates problem.now) chain.now }
    ensures { IfOk result (λ b. IsTrue b
        ↔ IsClaimed problem.now (of_list text.now.adds) (of_list text.now.deletes) chain.now) }
{
    match chain.last() {
        Some(pair) => is_pair_of(alloc, problem, pair, text),
        None => Ok(false),
    }
}

/// Whether the pairs of the chain fit what the document claims.
fn fits_claim(
    alloc: Global,
    problem: &Problem,
    chain: &[Places],
    text: &DocumentText,
) -> Result<bool, OutOfMemory>
    requires { All (AreCandidates problem.now) chain.now }
    ensures { IfOk result (λ b. IsTrue b ↔ FitsClaim problem.now text.now text.now.proof.claim chain.now) }
{
    match text.proof.claim {
        Claim::Pair => fits_pair(alloc, problem, chain, text),
        Claim::NoPair => Ok(chain.is_empty()),
        Claim::Spent => Ok(true),
    }
}

/// The answer, where the pairs of the chain fit the claim, and the last clause is as the claim needs it.
fn claim_result(fits: bool, done: bool) -> Result<(), CheckRefusal>
    ensures { result ≡ claim_answer fits done }
{
    if !fits {
        return Err(CheckRefusal::WrongClaim);
    }
    if !done {
        return Err(CheckRefusal::NotEmpty);
    }
    Ok(())
}

/// Checks that what the lines of a proof lead to fits what the document claims.
fn check_claim<S: ClauseStore + Drop>(
    alloc: Global,
    checker: &Checker<'_, S>,
    text: &DocumentText,
) -> Result<(), CheckRefusal>
    requires { IsReady checker.now.rules checker.now.chain checker.now.atoms.keys
        (S.clauses checker.now.store) checker.now.marks }
    ensures { IsClaimChecked checker.now.rules text.now
        (lines_of checker.now.chain checker.now.atoms.keys (S.clauses checker.now.store)) result }
{
    match fits_claim(
        alloc,
        checker.rules.problem(),
        checker.chain.as_slice(),
        text,
    ) {
        Ok(fits) => claim_result(fits, is_done(&checker.store, text.proof.claim)),
        Err(OutOfMemory) => Err(CheckRefusal::OutOfMemory),
    }
}

/// Checks the lines of a document whose changes are all there, and its claim.
fn judge_lines<S: ClauseStore + Drop>(
    alloc: Global,
    text: &DocumentText,
    checker: &mut Checker<'_, S>,
) -> Result<(), CheckRefusal>
    requires ready { IsReady checker.old.rules checker.old.chain checker.old.atoms.keys
        (S.clauses checker.old.store) checker.old.marks }
    requires none { lines_of checker.old.chain checker.old.atoms.keys (S.clauses checker.old.store) ≡ no_lines }
    requires there { AreChangesThere checker.old.rules text.now }
    ensures { IsVerdict checker.old.rules text.now result }
{
    match check_lines(checker, first_proof_line(text), text.proof.lines.as_slice()) {
        Ok(()) => check_claim(alloc, checker, text),
        Err(refusal) => Err(refusal),
    }
}

/// Checks a document over a store without a clause.
fn judge<S: ClauseStore + Drop>(
    alloc: Global,
    problem: &Problem,
    text: &DocumentText,
    store: S,
) -> Result<(), CheckRefusal>
    requires { S.clauses store ≡ [] }
    ensures { IsVerdict problem.now text.now result }
{
    if let Some(line) = first_change_outside(problem, text) {
        return Err(CheckRefusal::PairOutside { line });
    }
    match Checker::new(alloc, problem, store) {
        Ok(mut checker) => judge_lines(alloc, text, &mut checker),
        Err(OutOfMemory) => Err(CheckRefusal::OutOfMemory),
    }
}

/// Checks a document over a store without a clause, as [`check_document`].
pub fn check_document_in<S: ClauseStore + Drop>(
    alloc: Global,
    problem: &Problem,
    text: &DocumentText,
    store: S,
) -> Result<(), CheckRefusal>
    requires { S.clauses store ≡ [] }
    ensures verdict { IsVerdict problem.now text.now result }
    ensures shown { OnOk result
        (IsShown problem.now (of_list text.now.adds) (of_list text.now.deletes) text.now.proof) }
    ensures not_accepted { IfErr result (λ e. IsNotAccepted problem.now text.now e) }
{
    // The clauses of these calls say that the shapes are in the profile, and that no offer is in the data.
    let _triples = problem.shapes().triples();
    let _offers = problem.offers();
    judge(alloc, problem, text, store)
}

/// The line of the document that is the first of its proof, behind those of the version, the claim and the triples.
fn first_proof_line(text: &DocumentText) -> u64
    ensures value { result ≡ 3 + (length text.now.adds + length text.now.deletes) }
    ensures fits { result + length text.now.proof.lines < 2 ^ 64 }
{
    let _lines = text.proof.lines.as_slice().len();
    FIRST_CHANGE + (text.adds.as_slice().len() + text.deletes.as_slice().len()) as u64
}

/// Checks that the proof of a document shows what the document claims. Then the claim is true: a claimed pair is
/// minimal, or no pair explains; and each pair of the chain explains.
///
/// The first reason why the document is not accepted is the answer: the first line that can't stand where it stands,
/// then `WrongClaim`, then `NotEmpty`.
pub fn check_document(
    alloc: Global,
    problem: &Problem,
    text: &DocumentText,
) -> Result<(), CheckRefusal>
    ensures verdict { IsVerdict problem.now text.now result }
    ensures shown { OnOk result
        (IsShown problem.now (of_list text.now.adds) (of_list text.now.deletes) text.now.proof) }
    ensures not_accepted { IfErr result (λ e. IsNotAccepted problem.now text.now e) }
{
    check_document_in(alloc, problem, text, PlainStore::new(alloc))
}
