ghost use Rattle.std.specs.Prelude.{◌≡◌, ◌↔◌, ◌++◌, ◌∷◌, [], ◌&&◌, not, All, IfOk, IfErr, OnOk, IsTrue};
ghost use Rattle.shapes_graph.specs.Conformance.{Conforms};
ghost use Rattle.repair_problem.specs.Candidates.{edited_by};
ghost use Rattle.repair_problem.specs.Changes.{AreCandidates, ChangeBelow};
ghost use Rattle.proof_lines.specs.declared.proof.ProofLine.TheVariants as variant;
ghost use Rattle.premise_rules.specs.declared.clause.Clause.TheVariants.{Literals};
ghost use Rattle.premise_rules.specs.Documents.{no_lines, with_clause};
ghost use Rattle.premise_rules.specs.RuleClauses.{rule_clause};
ghost use Rattle.certificates.specs.Checks.{IsBelowLast};
ghost use Rattle.atom_numbers.specs.Numbers.{lines_of, AreOnce};
ghost use Rattle.certificates.specs.Checker.{IsReady, IsLineRefusal, IsChecked, IsPairRefusal};
ghost use Rattle.certificates.specs.Checker.{rule_refused, step_refused, kept_or_memory};
ghost use Rattle.certificates.specs.Checker.{pair_answer};

use crate::members::are_among;
use crate::refusal::LineRefusal;
use atom_numbers::{Atoms, number_clause};
use clause_store::ClauseStore;
use core_constraints::conforms;
use premise_rules::{PremiseRules, RuleRefusal};
use proof_lines::{Chain, ProofLine, Rule};
use rdf_terms::{OutOfMemory, Places};
use refute_check::{Marks, StepRefusal, check_step};
use repair_problem::{Literal, LiteralList, Problem};
use std::alloc::Global;

/// A step resolves the clauses of so many ids or more.
const FEWEST_IDS: usize = 2;

/// Whether each number is that of a candidate.
fn are_candidates(problem: &Problem, pair: &[u64]) -> bool
    ensures { IsTrue result ↔ AreCandidates problem.now pair.now }
{
    let count = problem.candidate_count() as u64;
    pair.iter().all(|t| *t < count)
}

/// Whether the first holds and the second doesn't.
fn is_first_alone(first: bool, second: bool) -> bool
    ensures { result ≡ (first && not second) }
{
    first && !second
}

/// Whether a pair is below another.
fn is_below(alloc: Global, pair: &[u64], before: &[u64]) -> Result<bool, OutOfMemory>
    ensures { IfOk result (λ b. IsTrue b ↔ ChangeBelow pair.now before.now) }
{
    let inside = are_among(alloc, pair, before)?;
    let all = are_among(alloc, before, pair)?;
    Ok(is_first_alone(inside, all))
}

/// Whether the pair is below the last one of the chain, if there is one.
fn is_below_last(alloc: Global, chain: &[Places], pair: &[u64]) -> Result<bool, OutOfMemory>
    ensures { IfOk result (λ b. IsTrue b ↔ IsBelowLast chain.now pair.now) }
{
    match chain.last() {
        Some(last) => is_below(alloc, pair, last.as_slice()),
        None => Ok(true),
    }
}

/// Whether the graph that the pair edits conforms.
fn conforms_edited(alloc: Global, problem: &Problem, pair: &Places) -> Result<bool, OutOfMemory>
    requires { AreCandidates problem.now pair.now }
    ensures { IfOk result (λ b. IsTrue b ↔ Conforms problem.now.shapes (edited_by problem.now pair.now)) }
{
    let edited = problem.edited_by(alloc, pair)?;
    conforms(alloc, problem.shapes(), &edited)
}

/// The same places.
fn copy_places(alloc: Global, places: &[u64]) -> Result<Places, OutOfMemory>
    ensures { IfOk result (λ made. made ≡ places.now) }
{
    Ok(Places::from_vec(Vec::from_slice(alloc, places)?))
}

/// Whether the pair is below the last one of the chain, and whether the graph that it edits conforms.
fn pair_tests(
    alloc: Global,
    problem: &Problem,
    chain: &[Places],
    pair: &Places,
) -> Result<(bool, bool), OutOfMemory>
    requires { AreCandidates problem.now pair.now }
    ensures below { IfOk result (λ r. IsTrue r.0 ↔ IsBelowLast chain.now pair.now) }
    ensures conforms { IfOk result (λ r. IsTrue r.1
        ↔ Conforms problem.now.shapes (edited_by problem.now pair.now)) }
{
    let numbers = pair.as_slice();
    let below = is_below_last(alloc, chain, numbers)?;
    let conforms = conforms_edited(alloc, problem, pair)?;
    Ok((below, conforms))
}

/// The answer for a pair of candidates.
fn pair_result(below: bool, conforms: bool) -> Result<(), LineRefusal>
    ensures { result ≡ pair_answer below conforms }
{
    if !below {
        return Err(LineRefusal::NotBelow);
    }
    if !conforms {
        return Err(LineRefusal::NotConforming);
    }
    Ok(())
}

/// Checks that a pair can stand below those of the chain.
fn judge_pair(
    alloc: Global,
    problem: &Problem,
    chain: &[Places],
    pair: &Places,
) -> Result<(), LineRefusal>
    ensures ok { OnOk result (AreCandidates problem.now pair.now × IsBelowLast chain.now pair.now
        × Conforms problem.now.shapes (edited_by problem.now pair.now)) }
    ensures err { IfErr result (λ e. IsPairRefusal problem.now chain.now pair.now e) }
{
    let numbers = pair.as_slice();
    if !are_candidates(problem, numbers) {
        return Err(LineRefusal::PairOutside);
    }
    match pair_tests(alloc, problem, chain, pair) {
        Ok(tests) => pair_result(tests.0, tests.1),
        Err(OutOfMemory) => Err(LineRefusal::OutOfMemory),
    }
}

/// Appends the pair to the chain.
fn push_pair(alloc: Global, chain: &mut Chain, pair: &Places) -> Result<(), OutOfMemory>
    ensures { OnOk result (chain.new ≡ chain.old ++ pair.now ∷ []) }
{
    let pair = copy_places(alloc, pair.as_slice())?;
    chain.push(pair)
}

/// Want of memory, as the refusal of a line.
fn line_result(kept: Result<(), OutOfMemory>) -> Result<(), LineRefusal>
    ensures { result ≡ kept_or_memory kept }
{
    match kept {
        Ok(()) => Ok(()),
        Err(OutOfMemory) => Err(LineRefusal::OutOfMemory),
    }
}

/// Why a line is refused whose rule gives no premise.
fn refused_rule(refusal: RuleRefusal) -> LineRefusal
    ensures { result ≡ rule_refused refusal }
{
    match refusal {
        RuleRefusal::OutOfRange => LineRefusal::BadRule,
        RuleRefusal::Tautology => LineRefusal::BadRule,
        RuleRefusal::OutOfMemory => LineRefusal::OutOfMemory,
    }
}

/// Why a line is refused whose step is refused.
fn refused_step(refusal: StepRefusal) -> LineRefusal
    ensures { result ≡ step_refused refusal }
{
    match refusal {
        StepRefusal::UnknownId { position: _ } => LineRefusal::BadStep,
        StepRefusal::NoSingleClash { position: _ } => LineRefusal::BadStep,
        StepRefusal::OutOfMemory => LineRefusal::OutOfMemory,
    }
}

/// The literals of the clause of a rule, with the pairs of the chain.
fn premise(
    rules: &mut PremiseRules<'_>,
    chain: &Chain,
    rule: &Rule,
) -> Result<LiteralList, LineRefusal>
    requires { All (AreCandidates rules.old) chain.now }
    ensures value { IfOk result (λ ls. rule_clause rules.old chain.now rule.now.name rule.now.numbers ≡ Literals ls) }
    ensures once { IfOk result AreOnce }
    ensures err { IfErr result (λ e. IsLineRefusal rules.old (lines_of chain.now [] []) (variant.Rule rule.now) e) }
    ensures same { rules.new ≡ rules.old }
{
    match rules.clause_of(chain, rule) {
        Ok(literals) => Ok(literals),
        Err(refusal) => Err(refused_rule(refusal)),
    }
}

/// What is kept of the lines of a proof that were checked: the pairs of the chain, and the clauses of the numbered
/// lines in a store, over the numbers of their atoms.
#[derive(Drop)]
pub(crate) struct Checker<'p, S> {
    alloc: Global,
    pub(crate) rules: PremiseRules<'p>,
    pub(crate) chain: Chain,
    atoms: Atoms,
    pub(crate) store: S,
    marks: Marks,
}

impl<'p, S: ClauseStore + Drop> Checker<'p, S> {
    /// No line was checked.
    pub(crate) fn new(
        alloc: Global,
        problem: &'p Problem,
        store: S,
    ) -> Result<Checker<'p, S>, OutOfMemory>
        requires { S.clauses store ≡ [] }
        ensures problem { IfOk result (λ c. c.rules ≡ problem.now) }
        ensures lines { IfOk result (λ c. lines_of c.chain c.atoms.keys (S.clauses c.store) ≡ no_lines) }
        ensures ready { IfOk result (λ c. IsReady c.rules c.chain c.atoms.keys (S.clauses c.store) c.marks) }
    {
        Ok(Checker {
            alloc,
            rules: PremiseRules::new(alloc, problem)?,
            chain: Chain::new(alloc),
            atoms: Atoms::new(alloc),
            store,
            marks: Marks::new(alloc),
        })
    }

    /// Checks a line below those that were checked, and keeps it.
    pub(crate) fn check_line(&mut self, line: &ProofLine) -> Result<(), LineRefusal>
        requires { IsReady self.old.rules self.old.chain self.old.atoms.keys (S.clauses self.old.store) self.old.marks }
        ensures checked { IsChecked self.old.rules
            (lines_of self.old.chain self.old.atoms.keys (S.clauses self.old.store)) line.now
            (lines_of self.new.chain self.new.atoms.keys (S.clauses self.new.store)) result }
        ensures ready { OnOk result (IsReady self.new.rules self.new.chain self.new.atoms.keys
            (S.clauses self.new.store) self.new.marks) }
        ensures same { self.new.rules ≡ self.old.rules }
    {
        match line {
            ProofLine::Chain(pair) => self.check_pair(pair),
            ProofLine::Rule(rule) => self.check_rule(rule),
            ProofLine::Step(ids) => self.check_ids(ids.as_slice()),
        }
    }

    fn check_pair(&mut self, pair: &Places) -> Result<(), LineRefusal>
        requires { IsReady self.old.rules self.old.chain self.old.atoms.keys (S.clauses self.old.store) self.old.marks }
        ensures checked { IsChecked self.old.rules
            (lines_of self.old.chain self.old.atoms.keys (S.clauses self.old.store)) (variant.Chain pair.now)
            (lines_of self.new.chain self.new.atoms.keys (S.clauses self.new.store)) result }
        ensures ready { OnOk result (IsReady self.new.rules self.new.chain self.new.atoms.keys
            (S.clauses self.new.store) self.new.marks) }
        ensures same { self.new.rules ≡ self.old.rules }
    {
        let problem = self.rules.problem();
        match judge_pair(self.alloc, problem, self.chain.as_slice(), pair) {
            Ok(()) => line_result(push_pair(self.alloc, &mut self.chain, pair)),
            Err(refusal) => Err(refusal),
        }
    }

    fn check_rule(&mut self, rule: &Rule) -> Result<(), LineRefusal>
        requires { IsReady self.old.rules self.old.chain self.old.atoms.keys (S.clauses self.old.store) self.old.marks }
        ensures checked { IsChecked self.old.rules
            (lines_of self.old.chain self.old.atoms.keys (S.clauses self.old.store)) (variant.Rule rule.now)
            (lines_of self.new.chain self.new.atoms.keys (S.clauses self.new.store)) result }
        ensures ready { OnOk result (IsReady self.new.rules self.new.chain self.new.atoms.keys
            (S.clauses self.new.store) self.new.marks) }
        ensures same { self.new.rules ≡ self.old.rules }
    {
        match premise(&mut self.rules, &self.chain, rule) {
            Ok(literals) => line_result(self.push_premise(literals.as_slice())),
            Err(refused) => Err(refused),
        }
    }

    /// Keeps the clause of a rule.
    fn push_premise(&mut self, literals: &[Literal]) -> Result<(), OutOfMemory>
        requires ready { IsReady self.old.rules self.old.chain self.old.atoms.keys (S.clauses self.old.store)
            self.old.marks }
        requires once { AreOnce literals.now }
        ensures lines { OnOk result (lines_of self.new.chain self.new.atoms.keys (S.clauses self.new.store)
            ≡ with_clause (lines_of self.old.chain self.old.atoms.keys (S.clauses self.old.store)) literals.now) }
        ensures ready { OnOk result (IsReady self.new.rules self.new.chain self.new.atoms.keys
            (S.clauses self.new.store) self.new.marks) }
        ensures same { self.new.rules ≡ self.old.rules }
    {
        let clause = number_clause(self.alloc, &mut self.atoms, literals)?;
        self.marks.reserve(self.atoms.len())?;
        self.store.push(clause.as_slice())?;
        Ok(())
    }

    fn check_ids(&mut self, ids: &[u64]) -> Result<(), LineRefusal>
        requires { IsReady self.old.rules self.old.chain self.old.atoms.keys (S.clauses self.old.store) self.old.marks }
        ensures checked { IsChecked self.old.rules
            (lines_of self.old.chain self.old.atoms.keys (S.clauses self.old.store)) (variant.Step ids.now)
            (lines_of self.new.chain self.new.atoms.keys (S.clauses self.new.store)) result }
        ensures ready { OnOk result (IsReady self.new.rules self.new.chain self.new.atoms.keys
            (S.clauses self.new.store) self.new.marks) }
        ensures same { self.new.rules ≡ self.old.rules }
    {
        if ids.len() < FEWEST_IDS {
            return Err(LineRefusal::BadStep);
        }
        match check_step(&mut self.store, &mut self.marks, ids) {
            Ok(_) => Ok(()),
            Err(refusal) => Err(refused_step(refusal)),
        }
    }
}
