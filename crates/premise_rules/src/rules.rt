ghost use Rattle.std.specs.Prelude.{◌≡◌, ◌≢◌, ◌↔◌, All, IfOk, IfSome, IsTrue};
ghost use Rattle.rdf_terms.specs.Graph.{Graph};
ghost use Rattle.repair_problem.specs.Setting.{IsEdit};
ghost use Rattle.repair_problem.specs.Meaning.{Means};
ghost use Rattle.repair_problem.specs.PartMeaning.{PartsMean};
ghost use Rattle.atom_parts.specs.PartsTable.{parts_of};
ghost use Rattle.atom_parts.specs.Fixing.{NoAtom, fixing};
ghost use Rattle.repair_problem.specs.Changes.{AreCandidates};
ghost use Rattle.premise_rules.specs.PlaceClauses.{clauses_of};
ghost use Rattle.premise_rules.specs.RuleClauses.{rule_clause, Answers};
ghost use Rattle.premise_rules.specs.Premises.{IsPremise};

use crate::place_clauses::{all_clauses, finish_clause};
use crate::rule_parts::rule_parts;
use crate::{Chain, Clause, ClauseList, Rule, RuleRefusal};
use atom_parts::AtomTable;
use rdf_terms::{OutOfMemory, Places};
use repair_problem::{Atom, LiteralList, Parts, Problem};
use std::alloc::Global;
use std::marker::Model;

/// What is answered of a clause.
fn answer(clause: Clause) -> Result<LiteralList, RuleRefusal>
    ensures { Answers clause result }
{
    match clause {
        Clause::Literals(literals) => Ok(literals),
        Clause::Tautology => Err(RuleRefusal::Tautology),
        Clause::OutOfRange => Err(RuleRefusal::OutOfRange),
    }
}

/// The clause of a rule, with the pairs of the chain.
fn clause_by_parts(
    alloc: Global,
    atoms: &mut AtomTable<'_>,
    chain: &[Places],
    rule: &Rule,
) -> Result<Clause, OutOfMemory>
    ensures value { IfOk result (λ c. c ≡ rule_clause atoms.old chain.now rule.now.name rule.now.numbers) }
    ensures same { atoms.new ≡ atoms.old }
{
    let parts = rule_parts(alloc, atoms, chain, rule)?;
    finish_clause(alloc, parts)
}

/// The literals of the clause of a rule, or why there is none.
fn rule_answer(
    alloc: Global,
    atoms: &mut AtomTable<'_>,
    chain: &[Places],
    rule: &Rule,
) -> Result<LiteralList, RuleRefusal>
    ensures value { Answers (rule_clause atoms.old chain.now rule.now.name rule.now.numbers) result }
    ensures same { atoms.new ≡ atoms.old }
{
    match clause_by_parts(alloc, atoms, chain, rule) {
        Ok(clause) => answer(clause),
        Err(OutOfMemory) => Err(RuleRefusal::OutOfMemory),
    }
}

/// The rules of a repair problem, which give the clauses of premises. Contracts see the problem.
///
/// What is found of the paths of the problem is kept, so what asks for many rules keeps one of these.
#[derive(Drop)]
pub struct PremiseRules<'p> {
    alloc: Global,
    atoms: AtomTable<'p>,
}

impl<'p> Model for PremiseRules<'p> {
    ghost use Rattle.repair_problem.specs.Setting.{Setting, code};

    ghost Value = { Setting };

    ghost coded = { code };

    ghost view = { λ r. r.atoms };
}

impl<'p> PremiseRules<'p> {
    /// The rules of the problem, none of which has been asked for yet.
    pub fn new(alloc: Global, problem: &'p Problem) -> Result<PremiseRules<'p>, OutOfMemory>
        ensures { IfOk result (λ r. r ≡ problem.now) }
    {
        Ok(PremiseRules {
            alloc,
            atoms: AtomTable::new(alloc, problem)?,
        })
    }

    /// The problem.
    pub fn problem(&self) -> &'p Problem
        ensures { result.now ≡ self.now }
    {
        self.atoms.problem()
    }

    /// Whether the numbers name an atom.
    pub fn is_atom(&mut self, atom: &Atom) -> Result<bool, OutOfMemory>
        ensures value { IfOk result (λ b. IsTrue b ↔ (fixing self.old atom.now ≢ NoAtom)) }
        ensures same { self.new ≡ self.old }
    {
        self.atoms.is_atom(atom)
    }

    /// The parts of an atom, as [`parts_of`](crate::parts_of).
    pub fn parts_of(&mut self, atom: &Atom) -> Result<Option<Parts>, OutOfMemory>
        ensures value { IfOk result (λ o. o ≡ parts_of self.old atom.now) }
        ensures means { IfOk result (λ o. IfSome o (λ parts. (g : Graph) → IsEdit self.old g
            → Means self.old g atom.now ↔ PartsMean (Means self.old g) parts)) }
        ensures same { self.new ≡ self.old }
    {
        self.atoms.parts_of(atom)
    }

    /// The clauses of an atom, in the order of their places, by one look at what fixes it. There is none where the
    /// numbers name no atom, nor of candidates.
    pub fn clauses_of(&mut self, atom: &Atom) -> Result<ClauseList, OutOfMemory>
        ensures value { IfOk result (λ clauses. clauses ≡ clauses_of self.old atom.now) }
        ensures same { self.new ≡ self.old }
    {
        let fixing = self.atoms.fixing(atom)?;
        all_clauses(self.alloc, *atom, &fixing)
    }

    /// The distinct literals of the clause of a rule, in the order of its parts. The clause of a rule of atoms is true
    /// of every edited graph, that of `Root` of each that conforms, of `Outside` of each change within the pair of the
    /// chain, and of `Undo` of each change below it.
    ///
    /// Each pair of the chain is of candidates. `OutOfRange` comes exactly where the numbers name no atom and place, no
    /// shape and node, no pair of the chain, or no candidate that isn't in it, or are too many or too few; `Tautology`
    /// exactly where the clause has a fixed true part, or an atom in both signs.
    pub fn clause_of(&mut self, chain: &Chain, rule: &Rule) -> Result<LiteralList, RuleRefusal>
        requires { All (AreCandidates self.old) chain.now }
        ensures value { Answers (rule_clause self.old chain.now rule.now.name rule.now.numbers) result }
        ensures holds { IfOk result (λ ls. IsPremise self.old chain.now rule.now.name rule.now.numbers ls) }
        ensures same { self.new ≡ self.old }
    {
        let problem = self.problem();
        let shapes = problem.shapes();
        // The clauses of these calls say that the shapes are in the profile, and that no offer is in the data.
        let _triples = shapes.triples();
        let _offers = problem.offers();
        rule_answer(self.alloc, &mut self.atoms, chain.as_slice(), rule)
    }
}

/// The distinct literals of the clause of a rule, and of which edited graphs it is true, as
/// [`clause_of`](PremiseRules::clause_of). It numbers the full graph anew: what asks for many keeps a
/// [`PremiseRules`].
pub fn clause_of(
    alloc: Global,
    problem: &Problem,
    chain: &Chain,
    rule: &Rule,
) -> Result<LiteralList, RuleRefusal>
    requires { All (AreCandidates problem.now) chain.now }
    ensures value { Answers (rule_clause problem.now chain.now rule.now.name rule.now.numbers) result }
    ensures holds { IfOk result (λ ls. IsPremise problem.now chain.now rule.now.name rule.now.numbers ls) }
{
    match PremiseRules::new(alloc, problem) {
        Ok(mut rules) => rules.clause_of(chain, rule),
        Err(OutOfMemory) => Err(RuleRefusal::OutOfMemory),
    }
}
