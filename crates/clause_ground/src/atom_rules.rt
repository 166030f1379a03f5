ghost use Rattle.std.specs.Prelude.{◌≡◌, IfOk, Some};
ghost use Rattle.clause_ground.specs.Needed.{rule_at, root};

use premise_rules::{Rule, RuleName};
use rdf_terms::{Numbers, OutOfMemory};
use repair_problem::Atom;
use std::alloc::Global;

/// The rule of this name and these numbers.
fn rule_of(alloc: Global, name: RuleName, numbers: &[u64]) -> Result<Rule, OutOfMemory>
    ensures name { IfOk result (λ q. q.name ≡ name) }
    ensures numbers { IfOk result (λ q. q.numbers ≡ numbers.now) }
{
    let numbers = Numbers::from_vec(Vec::from_slice(alloc, numbers)?);
    Ok(Rule { name, numbers })
}

/// The rule that a focus node of the shape conforms to it.
pub(crate) fn root(alloc: Global, s: u64, x: u64) -> Result<Rule, OutOfMemory>
    ensures { IfOk result (λ q. q ≡ root s x) }
{
    rule_of(alloc, RuleName::Root, &[s, x])
}

/// The rule of the clause of an atom at a place. Candidates have none.
pub(crate) fn rule_at(alloc: Global, atom: &Atom, place: u64) -> Result<Option<Rule>, OutOfMemory>
    ensures { IfOk result (λ o. o ≡ rule_at atom.now place) }
{
    let rule = match *atom {
        Atom::Triple { .. } => return Ok(None),
        Atom::Reach { p, x, y } => rule_of(alloc, RuleName::Reach, &[p, x, y, place])?,
        Atom::Level { p, k, x, y } => rule_of(alloc, RuleName::Level, &[p, k, x, y, place])?,
        Atom::Middle { p, k, x, z, y } => {
            rule_of(alloc, RuleName::Middle, &[p, k, x, z, y, place])?
        }
        Atom::Good { i, y } => rule_of(alloc, RuleName::Good, &[i, y, place])?,
        Atom::Marked { i, x, y } => rule_of(alloc, RuleName::Marked, &[i, x, y, place])?,
        Atom::Count { i, x, j, m } => rule_of(alloc, RuleName::Count, &[i, x, j, m, place])?,
        Atom::Differ { i, x, y } => rule_of(alloc, RuleName::Differ, &[i, x, y, place])?,
        Atom::Twin { i, x, y, z } => rule_of(alloc, RuleName::Twin, &[i, x, y, z, place])?,
        Atom::Holds { i, x } => rule_of(alloc, RuleName::Holds, &[i, x, place])?,
        Atom::Conforms { s, x } => rule_of(alloc, RuleName::Conforms, &[s, x, place])?,
        Atom::Target { s, x } => rule_of(alloc, RuleName::Target, &[s, x, place])?,
    };
    Ok(Some(rule))
}
