ghost use Rattle.std.specs.Prelude.{◌≡◌, [], ◌∷◌, IfOk};
ghost use Rattle.shrink_pair.specs.Sessions.{outside_rule, undo_rule};

use proof_lines::{Rule, RuleName};
use rdf_terms::{Numbers, OutOfMemory};
use std::alloc::Global;

/// The same numbers.
pub(crate) fn copy_numbers(alloc: Global, numbers: &[u64]) -> Result<Numbers, OutOfMemory>
    ensures { IfOk result (λ made. made ≡ numbers.now) }
{
    Ok(Numbers::from_vec(Vec::from_slice(alloc, numbers)?))
}

/// The same rule.
pub(crate) fn copy_rule(alloc: Global, rule: &Rule) -> Result<Rule, OutOfMemory>
    ensures { IfOk result (λ made. made ≡ rule.now) }
{
    Ok(Rule {
        name: rule.name,
        numbers: copy_numbers(alloc, rule.numbers.as_slice())?,
    })
}

/// The rule that a candidate outside a pair of the chain is as in the data.
pub(crate) fn outside_rule(alloc: Global, pair: u64, candidate: u64) -> Result<Rule, OutOfMemory>
    ensures { IfOk result (λ made. made ≡ outside_rule pair candidate) }
{
    let mut numbers = Numbers::new(alloc);
    numbers.push(pair)?;
    numbers.push(candidate)?;
    Ok(Rule {
        name: RuleName::Outside,
        numbers,
    })
}

/// The rule that some candidate of a pair of the chain is as in the data.
pub(crate) fn undo_rule(alloc: Global, pair: u64) -> Result<Rule, OutOfMemory>
    ensures { IfOk result (λ made. made ≡ undo_rule pair) }
{
    let mut numbers = Numbers::new(alloc);
    numbers.push(pair)?;
    Ok(Rule {
        name: RuleName::Undo,
        numbers,
    })
}
