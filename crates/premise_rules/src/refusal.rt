ghost use Rattle.std.specs.Prelude.{◌≡◌};
ghost use Rattle.premise_rules.specs.declared.refusal.RuleRefusal.TheVariants.{OutOfMemory as Memory};

use rdf_terms::OutOfMemory;
use thiserror::Error;

/// Why a rule gives no premise.
#[derive(Clone, Copy, Debug, PartialEq, Eq, Error)]
pub enum RuleRefusal {
    /// Its numbers name no atom and place, no shape and node, no pair of the chain, or no candidate that isn't in it, or
    /// there are too many of them or too few.
    #[error("the numbers of the rule are out of range")]
    OutOfRange,
    /// Its clause has a fixed true part, or an atom in both signs.
    #[error("the clause of the rule is a tautology")]
    Tautology,
    /// Memory could not be had. It says nothing of the rule.
    #[error("out of memory")]
    OutOfMemory,
}

impl From<OutOfMemory> for RuleRefusal {
    ghost from_gives = { λ _ e. e ≡ Memory };

    fn from(_: OutOfMemory) -> RuleRefusal {
        RuleRefusal::OutOfMemory
    }
}
