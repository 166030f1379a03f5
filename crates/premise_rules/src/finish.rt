ghost use Rattle.std.specs.Prelude.{◌≡◌, [], IfOk, IsTrue, Some, not};
ghost use Rattle.count_encode.specs.PartTruth.{opposite};
ghost use Rattle.std.specs.HashMap.{get};
ghost use Rattle.premise_rules.specs.Literals.{same_atom, among, finished};
ghost use Rattle.premise_rules.specs.LiteralSets.{AreSigns, added, fits, with_part};

use crate::Clause;
use rdf_terms::OutOfMemory;
use repair_problem::{Atom, Literal, LiteralList, Part};
use std::alloc::Global;
use std::collections::HashMap;

/// The literals of a clause so far, each once, and the signs of their atoms.
#[derive(Drop)]
struct LiteralSet {
    list: LiteralList,
    signs: HashMap<Atom, bool>,
}

impl LiteralSet {
    /// No literals.
    fn new(alloc: Global) -> LiteralSet
        ensures list { result.list ≡ [] }
        ensures signs { AreSigns result.list (λ a. get same_atom result.signs a) }
    {
        LiteralSet {
            list: LiteralList::new(alloc),
            signs: HashMap::new(alloc),
        }
    }

    /// Adds a literal, if it isn't there. It answers whether its atom is not there in the other sign.
    fn add_literal(&mut self, literal: Literal) -> Result<bool, OutOfMemory>
        requires { AreSigns self.old.list (λ a. get same_atom self.old.signs a) }
        ensures value { IfOk result (λ b. b ≡ not (among self.old.list (opposite literal))) }
        ensures list { IfOk result (λ b. IsTrue b → self.new.list ≡ added self.old.list literal) }
        ensures signs { IfOk result (λ b. AreSigns self.new.list (λ a. get same_atom self.new.signs a)) }
    {
        match self.signs.get(&literal.atom) {
            Some(sign) => Ok(*sign == literal.positive),
            None => {
                self.list.push(literal)?;
                self.signs.insert(literal.atom, literal.positive)?;
                Ok(true)
            }
        }
    }

    /// Adds the literal of a part, if it is one. It answers whether the clause is no tautology by this part.
    fn add(&mut self, part: Part) -> Result<bool, OutOfMemory>
        requires { AreSigns self.old.list (λ a. get same_atom self.old.signs a) }
        ensures value { IfOk result (λ b. b ≡ fits self.old.list part) }
        ensures list { IfOk result (λ b. IsTrue b → self.new.list ≡ with_part self.old.list part) }
        ensures signs { IfOk result (λ b. AreSigns self.new.list (λ a. get same_atom self.new.signs a)) }
    {
        match part {
            Part::Fixed(value) => Ok(!value),
            Part::Lit(literal) => self.add_literal(literal),
        }
    }
}

/// The clause of these parts: their literals, each where it stands first, unless it is a tautology. It costs as many
/// steps as there are parts.
pub(crate) fn finish(alloc: Global, parts: &[Part]) -> Result<Clause, OutOfMemory>
    ensures { IfOk result (λ c. c ≡ finished (Some parts.now)) }
{
    let mut literals = LiteralSet::new(alloc);
    'parts: for part in parts {
        let fits = literals.add(*part)?;
        if !fits {
            return Ok(Clause::Tautology);
        }
    }
    let LiteralSet { list, signs: _ } = literals;
    Ok(Clause::Literals(list))
}
