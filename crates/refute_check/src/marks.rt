ghost use Rattle.std.specs.Prelude.{◌≡◌, max, OnOk, OnErr};

use clause_store::Lit;
use literal_signs::{Sign, grow};
use rdf_terms::OutOfMemory;
use std::alloc::Global;
use std::marker::Model;

/// Room in which steps are checked. Contracts see it as the number of variables for which it is reserved.
///
/// A set of literals is kept as a sign for each variable; it is empty between steps. The literals that a step touches
/// are listed beside it, so that a step costs the literals of its clauses and not the number of variables.
#[derive(Drop)]
pub struct Marks {
    pub(crate) alloc: Global,
    pub(crate) signs: Vec<Sign>,
    pub(crate) touched: Vec<Lit>,
}

impl Model for Marks {
    ghost use Rattle.std.specs.Prelude.{◌≡◌, ℕ, length};
    ghost use Rattle.clause_store.specs.Chained.{empty_set};
    ghost use Rattle.literal_signs.specs.Marked.{marked_set};

    ghost Value = { ℕ };

    ghost view = { λ m. length m.signs.items };

    ghost invariant = { λ m. marked_set m.signs.items ≡ empty_set };
}

impl Marks {
    /// Reserved for no variable. It takes no memory.
    pub fn new(alloc: Global) -> Marks
        ensures { result ≡ 0 }
    {
        Marks {
            alloc,
            signs: Vec::new(alloc),
            touched: Vec::new(alloc),
        }
    }

    /// Reserves for the variables below `vars`, and for no fewer than before. After `OutOfMemory` it is reserved for
    /// as many as before.
    pub fn reserve(&mut self, vars: usize) -> Result<(), OutOfMemory>
        ensures ok { OnOk result (self.new ≡ max self.old vars) }
        ensures err { OnErr result (self.new ≡ self.old) }
    {
        grow(&mut self.signs, vars)
    }
}
