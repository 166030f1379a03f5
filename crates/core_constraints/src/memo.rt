ghost use Rattle.std.specs.Prelude.{◌≡◌, ◌⊎◌, ℕ, Bool, Some, None, OnOk, nat_eq, option_copied};
ghost use Rattle.std.specs.HashMap.{get};
ghost use Rattle.rdf_terms.specs.Nodes.{Nodes as TermSet};
ghost use Rattle.core_constraints.specs.declared.memo.Validation.{Validation as V};
ghost use Rattle.core_constraints.specs.Findings.{same_validation};

use rdf_terms::{Nodes, OutOfMemory};
use std::alloc::Global;
use std::collections::HashMap;

/// A node that is validated against a shape, by their numbers (SHACL 2017, section 3.4).
#[derive(Clone, Copy, PartialEq, Eq, Hash)]
pub(crate) struct Validation {
    pub(crate) shape: usize,
    pub(crate) node: usize,
}

/// What was found of shapes and nodes, and of classes.
#[derive(Drop)]
pub(crate) struct Memo {
    verdicts: HashMap<Validation, bool>,
    classes: HashMap<usize, Nodes>,
}

impl Memo {
    /// Where nothing was found yet.
    pub(crate) fn new(alloc: Global) -> Memo
        ensures verdicts { (v : V) → get same_validation result.verdicts v ≡ None }
        ensures classes { (c : ℕ) → get nat_eq result.classes c ≡ None }
    {
        Memo {
            verdicts: HashMap::new(alloc),
            classes: HashMap::new(alloc),
        }
    }

    /// Whether the node conforms to the shape, if that was found.
    pub(crate) fn verdict(&self, validation: Validation) -> Option<bool>
        ensures { result ≡ get same_validation self.now.verdicts validation }
    {
        self.verdicts.get(&validation).copied()
    }

    /// Notes whether the node conforms to the shape.
    pub(crate) fn note_verdict(
        &mut self,
        validation: Validation,
        verdict: bool,
    ) -> Result<(), OutOfMemory>
        ensures verdicts { (v : V) (b : Bool) → get same_validation self.new.verdicts v ≡ Some b
            → (get same_validation self.old.verdicts v ≡ Some b) ⊎ ((v ≡ validation) × (b ≡ verdict)) }
        ensures noted { OnOk result (get same_validation self.new.verdicts validation ≡ Some verdict) }
        ensures classes { self.new.classes ≡ self.old.classes }
    {
        self.verdicts.insert(validation, verdict)?;
        Ok(())
    }

    /// The SHACL subclasses of the class of this number, if they were found.
    pub(crate) fn subclasses(&self, class: usize) -> Option<&Nodes>
        ensures { option_copied result ≡ get nat_eq self.now.classes class }
    {
        self.classes.get(&class)
    }

    /// Notes the SHACL subclasses of the class of this number.
    pub(crate) fn note_subclasses(
        &mut self,
        class: usize,
        subclasses: Nodes,
    ) -> Result<(), OutOfMemory>
        ensures classes { (c : ℕ) (ns : TermSet) → get nat_eq self.new.classes c ≡ Some ns
            → (get nat_eq self.old.classes c ≡ Some ns) ⊎ ((c ≡ class) × (ns ≡ subclasses)) }
        ensures noted { OnOk result (get nat_eq self.new.classes class ≡ Some subclasses) }
        ensures verdicts { self.new.verdicts ≡ self.old.verdicts }
    {
        self.classes.insert(class, subclasses)?;
        Ok(())
    }
}
