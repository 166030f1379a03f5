ghost use Rattle.std.specs.Prelude.{◌≡◌, IfOk, length, nat_eq};
ghost use Rattle.std.specs.List.{list_any};
ghost use Rattle.std.specs.List.Sorted.{IsStrictlyIncreasing};

use rdf_terms::OutOfMemory;
use std::alloc::Global;
use std::marker::Model;
use std::rc::Rc;

/// Numbers of nodes, ascending and each once. It shares them with its copies. Contracts see the list.
#[derive(Drop)]
pub struct NodeNumbers {
    numbers: Rc<Vec<u64>>,
}

impl Model for NodeNumbers {
    ghost use Rattle.std.specs.Prelude.{List, ℕ};
    ghost use Rattle.std.specs.List.Sorted.{IsStrictlyIncreasing};

    ghost Value = { List ℕ };

    ghost view = { λ n. n.numbers.value.items };

    ghost invariant = { λ n. IsStrictlyIncreasing n.numbers.value.items };
}

impl NodeNumbers {
    /// The numbers of a `Vec`, which are moved and not copied. It takes memory for the count of its copies.
    pub(crate) fn from_vec(alloc: Global, numbers: Vec<u64>) -> Result<NodeNumbers, OutOfMemory>
        requires { IsStrictlyIncreasing numbers.items }
        ensures { IfOk result (λ n. n ≡ numbers.items) }
    {
        Ok(NodeNumbers {
            numbers: Rc::new(alloc, numbers)?,
        })
    }

    /// The numbers, in order. It takes no memory.
    pub fn as_slice(&self) -> &[u64]
        ensures { result.now ≡ self.now }
    {
        self.numbers.as_ref().as_slice()
    }

    /// How many there are.
    pub fn len(&self) -> u64
        ensures { result ≡ length self.now }
    {
        self.as_slice().len() as u64
    }

    /// Whether it is one of the numbers.
    pub fn has(&self, number: u64) -> bool
        ensures { result ≡ list_any (λ z. nat_eq number z) self.now }
    {
        // By this the invariant is at hand: the numbers ascend.
        let _numbers = &self.numbers;
        self.as_slice().binary_search(&number).is_ok()
    }

    /// The same numbers, which are shared. It takes no memory: `OutOfMemory` comes where no more copies can be counted.
    pub fn copy(&self) -> Result<NodeNumbers, OutOfMemory>
        ensures { IfOk result (λ n. n ≡ self.now) }
    {
        Ok(NodeNumbers {
            numbers: self.numbers.clone()?,
        })
    }
}
