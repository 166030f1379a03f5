ghost use Rattle.std.specs.Prelude.{◌≡◌, [], ◌∷◌, ◌++◌, OnOk, OnErr};

use crate::{OutOfMemory, Term, Triple};
use std::alloc::Global;
use std::marker::Model;

/// A list that grows at its end. Contracts see it as the list of its items.
#[derive(Drop)]
pub struct Items<T> {
    items: Vec<T>,
}

/// A list of bytes.
pub type Bytes = Items<u8>;

/// A list of places in a table.
pub type Places = Items<u64>;

/// A list of numbers.
pub type Numbers = Items<u64>;

/// A list of terms.
pub type Terms = Items<Term>;

/// A list of triples.
pub type Triples = Items<Triple>;

impl<T> Model for Items<T> {
    ghost use Rattle.std.specs.Prelude.{List};
    ghost use Rattle.std.specs.Coded.{coded_list};

    ghost Value = { List T };

    ghost coded = { coded_list T.code };

    ghost view = { λ it. it.items.items };
}

impl<T> Items<T> {
    /// The empty list. It takes no memory.
    pub fn new(alloc: Global) -> Items<T>
        ensures { result ≡ [] }
    {
        Items {
            items: Vec::new(alloc),
        }
    }

    /// The list of the items of a `Vec`. It takes no memory.
    pub fn from_vec(items: Vec<T>) -> Items<T>
        ensures { result ≡ items.items }
    {
        Items { items }
    }

    /// The items as a `Vec`. It takes no memory.
    pub fn into_vec(self) -> Vec<T>
        ensures { result.items ≡ self }
    {
        let Items { items } = self;
        items
    }

    /// The items, in order. It takes no memory.
    pub fn as_slice(&self) -> &[T]
        ensures { result.now ≡ self.now }
    {
        self.items.as_slice()
    }
}

impl<T: Drop> Items<T> {
    /// Appends an item. After `OutOfMemory` the list is as before, and the item is dropped.
    pub fn push(&mut self, item: T) -> Result<(), OutOfMemory>
        ensures ok { OnOk result (self.new ≡ self.old ++ item ∷ []) }
        ensures err { OnErr result (self.new ≡ self.old) }
    {
        self.items.push(item)?;
        Ok(())
    }
}

impl Items<u8> {
    /// Appends all items of a slice. After `OutOfMemory` the list is as before.
    pub fn append(&mut self, more: &[u8]) -> Result<(), OutOfMemory>
        ensures ok { OnOk result (self.new ≡ self.old ++ more.now) }
        ensures err { OnErr result (self.new ≡ self.old) }
    {
        self.items.extend_from_slice(more)?;
        Ok(())
    }
}
