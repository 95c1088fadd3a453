//! A list of values that the wire can count.

ghost use Rattle.std.specs.Prelude.{◌≡◌, ◌<◌, ◌^◌, ◌+◌, ◌++◌, ◌∷◌, [], IfOk, OnOk, OnErr, length};
ghost use Rattle.std.specs.Cmp.Lexicographic.{pointwise, lists_per, lists_equiv};

use crate::error::NoMemory;
use std::alloc::Global;
use std::marker::Model;

/// A list of fewer than 2^32 values, which contracts see as that list.
#[derive(Drop)]
pub struct List<T> {
    items: Vec<T>,
}

impl<T> Model for List<T> {
    ghost use Rattle.std.specs.Prelude.{List as Items, ◌<◌, ◌^◌, length};

    ghost Value = { Items T };

    ghost view = { λ l. l.items.items };

    ghost invariant = { λ l. length l.items.items < 2 ^ 32 };
}

impl<T> List<T> {
    /// The empty list.
    pub fn new(alloc: Global) -> List<T>
        ensures { result ≡ [] }
    {
        List {
            items: Vec::new(alloc),
        }
    }

    /// The allocator from which the list grows.
    pub fn allocator(&self) -> Global {
        *self.items.allocator()
    }

    pub fn as_slice(&self) -> &[T]
        ensures same { result.now ≡ self.now }
        ensures short { length self.now < 2 ^ 32 }
    {
        self.items.as_slice()
    }

    pub fn into_vec(self) -> Vec<T>
        ensures same { result.items ≡ self }
        ensures short { length self < 2 ^ 32 }
    {
        self.items
    }
}

impl<T: Drop> List<T> {
    /// The values, which stay where they are. More than 2^32 - 1 of them count as out of memory.
    pub fn from_vec(items: Vec<T>) -> Result<List<T>, NoMemory>
        ensures { IfOk result (λ l. l ≡ items.items) }
    {
        if items.len() < 1 << 32 {
            Ok(List { items })
        } else {
            Err(NoMemory)
        }
    }

    /// Adds a value at the end. One value more than 2^32 - 1 counts as out of memory.
    pub fn push(&mut self, item: T) -> Result<(), NoMemory>
        ensures ok { OnOk result (self.new ≡ self.old ++ item ∷ []) }
        ensures err { OnErr result (self.new ≡ self.old) }
    {
        if self.items.len() >= (1 << 32) - 1 {
            return Err(NoMemory);
        }
        self.items.push(item)?;
        Ok(())
    }
}

impl<T: PartialEq> PartialEq for List<T> {
    ghost eq = { λ v w. pointwise T.eq v w };

    ghost laws = { lists_per T.laws };

    fn eq(&self, other: &Self) -> bool {
        self.items.as_slice() == other.items.as_slice()
    }
}

impl<T: Eq> Eq for List<T> {
    ghost laws = { lists_equiv T.Eq.laws };
}
