ghost use Rattle.std.specs.Prelude.{◌≡◌, [], ◌∷◌, ◌++◌, length, take, IfOk, OnOk, OnErr};
ghost use Rattle.std.proofs.Common.{rules};
ghost use Rattle.std.specs.Cmp.Rules.{comparing};
ghost use lib.Pointwise.{pointwise};

use crate::{CopyFault, Duplicate};
use std::alloc::{AllocError, AllocFailed, Global};
use std::marker::Model;

/// A list on the heap. Contracts see it as the list of its items.
#[derive(Drop, Debug)]
pub struct List<T> {
    held: Vec<T>,
}

impl<T> Model for List<T> {
    ghost use Rattle.std.specs.Prelude.{List};

    ghost Value = { List T };

    ghost view = { λ l. l.held.items };
}

impl<T> List<T> {
    /// These items. It takes no memory.
    pub fn from_vec(items: Vec<T>) -> List<T>
        ensures { result ≡ items.items }
    {
        List { held: items }
    }

    /// The items, to be read.
    pub fn as_slice(&self) -> &[T]
        ensures { result.now ≡ self.now }
    {
        self.held.as_slice()
    }

    /// The vector that holds them.
    pub fn into_vec(self) -> Vec<T>
        ensures { result.items ≡ self }
    {
        let List { held } = self;
        held
    }

    /// Adds an item at the end. An `Err` changes nothing, and gives the item back.
    pub fn push(&mut self, item: T) -> Result<(), AllocFailed<T>>
        ensures ok { OnOk result (self.new ≡ self.old ++ item ∷ []) }
        ensures err { OnErr result (self.new ≡ self.old) }
    {
        self.held.push(item)?;
        Ok(())
    }
}

impl<T: Drop> List<T> {
    /// Adds all items of another list at the end. An `Err` changes nothing.
    pub fn append(&mut self, more: List<T>) -> Result<(), AllocError>
        ensures ok { OnOk result (self.new ≡ self.old ++ more) }
        ensures err { OnErr result (self.new ≡ self.old) }
    {
        self.held.append(&mut more.into_vec())?;
        Ok(())
    }

    /// Drops what stands behind so many items.
    pub fn shorten(&mut self, count: usize)
        ensures { self.new ≡ take count self.old }
    {
        self.held.truncate(count);
    }
}

impl<T: PartialEq> PartialEq for List<T> {
    ghost eq = { pointwise T.eq };

    ghost laws = { Prim.search (comparing, T.laws, rules) };

    fn eq(&self, other: &List<T>) -> bool {
        self.held == other.held
    }
}

impl<T: Eq> Eq for List<T> {
    ghost laws = { Prim.search (comparing, T.Eq.laws, rules) };
}

impl<T: Duplicate + Drop> Duplicate for List<T> {
    fn copy(&self, alloc: Global) -> Result<Self, CopyFault> {
        let mut made = Vec::new(alloc);
        for item in &self.held {
            made.push(item.copy(alloc)?)?;
        }
        Ok(List { held: made })
    }
}
