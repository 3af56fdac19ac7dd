//! Lists that grow at their end. A clause sees a list as its items.

ghost use Rattle.std.specs.Prelude.{◌≡◌, [], ◌∷◌, ◌++◌, OnOk, OnErr, length};
ghost use Rattle.std.specs.Borrow.{Lends, sem, Array};
ghost use Rattle.cl_types.specs.Bytes.{over};

use std::alloc::{AllocError, Global};
use std::marker::Model;

/// Want of memory: a growth was refused. What the call leaves is said by its clauses.
#[derive(Clone, Copy, Debug, PartialEq, Eq)]
pub struct NoMemory;

impl From<AllocError> for NoMemory {
    fn from(_error: AllocError) -> Self {
        NoMemory
    }
}

/// A list, in order. It keeps its allocator.
#[derive(Drop)]
pub struct Items<T> {
    items: Vec<T>,
}

impl<T> Model for Items<T> {
    ghost use Rattle.std.specs.Prelude.{List};

    ghost Value = { List T };

    ghost view = { λ list. list.items.items };
}

/// A list of bytes.
pub type Bytes = Items<u8>;

impl<T: Drop> Items<T> {
    /// The empty list. It takes no memory.
    pub fn create(alloc: Global) -> Self
        ensures { result ≡ [] }
    {
        Items {
            items: Vec::new(alloc),
        }
    }

    /// Appends an item.
    pub fn push(&mut self, item: T) -> Result<(), NoMemory>
        ensures pushed { OnOk result (self.new ≡ self.old ++ item ∷ []) }
        ensures unchanged { OnErr result (self.new ≡ self.old) }
    {
        if self.items.push(item).is_err() {
            return Err(NoMemory);
        }
        Ok(())
    }

    /// The items.
    pub fn as_slice(&self) -> &[T]
        ensures { result.now ≡ self.now }
    {
        &self.items
    }
}

impl Items<u8> {
    ghost use Rattle.cl_types.specs.Lending.{LendsBytes};

    /// Appends bytes, in one copy. Room grows by more than what is appended, so that many calls copy little.
    pub fn append(&mut self, bytes: &[u8]) -> Result<(), NoMemory>
        ensures appended { OnOk result (self.new ≡ self.old ++ bytes.now) }
        ensures unchanged { OnErr result (self.new ≡ self.old) }
    {
        self.items.extend_from_slice(bytes)?;
        Ok(())
    }

    /// The bytes, to be changed; their number stays.
    pub fn as_mut_slice(&mut self) -> &mut [u8]
        ensures* writes_back { sem 𝓛 (LendsBytes self.entry result) }
        ensures value { result.now ≡ self.old }
        ensures size { length result.now ≡ length self.old }
    {
        self.items.as_mut_slice()
    }
}
