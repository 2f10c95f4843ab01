// Want of memory, and the lists of bytes and words.
ghost use Rattle.std.specs.Prelude.{◌≡◌, ◌≤◌, ◌++◌, length, IfOk, IsOk, OnOk, OnErr};

use smallvec::SmallVec;
use std::alloc::{AllocError, AllocFailed, Global};
use std::marker::Model;

/// No memory was found.
#[derive(Clone, Copy, PartialEq, Eq, Debug)]
pub struct NoMemory;

impl From<AllocError> for NoMemory {
    fn from(_refused: AllocError) -> NoMemory {
        NoMemory
    }
}

// What found no room is dropped.
impl<T: Drop> From<AllocFailed<T>> for NoMemory {
    fn from(_refused: AllocFailed<T>) -> NoMemory {
        NoMemory
    }
}

/// How many bytes at most lie in the value of their list; more lie on the heap.
const FEW: usize = 16;

/// A list of bytes. Most blocks have few, so a short one takes no memory.
#[derive(Drop)]
pub struct ByteList {
    items: SmallVec<u8, FEW>,
}

impl Model for ByteList {
    ghost use Rattle.std.specs.Prelude.{List, ℕ};

    ghost Value = { List ℕ };

    ghost view = { λ list. list.items.items };
}

impl ByteList {
    /// The list of these bytes. It takes no memory.
    pub fn from_vec(items: Vec<u8>) -> ByteList
        ensures { result ≡ items.items }
    {
        ByteList {
            items: SmallVec::from_vec(items),
        }
    }

    /// A list of its own of these bytes. Where they are few it takes no memory.
    pub fn from_slice(alloc: Global, bytes: &[u8]) -> Result<ByteList, NoMemory>
        ensures copied { IfOk result (λ list. list ≡ bytes.now) }
        ensures few { length bytes.now ≤ 16 → IsOk result }
    {
        Ok(ByteList {
            items: SmallVec::from_slice(alloc, bytes)?,
        })
    }

    /// The bytes, lent.
    pub fn as_slice(&self) -> &[u8]
        ensures { result.now ≡ self.now }
    {
        self.items.as_slice()
    }

    /// Appends `more`, or answers `NoMemory` and leaves the list as it was.
    pub(crate) fn append(&mut self, more: &[u8]) -> Result<(), NoMemory>
        ensures appended { OnOk result (self.new ≡ self.old ++ more.now) }
        ensures unchanged { OnErr result (self.new ≡ self.old) }
    {
        self.items.extend_from_slice(more)?;
        Ok(())
    }
}

/// A list of 32-bit words.
#[derive(Drop)]
pub struct WordList {
    items: Vec<u32>,
}

impl Model for WordList {
    ghost use Rattle.std.specs.Prelude.{List, ℕ};

    ghost Value = { List ℕ };

    ghost view = { λ list. list.items.items };
}

impl WordList {
    /// The list of these words. It takes no memory.
    pub fn from_vec(items: Vec<u32>) -> WordList
        ensures { result ≡ items.items }
    {
        WordList { items }
    }

    /// The words, lent.
    pub fn as_slice(&self) -> &[u32]
        ensures { result.now ≡ self.now }
    {
        self.items.as_slice()
    }
}
