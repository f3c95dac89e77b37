// Lists of bytes.
ghost use Rattle.std.specs.Prelude.{◌≡◌, ◌↔◌, ◌+◌, ◌≤◌, ◌++◌, [], length, take, drop, IsTrue, IfOk};

use crate::stop::NoMemory;
use std::alloc::Global;
use std::marker::Model;

/// Bytes on the heap, which contracts see as a list.
#[derive(Debug, Drop)]
pub struct Bytes {
    items: Vec<u8>,
}

impl Model for Bytes {
    ghost use Rattle.std.specs.Prelude.{List, ℕ};

    ghost Value = { List ℕ };

    ghost view = { λ bytes. bytes.items.items };
}

impl Bytes {
    /// No bytes.
    pub fn new(alloc: Global) -> Self
        ensures { result ≡ [] }
    {
        Bytes {
            items: Vec::new(alloc),
        }
    }

    /// The bytes of a vector, which takes no memory.
    pub fn from_vec(items: Vec<u8>) -> Self
        ensures { result ≡ items.items }
    {
        Bytes { items }
    }

    /// A copy of a slice. Fails only if out of memory.
    pub fn from_slice(alloc: Global, items: &[u8]) -> Result<Self, NoMemory>
        ensures { IfOk result (λ bytes. bytes ≡ items.now) }
    {
        Ok(Bytes {
            items: Vec::from_slice(alloc, items)?,
        })
    }

    /// The vector, which takes no memory.
    pub fn into_vec(self) -> Vec<u8>
        ensures { result.items ≡ self }
    {
        let Bytes { items } = self;
        items
    }

    /// How many bytes there are.
    pub fn len(&self) -> usize
        ensures { result ≡ length self.now }
    {
        self.items.len()
    }

    /// Whether there are no bytes.
    pub fn is_empty(&self) -> bool
        ensures { IsTrue result ↔ (self.now ≡ []) }
    {
        self.items.is_empty()
    }

    /// All bytes, in order.
    pub fn as_slice(&self) -> &[u8]
        ensures { result.now ≡ self.now }
    {
        self.items.as_slice()
    }
}

/// Puts a piece at a place of some bytes.
pub fn put(bytes: &mut [u8], at: usize, piece: &[u8])
    requires { at + length piece.now ≤ length bytes.old }
    ensures front { take (at + length piece.now) bytes.new ≡ take at bytes.old ++ piece.now }
    ensures rest { drop (at + length piece.now) bytes.new ≡ drop (at + length piece.now) bytes.old }
{
    bytes[at..at + piece.len()].copy_from_slice(piece);
}
