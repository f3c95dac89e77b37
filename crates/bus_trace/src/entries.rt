// Lists of entries.
ghost use Rattle.std.specs.Prelude.{◌≡◌, ◌↔◌, [], length, IsTrue};

use crate::entry::Entry;
use std::marker::Model;

/// Entries in the order of their accesses, which contracts see as a list.
#[derive(Debug, Drop)]
pub struct Entries {
    items: Vec<Entry>,
}

impl Model for Entries {
    ghost use Rattle.std.specs.Prelude.{List};
    ghost use Rattle.bus_trace.specs.declared.entry.Entry.{Entry};

    ghost Value = { List Entry };

    ghost view = { λ entries. entries.items.items };
}

impl Entries {
    /// The entries of a vector, which takes no memory.
    pub fn from_vec(items: Vec<Entry>) -> Self
        ensures { result ≡ items.items }
    {
        Entries { items }
    }

    /// The vector, which takes no memory.
    pub fn into_vec(self) -> Vec<Entry>
        ensures { result.items ≡ self }
    {
        let Entries { items } = self;
        items
    }

    /// How many there are.
    pub fn len(&self) -> usize
        ensures { result ≡ length self.now }
    {
        self.items.len()
    }

    /// Whether there are none.
    pub fn is_empty(&self) -> bool
        ensures { IsTrue result ↔ (self.now ≡ []) }
    {
        self.items.is_empty()
    }

    /// All entries, in order.
    pub fn as_slice(&self) -> &[Entry]
        ensures { result.now ≡ self.now }
    {
        self.items.as_slice()
    }
}
