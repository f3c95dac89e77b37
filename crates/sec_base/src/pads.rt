// The lines and counters that something was enciphered under.
ghost use Rattle.std.specs.Prelude.{◌≡◌, ◌↔◌, ◌≤◌, [], length, IsTrue, IsNone};
ghost use Rattle.std.specs.List.{slice_get};

use crate::counter::Counter;
use std::marker::Model;

/// The lines and counters that something was enciphered under, in order, which contracts see as a list.
#[derive(Debug, Drop)]
pub struct Pads {
    items: Vec<(u32, Counter)>,
}

impl Model for Pads {
    ghost use Rattle.std.specs.Prelude.{List, ℕ};
    ghost use Rattle.sec_base.specs.declared.counter.Counter.{Counter};

    ghost Value = { List (ℕ × Counter) };

    ghost view = { λ pads. pads.items.items };
}

impl Pads {
    /// The entries of a vector, which takes no memory.
    pub fn from_vec(items: Vec<(u32, Counter)>) -> Self
        ensures { result ≡ items.items }
    {
        Pads { items }
    }

    /// The vector, which takes no memory.
    pub fn into_vec(self) -> Vec<(u32, Counter)>
        ensures { result.items ≡ self }
    {
        let Pads { items } = self;
        items
    }

    /// How many there are.
    pub fn len(&self) -> u64
        ensures { result ≡ length self.now }
    {
        self.items.len() as u64
    }

    /// Whether there are no pads.
    pub fn is_empty(&self) -> bool
        ensures { IsTrue result ↔ (self.now ≡ []) }
    {
        self.items.is_empty()
    }

    /// The line and the counter at a place, `None` from the length on.
    pub fn get(&self, at: u64) -> Option<(u32, Counter)>
        ensures item { result ≡ slice_get self.now at }
        ensures none { IsNone result ↔ (length self.now ≤ at) }
    {
        self.items.get(at as usize).copied()
    }

    /// All pads, in order.
    pub fn as_slice(&self) -> &[(u32, Counter)]
        ensures { result.now ≡ self.now }
    {
        self.items.as_slice()
    }
}
