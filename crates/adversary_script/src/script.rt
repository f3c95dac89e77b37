// What an adversary does, and when.

ghost use Rattle.std.specs.List.{slice_get};
ghost use Rattle.std.specs.Prelude.{IsTrue, [], length, option_copied, ◌↔◌, ◌≡◌};

use arrayvec::ArrayVec;
use sec_base::Place;
use std::marker::Model;

/// Up to 80 bytes, which the largest place has: 64 of a data line and its tag of 16.
pub type PlaceBytes = ArrayVec<u8, 80>;

/// The access before which an action is done, each number counted from 1.
#[derive(Clone, Copy, Debug, PartialEq, Eq)]
pub enum Trigger {
    /// The n-th access to the memory outside the chip.
    Access(u64),
    /// The k-th read of a place.
    Read(Place, u64),
    /// The k-th write of a place.
    Write(Place, u64),
}

/// What is done to the places, as they are stored.
#[derive(Debug, Drop, PartialEq, Eq)]
pub enum Action {
    /// Bytes are put from the offset on.
    Set {
        place: Place,
        offset: u8,
        bytes: PlaceBytes,
    },
    /// Bytes are xored from the offset on.
    Flip {
        place: Place,
        offset: u8,
        mask: PlaceBytes,
    },
    /// Two places of one kind change their bytes.
    Swap {
        first: Place,
        second: Place,
    },
    /// All bytes are put that the place may store, and zeros behind them.
    Put {
        place: Place,
        bytes: PlaceBytes,
    },
    /// A register keeps a place's bytes.
    Save {
        register: u8,
        place: Place,
    },
    /// They are put into a place, if the register holds one of that kind.
    Restore {
        register: u8,
        place: Place,
    },
    /// A register keeps all places.
    SaveAll(u8),
    /// All places are put back, if the register holds them.
    RestoreAll(u8),
}

/// A line of a script.
#[derive(Debug, Drop, PartialEq, Eq)]
pub struct ScriptLine {
    pub trigger: Trigger,
    pub action: Action,
}

/// The lines of a script in order, which contracts see as a list.
#[derive(Debug, Drop)]
pub struct Script {
    items: Vec<ScriptLine>,
}

impl Model for Script {
    ghost use Rattle.adversary_script.specs.declared.script.ScriptLine.{ScriptLine};
    ghost use Rattle.std.specs.Prelude.{List};

    ghost Value = { List ScriptLine };

    ghost view = { λ script. script.items.items };
}

impl Script {
    /// The lines of a vector, which takes no memory.
    pub fn from_vec(items: Vec<ScriptLine>) -> Self
        ensures { result ≡ items.items }
    {
        Script { items }
    }

    /// How many there are.
    pub fn len(&self) -> u64
        ensures { result ≡ length self.now }
    {
        self.items.len() as u64
    }

    /// Whether there are no lines.
    pub fn is_empty(&self) -> bool
        ensures { IsTrue result ↔ (self.now ≡ []) }
    {
        self.items.is_empty()
    }

    /// The line at a place, `None` from the length on.
    pub fn get(&self, at: u64) -> Option<&ScriptLine>
        ensures { option_copied result ≡ slice_get self.now at }
    {
        self.items.get(at as usize)
    }

    /// All lines, in order.
    pub fn as_slice(&self) -> &[ScriptLine]
        ensures { result.now ≡ self.now }
    {
        self.items.as_slice()
    }
}
