// Why a memory stops.
ghost use Rattle.std.specs.Prelude.{◌≡◌};
ghost use Rattle.sec_base.specs.declared.stop.MemStop.TheVariants.{NoMemory as no_memory};

use crate::place::Place;
use std::alloc::{AllocError, AllocFailed};

/// The emulator itself is out of memory.
#[derive(Clone, Copy, Debug, PartialEq, Eq)]
pub struct NoMemory;

impl From<AllocError> for NoMemory {
    fn from(_: AllocError) -> Self {
        NoMemory
    }
}

impl<T: Drop> From<AllocFailed<T>> for NoMemory {
    fn from(_: AllocFailed<T>) -> Self {
        NoMemory
    }
}

/// The emulator itself is out of memory; what was passed in comes back.
#[derive(Debug, Drop)]
pub struct NoMemoryWith<X>(pub X);

/// Why the protected memory stopped.
#[derive(Clone, Copy, Debug, PartialEq, Eq)]
pub enum MemStop {
    /// What was read from this place is not what was written there.
    Tampered(Place),
    /// A line of this page can't be written any more: its counters are used up.
    Spent(u32),
    /// The emulator itself is out of memory.
    NoMemory,
}

impl From<NoMemory> for MemStop {
    ghost from_gives = { λ _ stop. stop ≡ no_memory };

    fn from(_: NoMemory) -> Self {
        MemStop::NoMemory
    }
}
