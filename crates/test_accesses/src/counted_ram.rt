// A memory that tells how many accesses of the bus below it a load or a store made at most.
ghost use Rattle.std.specs.Prelude.{◌≡◌, ℕ, List, None};

use sec_base::{MemStop, Ram, Width};
use std::cell::Cell;

#[derive(Drop)]
pub(crate) struct CountedRam<'a, M: Ram> {
    pub(crate) memory: M,
    pub(crate) accesses: &'a Cell<u64>,
    pub(crate) most: u64,
}

impl<'a, M: Ram> CountedRam<'a, M> {
    // The count as it was before a call.
    fn tell(&mut self, before: u64)
        ensures { self.new.memory ≡ self.old.memory }
    {
        let made = self.accesses.get().saturating_sub(before);
        self.most = self.most.max(made);
    }
}

// It answers as the memory that it counts, and no contract relies on it.
impl<'a, M: Ram> Ram for CountedRam<'a, M> {
    ghost contents = { λ counted. M.contents counted.memory };

    ghost extent = { λ counted. M.extent counted.memory };

    ghost sound = { λ _. ⊥ };

    ghost stopped = { λ counted. M.stopped counted.memory };

    ghost moved = { λ _ _ _. Unit {0} };

    fn size(&self) -> u32 {
        self.memory.size()
    }

    fn load(&mut self, addr: u32, width: Width) -> Result<u32, MemStop> {
        let before = self.accesses.get();
        let loaded = self.memory.load(addr, width);
        self.tell(before);
        loaded
    }

    fn store(&mut self, addr: u32, width: Width, value: u32) -> Result<(), MemStop> {
        let before = self.accesses.get();
        let stored = self.memory.store(addr, width, value);
        self.tell(before);
        stored
    }

    ghost sized = { λ counted. M.sized counted.memory };

    ghost unmoved = { λ _. tt };

    ghost moved_on = { λ _ _ _ _ _ _ _. tt };
}
