// An honest bus that counts its accesses where others see the count, and the reads of nodes of level 1, of those that were written
// and of others, in a memory of four levels.
ghost use Rattle.std.specs.Prelude.{◌≡◌, refl, IfOk};
ghost use Rattle.bus_model.specs.Access.{CameBy, came_on};
ghost use Rattle.bus_model.specs.BusHistory.{new_history};
ghost use Rattle.bus_model.specs.HonestBus.{honest_history};

use bus_model::{Bus, HonestBus};
use sec_base::{Geometry, NoMemory, Sealed};
use std::alloc::Global;
use std::cell::Cell;

#[derive(Drop)]
pub(crate) struct WatchingBus<'a> {
    bus: HonestBus,
    accesses: &'a Cell<u64>,
    written: [bool; 64],
    pub(crate) read_again: u64,
    pub(crate) read_unwritten: u64,
}

impl<'a> WatchingBus<'a> {
    pub(crate) fn new(
        alloc: Global,
        geometry: Geometry,
        accesses: &'a Cell<u64>,
    ) -> Result<WatchingBus<'a>, NoMemory>
        ensures { IfOk result (λ bus. honest_history bus.bus ≡ new_history geometry) }
    {
        Ok(WatchingBus {
            bus: HonestBus::new(alloc, geometry)?,
            accesses,
            written: [false; 64],
            read_again: 0,
            read_unwritten: 0,
        })
    }

    fn count(&self) {
        self.accesses.set(self.accesses.get().saturating_add(1));
    }

    // The node is written.
    fn mark(&mut self, level: u8, index: u32)
        ensures { self.new.bus ≡ self.old.bus }
    {
        if level == 1 && index < 64 {
            self.written[index as usize] = true;
        }
    }
}

impl<'a> Bus for WatchingBus<'a> {
    ghost history = { λ bus. honest_history bus.bus };

    ghost moved = { λ old accesses new. CameBy (honest_history old.bus) accesses (honest_history new.bus) };

    ghost unmoved = { λ _. refl };

    ghost moved_on = { λ first second third. came_on (honest_history first.bus) (honest_history second.bus) (honest_history third.bus) };

    ghost told = { λ _ _ _ moved. moved };

    fn read_data(&mut self, line: u32) -> Result<Sealed, NoMemory> {
        self.count();
        self.bus.read_data(line)
    }

    fn write_data(&mut self, line: u32, sealed: &Sealed) -> Result<(), NoMemory> {
        self.count();
        self.bus.write_data(line, sealed)
    }

    fn read_node(&mut self, level: u8, index: u32) -> Result<[u8; 64], NoMemory> {
        self.count();
        if level == 1 && index < 64 {
            if self.written[index as usize] {
                self.read_again = self.read_again.saturating_add(1);
            } else {
                self.read_unwritten = self.read_unwritten.saturating_add(1);
            }
        }
        self.bus.read_node(level, index)
    }

    fn write_node(&mut self, level: u8, index: u32, block: &[u8; 64]) -> Result<(), NoMemory> {
        self.count();
        self.mark(level, index);
        self.bus.write_node(level, index, block)
    }
}
