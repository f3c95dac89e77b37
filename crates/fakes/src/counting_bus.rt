// A bus that keeps what it is asked for, and may refuse it.
ghost use Rattle.std.specs.Prelude.{◌≡◌, refl, ◌<◌, IfOk};
ghost use Rattle.sec_base.specs.Place.{stored_size};
ghost use Rattle.bus_model.specs.Access.{CameBy, came_on};
ghost use Rattle.bus_model.specs.BusHistory.{NothingWritten, new_history};
ghost use Rattle.bus_model.specs.FlipBus.{flip_history};

use bus_model::{Bus, FlipBus};
use sec_base::{Geometry, NoMemory, Place, Sealed};
use std::alloc::Global;
use std::marker::Model;

/// An access to a line, or to a node by its level and index.
#[derive(Clone, Copy, PartialEq, Debug)]
pub enum Access {
    ReadLine(u32),
    WriteLine(u32),
    ReadNode(u8, u32),
    WriteNode(u8, u32),
}

/// A bus that tells the truth but for one bit at most, counts the accesses that it is asked for, and may refuse some of
/// them. To contracts it is a `FlipBus`.
#[derive(Drop)]
pub struct CountingBus {
    bus: FlipBus,
    asked: Asked,
}

impl Model for CountingBus {
    ghost use Rattle.bus_model.specs.FlipBus.{FlipBusView};

    ghost Value = { FlipBusView };

    ghost view = { λ bus. bus.bus };
}

impl CountingBus {
    /// It tells the truth and answers everything.
    pub fn honest(alloc: Global, geometry: Geometry) -> Result<CountingBus, NoMemory>
        ensures history { IfOk result (λ bus. flip_history bus ≡ new_history geometry) }
        ensures nothing_written { IfOk result (λ bus. NothingWritten (flip_history bus)) }
    {
        CountingBus::flipping(alloc, geometry, Place::Line(0), 0, 0)
    }

    /// The lowest bit of a byte is flipped at the `k`-th read of a place.
    pub fn flipping(
        alloc: Global,
        geometry: Geometry,
        place: Place,
        k: u64,
        offset: u8,
    ) -> Result<CountingBus, NoMemory>
        requires { offset < stored_size geometry place }

        ensures history { IfOk result (λ bus. flip_history bus ≡ new_history geometry) }
        ensures nothing_written { IfOk result (λ bus. NothingWritten (flip_history bus)) }
    {
        Ok(CountingBus {
            bus: FlipBus::new(alloc, geometry, place, k, offset, 1)?,
            asked: Asked::nothing(alloc),
        })
    }

    /// It tells the truth, and refuses one access, by its number from 1 on.
    pub fn refusing(
        alloc: Global,
        geometry: Geometry,
        refused: u64,
    ) -> Result<CountingBus, NoMemory>
        ensures history { IfOk result (λ bus. flip_history bus ≡ new_history geometry) }
        ensures nothing_written { IfOk result (λ bus. NothingWritten (flip_history bus)) }
    {
        let mut bus = CountingBus::honest(alloc, geometry)?;
        bus.asked.first_refused = refused;
        bus.asked.last_refused = refused;
        Ok(bus)
    }

    /// Refuses all accesses after so many more.
    pub fn refuse_after(&mut self, answered: u64)
        ensures { self.new ≡ self.old }
    {
        self.asked.first_refused = self.asked.count.saturating_add(answered).saturating_add(1);
        self.asked.last_refused = u64::MAX;
    }

    /// Refuses no access from now on.
    pub fn refuse_none(&mut self)
        ensures { self.new ≡ self.old }
    {
        self.asked.first_refused = 0;
        self.asked.last_refused = 0;
    }

    /// How many accesses were asked for, those included that were refused.
    pub fn asked(&self) -> u64 {
        self.asked.count
    }

    /// The accesses that were asked for since the last call of `clear_log`, in order.
    pub fn log(&self) -> &[Access] {
        self.asked.log.as_slice()
    }

    /// Forgets which accesses were asked for so far.
    pub fn clear_log(&mut self)
        ensures { self.new ≡ self.old }
    {
        self.asked.log.clear();
    }

    /// How many answers were false.
    pub fn lies(&self) -> u64 {
        self.bus.lies()
    }
}

impl Bus for CountingBus {
    ghost history = { flip_history };

    ghost moved = { λ old accesses new. CameBy (flip_history old) accesses (flip_history new) };

    ghost unmoved = { λ _. refl };

    ghost moved_on = { λ first second third. came_on (flip_history first) (flip_history second) (flip_history third) };

    ghost told = { λ _ _ _ moved. moved };

    fn read_data(&mut self, line: u32) -> Result<Sealed, NoMemory> {
        self.asked.ask(Access::ReadLine(line))?;
        self.bus.read_data(line)
    }

    fn write_data(&mut self, line: u32, sealed: &Sealed) -> Result<(), NoMemory> {
        self.asked.ask(Access::WriteLine(line))?;
        self.bus.write_data(line, sealed)
    }

    fn read_node(&mut self, level: u8, index: u32) -> Result<[u8; 64], NoMemory> {
        self.asked.ask(Access::ReadNode(level, index))?;
        self.bus.read_node(level, index)
    }

    fn write_node(&mut self, level: u8, index: u32, block: &[u8; 64]) -> Result<(), NoMemory> {
        self.asked.ask(Access::WriteNode(level, index))?;
        self.bus.write_node(level, index, block)
    }
}

// The accesses that were asked for, and which of them are refused, by their numbers from 1 on.
#[derive(Drop)]
struct Asked {
    count: u64,
    log: Vec<Access>,
    first_refused: u64,
    last_refused: u64,
}

impl Asked {
    fn nothing(alloc: Global) -> Asked {
        Asked {
            count: 0,
            log: Vec::new(alloc),
            first_refused: 0,
            last_refused: 0,
        }
    }

    fn ask(&mut self, access: Access) -> Result<(), NoMemory> {
        self.count = self.count.saturating_add(1);
        self.log.push(access)?;
        if self.first_refused <= self.count && self.count <= self.last_refused {
            return Err(NoMemory);
        }
        Ok(())
    }
}
