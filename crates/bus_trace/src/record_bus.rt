// A bus that keeps what it is asked and what it answers.
ghost use Rattle.std.specs.Prelude.{◌≡◌, ◌<◌, ◌++◌, ◌∷◌, [], IfOk, IfErr, vec_len};
ghost use Rattle.std.specs.Vec.{vec_capacity};
ghost use Rattle.bus_trace.specs.Entry.{AreEntries};
ghost use Rattle.bus_trace.specs.RecordBus.{Records, records_on, told_below, unrecorded};

use crate::entries::Entries;
use crate::entry::Entry;
use bus_model::Bus;
use sec_base::{NoMemory, NoMemoryWith, Sealed};
use std::alloc::Global;
use std::marker::Model;

// For how many entries there is memory from the start.
const FIRST_ENTRIES: usize = 64;

/// A bus that passes each call on to another one and keeps it, once it is answered. It takes memory for the entry before
/// it asks. A refused call is not kept.
#[derive(Debug, Drop)]
pub struct RecordBus<B: Bus> {
    bus: B,
    entries: Vec<Entry>,
}

impl<B: Bus> Model for RecordBus<B> {
    ghost use Rattle.bus_trace.specs.Entry.{AreEntries};
    ghost use Rattle.bus_trace.specs.RecordBus.{RecordBusView};

    ghost Value = { RecordBusView B };

    ghost view = { λ recorded. record { bus = recorded.bus; entries = recorded.entries.items } };

    ghost invariant = { λ recorded. AreEntries (B.history recorded.bus).geometry recorded.entries.items };
}

impl<B: Bus> RecordBus<B> {
    /// Nothing was asked through it yet. Out of memory, the bus comes back.
    pub fn new(alloc: Global, bus: B) -> Result<RecordBus<B>, NoMemoryWith<B>>
        ensures new { IfOk result (λ recorded. recorded ≡ record { bus = bus; entries = [] }) }
        ensures refused { IfErr result (λ refusal. refusal.0 ≡ bus) }
    {
        match Vec::with_capacity(alloc, FIRST_ENTRIES) {
            Ok(entries) => Ok(RecordBus { bus, entries }),
            Err(_) => Err(NoMemoryWith(bus)),
        }
    }

    /// All calls that were answered, in order, and the bus.
    pub fn finish(self) -> (Entries, B)
        ensures entries { result.0 ≡ self.entries }
        ensures bus { result.1 ≡ self.bus }
        ensures fits { AreEntries (B.history result.1).geometry result.0 }
    {
        let RecordBus { bus, entries } = self;
        (Entries::from_vec(entries), bus)
    }
}

impl<B: Bus> Bus for RecordBus<B> {
    ghost history = { λ recorded. B.history recorded.bus };

    ghost moved = { Records B.moved };

    ghost unmoved = { unrecorded B.moved B.unmoved };

    ghost moved_on = { records_on B.moved B.moved_on };

    ghost told = { told_below B.moved B.history B.told };

    fn read_data(&mut self, line: u32) -> Result<Sealed, NoMemory> {
        self.entries.reserve(1)?;
        let sealed = self.bus.read_data(line)?;
        push_reserved(&mut self.entries, Entry::ReadLine { line, sealed });
        Ok(sealed)
    }

    fn write_data(&mut self, line: u32, sealed: &Sealed) -> Result<(), NoMemory> {
        self.entries.reserve(1)?;
        self.bus.write_data(line, sealed)?;
        let Sealed { cipher, tag } = *sealed;
        let sealed = Sealed { cipher, tag };
        push_reserved(&mut self.entries, Entry::WriteLine { line, sealed });
        Ok(())
    }

    fn read_node(&mut self, level: u8, index: u32) -> Result<[u8; 64], NoMemory> {
        self.entries.reserve(1)?;
        let block = self.bus.read_node(level, index)?;
        push_reserved(
            &mut self.entries,
            Entry::ReadNode {
                level,
                index,
                block,
            },
        );
        Ok(block)
    }

    fn write_node(&mut self, level: u8, index: u32, block: &[u8; 64]) -> Result<(), NoMemory> {
        self.entries.reserve(1)?;
        self.bus.write_node(level, index, block)?;
        let block = *block;
        push_reserved(
            &mut self.entries,
            Entry::WriteNode {
                level,
                index,
                block,
            },
        );
        Ok(())
    }
}

// Keeps an entry for which there is memory.
fn push_reserved(entries: &mut Vec<Entry>, entry: Entry)
    requires { vec_len entries.old < vec_capacity entries.old }
    ensures { entries.new.items ≡ entries.old.items ++ entry ∷ [] }
{
    match entries.push(entry) {
        Ok(()) => {}
        Err(_) => unreachable!(),
    }
}
