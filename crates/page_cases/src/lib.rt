//! Lines of a protected memory over buses that tell the truth, that flip a bit at one read of one place, or that refuse one
//! access, for tests.
#![tactic(auto)]

ghost use Rattle.std.specs.Prelude.{◌≡◌, ◌<◌};
ghost use Rattle.sec_base.specs.Geometry.{one};
ghost use Rattle.sec_base.specs.Place.{stored_size};
ghost use Rattle.bus_model.specs.BusHistory.{NothingWritten};
ghost use Rattle.bus_model.specs.FlipBus.{flip_history};

mod taggers;

use fakes::CountingBus;
use page_reencrypt::{Account, SealedLines};
use sec_base::{Counter, Geometry, LineStore, MemStop, Place, Tagger};
use std::alloc::Global;
use std::test::Fail;
pub use taggers::{NodesAlike, SomeBytes};

/// Lines over a bus that counts.
#[derive(Drop)]
pub struct Memory<T: Tagger> {
    /// The lines.
    pub lines: SealedLines<CountingBus, T>,
}

impl<T: Tagger> Memory<T> {
    /// Lines over this bus.
    pub fn over(
        alloc: Global,
        bus: CountingBus,
        tagger: T,
        geometry: Geometry,
        page_limit: u64,
    ) -> Result<Memory<T>, Fail>
        requires nothing_written { NothingWritten (flip_history bus) }
        requires geometry { (flip_history bus).geometry ≡ geometry }
    {
        let lines = SealedLines::boot(alloc, bus, tagger, &[7; 16], geometry, page_limit);
        Ok(Memory {
            lines: lines.ok().ok_or("no memory")?,
        })
    }

    /// Writes a line that is the byte 64 times; out of memory where there is no such line.
    pub fn fill(&mut self, line: u32, byte: u8) -> Result<(), MemStop> {
        if line >= self.lines.lines() {
            return Err(MemStop::NoMemory);
        }
        self.lines.write_line(line, &[byte; 64])
    }

    /// Writes a line so many times.
    pub fn wear(&mut self, line: u32, writes: u32, byte: u8) -> Result<(), MemStop> {
        for _ in 0..writes {
            self.fill(line, byte)?;
        }
        Ok(())
    }

    /// Reads a line; out of memory where there is no such line.
    pub fn read(&mut self, line: u32) -> Result<[u8; 64], MemStop> {
        if line >= self.lines.lines() {
            return Err(MemStop::NoMemory);
        }
        self.lines.read_line(line)
    }

    /// What the lines hand out.
    pub fn finish(self) -> (Account, CountingBus) {
        let Memory { lines } = self;
        lines.finish()
    }
}

/// Over a bus for a tree of layout One with so many levels that flips the lowest bit of a byte at the `k`-th read of a place.
pub fn booted<T: Tagger>(
    alloc: Global,
    tagger: T,
    levels: u8,
    page_limit: u64,
    place: Place,
    k: u64,
    offset: u8,
) -> Result<Memory<T>, Fail>
    requires { offset < stored_size (one levels) place }
{
    let geometry = Geometry::new(levels).ok_or("no geometry")?;
    let bus = CountingBus::flipping(alloc, geometry, place, k, offset)?;
    Memory::over(alloc, bus, tagger, geometry, page_limit)
}

/// 256 lines, over a bus that flips a bit at the `k`-th read of a line.
pub fn flipped(
    alloc: Global,
    page_limit: u64,
    line: u32,
    k: u64,
    offset: u8,
) -> Result<Memory<SomeBytes>, Fail>
    requires { offset < 80 }
{
    let place = Place::Line(line);
    booted(alloc, SomeBytes, 1, page_limit, place, k, offset)
}

/// 256 lines, over a bus that tells the truth.
pub fn honest(alloc: Global, page_limit: u64) -> Result<Memory<SomeBytes>, Fail> {
    flipped(alloc, page_limit, 0, 0, 0)
}

/// The line after its first write.
pub fn once(line: u32) -> (u32, Counter) {
    (line, Counter { page: 0, line: 1 })
}
