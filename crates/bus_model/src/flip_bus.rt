// A bus that is honest but for one answer.
ghost use Rattle.std.specs.Prelude.{◌≡◌, refl, ◌<◌, if◌then◌else◌, IsOk, IfOk, OnOk, OnErr};
ghost use Rattle.sec_base.specs.Evidence.{sealed_bytes};
ghost use Rattle.sec_base.specs.Place.{IsPlace, stored_size};
ghost use Rattle.sec_base.specs.Tag.{IsTag};
ghost use Rattle.sec_base.specs.declared.place.Place.TheVariants.{Line, Node};
ghost use Rattle.bus_model.specs.Access.{one_read, one_write, CameBy, came_on};
ghost use Rattle.bus_model.specs.BusHistory.{new_history, after_read, after_write};
ghost use Rattle.bus_model.specs.FlipBus.{flip_history, is_due, with_flip, next_answer};

use crate::bus::Bus;
use crate::honest_bus::HonestBus;
use crate::lies::Lies;
use sec_base::{Geometry, NoMemory, Place, Sealed};
use std::alloc::Global;
use std::marker::Model;

// The read of a place, from 1 on, whose answer is xored with the mask at the offset.
#[derive(Clone, Copy, Debug)]
struct Flip {
    place: Place,
    read: u64,
    offset: u8,
    mask: u8,
}

/// An honest bus but for one read of one place. What is stored there stays.
#[derive(Debug, Drop)]
pub struct FlipBus {
    bus: HonestBus,
    flip: Flip,
    lies: Lies,
}

impl Model for FlipBus {
    ghost use Rattle.std.specs.Prelude.{◌<◌};
    ghost use Rattle.sec_base.specs.Place.{stored_size};
    ghost use Rattle.bus_model.specs.FlipBus.{FlipBusView};

    ghost Value = { FlipBusView };

    ghost view = { λ bus. record { kept = bus.bus; flip = bus.flip; lies = bus.lies } };

    ghost invariant = { λ bus. bus.flip.offset < stored_size bus.bus.geometry bus.flip.place };
}

impl FlipBus {
    /// A memory of zeros for this tree, whose `k`-th read of the place, from 1, is to be xored with the mask at
    /// the offset. It is refused only out of memory.
    pub fn new(
        alloc: Global,
        geometry: Geometry,
        place: Place,
        k: u64,
        offset: u8,
        mask: u8,
    ) -> Result<FlipBus, NoMemory>
        requires inside { offset < stored_size geometry place }

        ensures history { IfOk result (λ bus. flip_history bus ≡ new_history geometry) }
        ensures flip { IfOk result (λ bus. bus.flip
            ≡ record { place = place; read = k; offset = offset; mask = mask }) }
    {
        Ok(FlipBus {
            bus: HonestBus::new(alloc, geometry)?,
            flip: Flip {
                place,
                read: k,
                offset,
                mask,
            },
            lies: Lies::none(),
        })
    }

    /// How many answers were false.
    pub fn lies(&self) -> u64
        ensures { result ≡ (flip_history self.now).lies }
    {
        self.lies.count
    }
}

impl Bus for FlipBus {
    ghost history = { flip_history };

    ghost moved = { λ old accesses new. CameBy (flip_history old) accesses (flip_history new) };

    ghost unmoved = { λ _. refl };

    ghost moved_on = { λ first second third. came_on (flip_history first) (flip_history second) (flip_history third) };

    ghost told = { λ _ _ _ moved. moved };

    /// What was written at the line's place, but for the one read.
    fn read_data(&mut self, line: u32) -> Result<Sealed, NoMemory>
        requires inside { IsPlace (flip_history self.old).geometry (Line line) }

        ensures is_ok { IsOk result }
        ensures answer { IfOk result (λ sealed. sealed_bytes sealed
            ≡ next_answer self.old.flip (flip_history self.old) (Line line)) }
        ensures flip { self.new.flip ≡ self.old.flip }

        ensures access { CameBy (flip_history self.old) (one_read (Line line) sealed_bytes result)
            (flip_history self.new) }
        ensures fits { IfOk result (λ sealed. IsTag (flip_history self.old).geometry.layout
            sealed.tag) }
        ensures geometry { (flip_history self.new).geometry ≡ (flip_history self.old).geometry }
    {
        let due = is_due(&self.flip, Place::Line(line), self.bus.line_reads(line));
        let written = self.bus.read_data(line)?;
        let answer = answer_sealed(&self.flip, due, &written);
        let access = self.bus.accesses();
        self.lies.judge_sealed(access, line, &written, &answer);
        Ok(answer)
    }

    fn write_data(&mut self, line: u32, sealed: &Sealed) -> Result<(), NoMemory>
        requires inside { IsPlace (flip_history self.old).geometry (Line line) }
        requires fits { IsTag (flip_history self.old).geometry.layout sealed.now.tag }

        ensures flip { self.new.flip ≡ self.old.flip }
        ensures access { CameBy (flip_history self.old)
            (one_write (Line line) (sealed_bytes sealed.now) result) (flip_history self.new) }
        ensures geometry { (flip_history self.new).geometry ≡ (flip_history self.old).geometry }
    {
        self.bus.write_data(line, sealed)?;
        Ok(())
    }

    /// What was written at the node's place, but for the one read.
    fn read_node(&mut self, level: u8, index: u32) -> Result<[u8; 64], NoMemory>
        requires inside { IsPlace (flip_history self.old).geometry (Node level index) }

        ensures is_ok { IsOk result }
        ensures answer { IfOk result (λ block. block
            ≡ next_answer self.old.flip (flip_history self.old) (Node level index)) }
        ensures flip { self.new.flip ≡ self.old.flip }

        ensures access { CameBy (flip_history self.old)
            (one_read (Node level index) (λ block. block) result) (flip_history self.new) }
        ensures geometry { (flip_history self.new).geometry ≡ (flip_history self.old).geometry }
    {
        let place = Place::Node { level, index };
        let due = is_due(&self.flip, place, self.bus.node_reads(level, index));
        let written = self.bus.read_node(level, index)?;
        let answer = answer_block(&self.flip, due, &written);
        let access = self.bus.accesses();
        self.lies
            .judge_block(access, level, index, &written, &answer);
        Ok(answer)
    }

    fn write_node(&mut self, level: u8, index: u32, block: &[u8; 64]) -> Result<(), NoMemory>
        requires inside { IsPlace (flip_history self.old).geometry (Node level index) }

        ensures flip { self.new.flip ≡ self.old.flip }
        ensures access { CameBy (flip_history self.old)
            (one_write (Node level index) block.now result) (flip_history self.new) }
        ensures geometry { (flip_history self.new).geometry ≡ (flip_history self.old).geometry }
    {
        self.bus.write_node(level, index, block)?;
        Ok(())
    }
}

// Whether the next read of a place is the one that is changed, after so many reads of it.
fn is_due(flip: &Flip, place: Place, reads: u64) -> bool
    ensures { result ≡ is_due flip.now place reads }
{
    place == flip.place && flip.read > 0 && reads == flip.read - 1
}

// Xors the byte at an offset, where there is one.
#[tactic(auto, unfolding(crate::specs::FlipBus::with_flip))]
fn flip_byte(bytes: &mut [u8], offset: usize, mask: u8)
    ensures { bytes.new ≡ with_flip offset mask bytes.old }
{
    if offset < bytes.len() {
        bytes[offset] ^= mask;
    }
}

// The answer to a read that is due to be changed, or isn't.
fn answer_block(flip: &Flip, due: bool, block: &[u8; 64]) -> [u8; 64]
    ensures { result ≡ (if due then with_flip flip.now.offset flip.now.mask block.now else
        block.now) }
{
    if due {
        flip_block(block, flip.offset, flip.mask)
    } else {
        *block
    }
}

fn answer_sealed(flip: &Flip, due: bool, sealed: &Sealed) -> Sealed
    ensures { sealed_bytes result
        ≡ (if due then with_flip flip.now.offset flip.now.mask (sealed_bytes sealed.now) else
        sealed_bytes sealed.now) }
{
    if due {
        flip_sealed(sealed, flip.offset, flip.mask)
    } else {
        *sealed
    }
}

fn flip_block(block: &[u8; 64], offset: u8, mask: u8) -> [u8; 64]
    ensures { result ≡ with_flip offset mask block.now }
{
    let mut answer = *block;
    flip_byte(&mut answer, offset as usize, mask);
    answer
}

// The tag stands behind the 64 bytes of the line.
fn flip_sealed(sealed: &Sealed, offset: u8, mask: u8) -> Sealed
    ensures { sealed_bytes result ≡ with_flip offset mask (sealed_bytes sealed.now) }
{
    let mut cipher = sealed.cipher;
    let mut tag = sealed.tag;
    if offset < 64 {
        flip_byte(&mut cipher, offset as usize, mask);
    } else {
        flip_byte(&mut tag, offset as usize - 64, mask);
    }
    Sealed { cipher, tag }
}
