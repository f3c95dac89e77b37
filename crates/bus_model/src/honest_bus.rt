// A bus that answers what was written.
ghost use Rattle.std.specs.Prelude.{◌≡◌, refl, ◌<◌, IsOk, IfOk, OnOk, OnErr};
ghost use Rattle.std.specs.HashMap.{spare};
ghost use Rattle.sec_base.specs.Evidence.{sealed_bytes};
ghost use Rattle.sec_base.specs.Place.{IsPlace};
ghost use Rattle.sec_base.specs.Tag.{IsTag};
ghost use Rattle.sec_base.specs.declared.place.Place.TheVariants.{Line, Node};
ghost use Rattle.bus_model.specs.Access.{one_read, one_write, CameBy, came_on};
ghost use Rattle.bus_model.specs.BusHistory.{new_history, after_read, after_write};
ghost use Rattle.bus_model.specs.HonestBus.{honest_history, empty_line, empty_node, IsSparse, Keeps};

use crate::bus::Bus;
use sec_base::{Geometry, NoMemory, Sealed};
use std::alloc::Global;
use std::collections::HashMap;
use std::marker::Model;

/// A memory outside the chip that answers what was written, and zeros where nothing was. It keeps only places that are
/// not zeros.
#[derive(Debug, Drop)]
pub struct HonestBus {
    geometry: Geometry,
    lines: HashMap<u32, Sealed>,
    nodes: HashMap<u32, [u8; 64]>,
    line_reads: Vec<u64>,
    node_reads: Vec<u64>,
    accesses: u64,
}

impl Model for HonestBus {
    ghost use Rattle.std.specs.Prelude.{◌≡◌, length, min};
    ghost use Rattle.std.specs.HashMap.{spare};
    ghost use Rattle.sec_base.specs.Geometry.{line_count, node_end};
    ghost use Rattle.bus_model.specs.HonestBus.{HonestBusView, HoldsTags, IsSparse, empty_line, empty_node};

    ghost Value = { HonestBusView };

    ghost view = { λ bus. record {
      geometry = bus.geometry;
      lines = bus.lines.entries;
      nodes = bus.nodes.entries;
      room = min (spare bus.lines) (spare bus.nodes);
      line_reads = bus.line_reads.items;
      node_reads = bus.node_reads.items;
      accesses = bus.accesses;
    } };

    ghost invariant = { λ bus.
        (length bus.line_reads.items ≡ line_count bus.geometry)
        × (length bus.node_reads.items ≡ node_end bus.geometry)
        × HoldsTags bus.geometry.layout bus.lines.entries
        × IsSparse empty_line bus.lines.entries
        × IsSparse empty_node bus.nodes.entries };
}

impl HonestBus {
    /// A memory of zeros for this tree. It is refused only out of memory.
    pub fn new(alloc: Global, geometry: Geometry) -> Result<HonestBus, NoMemory>
        ensures { IfOk result (λ bus. honest_history bus ≡ new_history geometry) }
    {
        Ok(HonestBus {
            geometry,
            lines: HashMap::new(alloc),
            nodes: HashMap::new(alloc),
            line_reads: vec![in alloc; 0; geometry.lines() as usize]?,
            node_reads: vec![in alloc; 0; geometry.node_end() as usize]?,
            accesses: 0,
        })
    }

    /// Takes memory for one more place, so that the next write isn't refused.
    pub fn make_room(&mut self) -> Result<(), NoMemory>
        ensures history { honest_history self.new ≡ honest_history self.old }
        ensures taken { OnOk result (0 < self.new.room) }
    {
        self.lines.reserve(1)?;
        self.nodes.reserve(1)?;
        Ok(())
    }
}

impl HonestBus {
    /// How often the line's place was read.
    pub fn line_reads(&self, line: u32) -> u64
        requires { IsPlace self.now.geometry (Line line) }
        ensures { result ≡ (honest_history self.now).reads (Line line) }
    {
        self.line_reads[line as usize]
    }

    /// How often the node's place was read.
    pub fn node_reads(&self, level: u8, index: u32) -> u64
        requires { IsPlace self.now.geometry (Node level index) }
        ensures { result ≡ (honest_history self.now).reads (Node level index) }
    {
        self.node_reads[self.geometry.node_number(level, index) as usize]
    }

    /// How many reads and writes there were.
    pub fn accesses(&self) -> u64
        ensures { result ≡ (honest_history self.now).accesses }
    {
        self.accesses
    }
}

impl Bus for HonestBus {
    ghost history = { honest_history };

    ghost moved = { λ old accesses new. CameBy (honest_history old) accesses (honest_history new) };

    ghost unmoved = { λ _. refl };

    ghost moved_on = { λ first second third. came_on (honest_history first) (honest_history second) (honest_history third) };

    ghost told = { λ _ _ _ moved. moved };

    /// What was written at the line's place.
    fn read_data(&mut self, line: u32) -> Result<Sealed, NoMemory>
        requires inside { IsPlace (honest_history self.old).geometry (Line line) }

        ensures is_ok { IsOk result }
        ensures answer { IfOk result (λ sealed. sealed_bytes sealed
            ≡ (honest_history self.old).written (Line line)) }

        ensures access { CameBy (honest_history self.old) (one_read (Line line) sealed_bytes result)
            (honest_history self.new) }
        ensures fits { IfOk result (λ sealed. IsTag (honest_history self.old).geometry.layout
            sealed.tag) }
        ensures geometry { (honest_history self.new).geometry ≡ (honest_history self.old).geometry }
    {
        self.accesses = self.accesses.saturating_add(1);
        let reads = &mut self.line_reads[line as usize];
        *reads = reads.saturating_add(1);
        Ok(self.lines.get(&line).copied().unwrap_or(no_line()))
    }

    /// It isn't refused where there is room.
    fn write_data(&mut self, line: u32, sealed: &Sealed) -> Result<(), NoMemory>
        requires inside { IsPlace (honest_history self.old).geometry (Line line) }
        requires fits { IsTag (honest_history self.old).geometry.layout sealed.now.tag }

        ensures sure { 0 < self.old.room → IsOk result }

        ensures access { CameBy (honest_history self.old)
            (one_write (Line line) (sealed_bytes sealed.now) result) (honest_history self.new) }
        ensures geometry { (honest_history self.new).geometry ≡ (honest_history self.old).geometry }
    {
        keep_line(&mut self.lines, line, sealed)?;
        self.accesses = self.accesses.saturating_add(1);
        Ok(())
    }

    /// What was written at the node's place.
    fn read_node(&mut self, level: u8, index: u32) -> Result<[u8; 64], NoMemory>
        requires inside { IsPlace (honest_history self.old).geometry (Node level index) }

        ensures is_ok { IsOk result }
        ensures answer { IfOk result (λ block. block
            ≡ (honest_history self.old).written (Node level index)) }

        ensures access { CameBy (honest_history self.old)
            (one_read (Node level index) (λ block. block) result) (honest_history self.new) }
        ensures geometry { (honest_history self.new).geometry ≡ (honest_history self.old).geometry }
    {
        self.accesses = self.accesses.saturating_add(1);
        let number = self.geometry.node_number(level, index);
        let reads = &mut self.node_reads[number as usize];
        *reads = reads.saturating_add(1);
        Ok(self.nodes.get(&number).copied().unwrap_or([0; 64]))
    }

    /// It isn't refused where there is room.
    fn write_node(&mut self, level: u8, index: u32, block: &[u8; 64]) -> Result<(), NoMemory>
        requires inside { IsPlace (honest_history self.old).geometry (Node level index) }

        ensures sure { 0 < self.old.room → IsOk result }

        ensures access { CameBy (honest_history self.old)
            (one_write (Node level index) block.now result) (honest_history self.new) }
        ensures geometry { (honest_history self.new).geometry ≡ (honest_history self.old).geometry }
    {
        let number = self.geometry.node_number(level, index);
        keep_node(&mut self.nodes, number, block)?;
        self.accesses = self.accesses.saturating_add(1);
        Ok(())
    }
}

// A line of zeros under a tag of zeros.
fn no_line() -> Sealed
    ensures { result ≡ empty_line }
{
    Sealed {
        cipher: [0; 64],
        tag: [0; 16],
    }
}

// A place that is written with zeros is no longer kept.
fn keep_line(lines: &mut HashMap<u32, Sealed>, line: u32, sealed: &Sealed) -> Result<(), NoMemory>
    ensures sure { 0 < spare lines.old → IsOk result }
    ensures ok { OnOk result (Keeps empty_line line sealed.now lines.old.entries
        lines.new.entries) }
    ensures err { OnErr result (lines.new.entries ≡ lines.old.entries) }
    ensures sparse { IsSparse empty_line lines.old.entries → IsSparse empty_line lines.new.entries }
{
    if *sealed == no_line() {
        lines.remove(&line);
    } else {
        lines.insert(line, *sealed)?;
    }
    Ok(())
}

fn keep_node(
    nodes: &mut HashMap<u32, [u8; 64]>,
    number: u32,
    block: &[u8; 64],
) -> Result<(), NoMemory>
    ensures sure { 0 < spare nodes.old → IsOk result }
    ensures ok { OnOk result (Keeps empty_node number block.now nodes.old.entries
        nodes.new.entries) }
    ensures err { OnErr result (nodes.new.entries ≡ nodes.old.entries) }
    ensures sparse { IsSparse empty_node nodes.old.entries → IsSparse empty_node nodes.new.entries }
{
    if *block == [0; 64] {
        nodes.remove(&number);
    } else {
        nodes.insert(number, *block)?;
    }
    Ok(())
}
