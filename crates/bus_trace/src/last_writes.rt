// What entries wrote last at each place.
ghost use Rattle.std.specs.Prelude.{◌≡◌, OnOk};
ghost use Rattle.std.specs.Str.{bytes_eq};
ghost use Rattle.sec_base.specs.Evidence.{sealed_bytes};
ghost use Rattle.sec_base.specs.declared.place.Place.TheVariants.{Line, Node};
ghost use Rattle.sec_base.specs.Place.{zeros_of};
ghost use Rattle.bus_trace.specs.Entry.{access_of};
ghost use Rattle.bus_trace.specs.FirstFalse.{after_access, is_true};
ghost use Rattle.bus_model.specs.HonestBus.{Keeps, empty_line};
ghost use Rattle.bus_trace.specs.LastWrites.{KeepsNode, last_write};

use crate::entry::Entry;
use sec_base::{NoMemory, Sealed};
use std::alloc::Global;
use std::collections::HashMap;
use std::marker::Model;

/// What entries wrote last at each place.
#[derive(Drop)]
pub(crate) struct LastWrites {
    lines: HashMap<u32, Sealed>,
    nodes: HashMap<(u8, u32), [u8; 64]>,
}

impl Model for LastWrites {
    ghost use Rattle.bus_trace.specs.LastWrites.{LastWritesView};

    ghost Value = { LastWritesView };

    ghost view = { λ kept. record { lines = kept.lines.entries; nodes = kept.nodes.entries } };
}

impl LastWrites {
    /// Nothing was written yet.
    pub(crate) fn new(alloc: Global) -> LastWrites
        ensures { last_write result ≡ zeros_of }
    {
        LastWrites {
            lines: HashMap::new(alloc),
            nodes: HashMap::new(alloc),
        }
    }

    /// Whether an entry is true: a read that gives what was written last at its place, or a write.
    pub(crate) fn is_true(&self, entry: &Entry) -> bool
        ensures { result ≡ is_true (last_write self.now) (access_of entry.now) }
    {
        match entry {
            Entry::ReadLine { line, sealed } => is_same(*sealed, self.line(*line)),
            Entry::ReadNode {
                level,
                index,
                block,
            } => *block == self.node(*level, *index),
            Entry::WriteLine { .. } | Entry::WriteNode { .. } => true,
        }
    }

    /// Keeps what an entry writes. Fails only if out of memory.
    pub(crate) fn put(&mut self, entry: &Entry) -> Result<(), NoMemory>
        ensures { OnOk result (last_write self.new
            ≡ after_access (access_of entry.now) (last_write self.old)) }
    {
        match entry {
            Entry::WriteLine { line, sealed } => keep_line(&mut self.lines, *line, sealed),
            Entry::WriteNode {
                level,
                index,
                block,
            } => keep_node(&mut self.nodes, *level, *index, block),
            Entry::ReadLine { .. } => Ok(()),
            Entry::ReadNode { .. } => Ok(()),
        }
    }

    // What was written last at a line's place.
    fn line(&self, line: u32) -> Sealed
        ensures { sealed_bytes result ≡ last_write self.now (Line line) }
    {
        let empty = Sealed {
            cipher: [0; 64],
            tag: [0; 16],
        };
        self.lines.get(&line).copied().unwrap_or(empty)
    }

    // What was written last at a node's place.
    fn node(&self, level: u8, index: u32) -> [u8; 64]
        ensures { result ≡ last_write self.now (Node level index) }
    {
        self.nodes.get(&(level, index)).copied().unwrap_or([0; 64])
    }
}

// Whether the bytes of two lines, with their tags, are the same.
fn is_same(first: Sealed, second: Sealed) -> bool
    ensures { result ≡ bytes_eq (sealed_bytes first) (sealed_bytes second) }
{
    first == second
}

// What is written at a line's place is kept in place of what was written there before.
fn keep_line(lines: &mut HashMap<u32, Sealed>, line: u32, sealed: &Sealed) -> Result<(), NoMemory>
    ensures { OnOk result (Keeps empty_line line sealed.now lines.old.entries lines.new.entries) }
{
    lines.insert(line, *sealed)?;
    Ok(())
}

// So is what is written at a node's place.
fn keep_node(
    nodes: &mut HashMap<(u8, u32), [u8; 64]>,
    level: u8,
    index: u32,
    block: &[u8; 64],
) -> Result<(), NoMemory>
    ensures { OnOk result (KeepsNode level index block.now nodes.old.entries nodes.new.entries) }
{
    nodes.insert((level, index), *block)?;
    Ok(())
}
