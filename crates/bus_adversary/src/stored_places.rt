// The bytes that stand at all places.
ghost use Rattle.bus_adversary.specs.StoredPlaces.{EndsInZeros, bytes_at, empty_line, empty_node, new_places, with_place};
ghost use Rattle.bus_model.specs.HonestBus.{IsSparse, Keeps, kept_at};
ghost use Rattle.sec_base.specs.Place.{IsPlace};
ghost use Rattle.sec_base.specs.declared.place.Place.TheVariants.{Line, Node};
ghost use Rattle.std.specs.Prelude.{IfOk, OnErr, OnOk, ◌≡◌};

use sec_base::{Geometry, NoMemory};
use std::alloc::Global;
use std::collections::HashMap;
use std::marker::Model;

// The bytes of a line's place, the last 16 of which are its tag.
#[derive(Clone, Copy, Debug, PartialEq, Eq)]
struct LineBytes {
    bytes: [u8; 80],
}

// The bytes of a node's place.
#[derive(Clone, Copy, Debug, PartialEq, Eq)]
struct NodeBytes {
    bytes: [u8; 64],
}

/// The bytes that stand at each place. It keeps only places that are not zeros.
#[derive(Debug, Drop)]
pub struct StoredPlaces {
    geometry: Geometry,
    lines: HashMap<u32, LineBytes>,
    nodes: HashMap<u32, NodeBytes>,
}

impl Model for StoredPlaces {
    ghost use Rattle.bus_adversary.specs.StoredPlaces.{EndInZeros, StoredPlacesView, all_kept, empty_line, empty_node};
    ghost use Rattle.bus_model.specs.HonestBus.{IsSparse};
    ghost use Rattle.sec_base.specs.Geometry.{line_count, node_end};

    ghost Value = { StoredPlacesView };

    ghost view = { λ places. record {
      geometry = places.geometry;
      lines = all_kept (line_count places.geometry) empty_line places.lines.entries;
      nodes = all_kept (node_end places.geometry) empty_node places.nodes.entries;
    } };

    ghost invariant = { λ places.
        EndInZeros places.geometry (all_kept (line_count places.geometry) empty_line places.lines.entries)
        × IsSparse empty_line places.lines.entries
        × IsSparse empty_node places.nodes.entries };
}

impl StoredPlaces {
    // Zeros at each place, which takes no memory.
    pub(crate) fn new(alloc: Global, geometry: Geometry) -> StoredPlaces
        ensures { result ≡ new_places geometry }
    {
        StoredPlaces {
            geometry,
            lines: HashMap::new(alloc),
            nodes: HashMap::new(alloc),
        }
    }

    pub(crate) fn line(&self, line: u32) -> [u8; 80]
        requires { IsPlace self.now.geometry (Line line) }
        ensures bytes { result ≡ bytes_at self.now (Line line) }
        ensures fits { EndsInZeros self.now.geometry result }
    {
        kept_line(&self.lines, line).bytes
    }

    pub(crate) fn node(&self, level: u8, index: u32) -> [u8; 64]
        requires { IsPlace self.now.geometry (Node level index) }
        ensures { result ≡ bytes_at self.now (Node level index) }
    {
        kept_node(&self.nodes, self.geometry.node_number(level, index)).bytes
    }

    pub(crate) fn set_line(&mut self, line: u32, bytes: [u8; 80]) -> Result<(), NoMemory>
        requires inside { IsPlace self.old.geometry (Line line) }
        requires fits { EndsInZeros self.old.geometry bytes }
        ensures ok { OnOk result (self.new ≡ with_place (Line line) bytes self.old) }
        ensures here { OnOk result (bytes_at self.new (Line line) ≡ bytes) }
        ensures err { OnErr result (self.new ≡ self.old) }
    {
        keep_line(&mut self.lines, line, LineBytes { bytes })?;
        Ok(())
    }

    pub(crate) fn set_node(
        &mut self,
        level: u8,
        index: u32,
        bytes: [u8; 64],
    ) -> Result<(), NoMemory>
        requires { IsPlace self.old.geometry (Node level index) }
        ensures ok { OnOk result (self.new ≡ with_place (Node level index) bytes self.old) }
        ensures here { OnOk result (bytes_at self.new (Node level index) ≡ bytes) }
        ensures err { OnErr result (self.new ≡ self.old) }
    {
        let number = self.geometry.node_number(level, index);
        keep_node(&mut self.nodes, number, NodeBytes { bytes })?;
        Ok(())
    }

    // The same bytes once more.
    pub(crate) fn copy(&self) -> Result<StoredPlaces, NoMemory>
        ensures { IfOk result (λ places. places ≡ self.now) }
    {
        Ok(StoredPlaces {
            geometry: self.geometry,
            lines: copy_lines(&self.lines)?,
            nodes: copy_nodes(&self.nodes)?,
        })
    }
}

fn kept_line(lines: &HashMap<u32, LineBytes>, line: u32) -> LineBytes
    ensures { result ≡ kept_at empty_line lines.now.entries line }
{
    lines.get(&line).copied().unwrap_or(no_line())
}

fn kept_node(nodes: &HashMap<u32, NodeBytes>, number: u32) -> NodeBytes
    ensures { result ≡ kept_at empty_node nodes.now.entries number }
{
    nodes.get(&number).copied().unwrap_or(no_node())
}

// A place that is put to zeros is no longer kept.
fn keep_line(
    lines: &mut HashMap<u32, LineBytes>,
    line: u32,
    bytes: LineBytes,
) -> Result<(), NoMemory>
    ensures ok { OnOk result (Keeps empty_line line bytes lines.old.entries lines.new.entries) }
    ensures err { OnErr result (lines.new.entries ≡ lines.old.entries) }
    ensures sparse { IsSparse empty_line lines.old.entries → IsSparse empty_line lines.new.entries }
{
    if bytes == no_line() {
        lines.remove(&line);
    } else {
        lines.insert(line, bytes)?;
    }
    Ok(())
}

fn keep_node(
    nodes: &mut HashMap<u32, NodeBytes>,
    number: u32,
    bytes: NodeBytes,
) -> Result<(), NoMemory>
    ensures ok { OnOk result (Keeps empty_node number bytes nodes.old.entries nodes.new.entries) }
    ensures err { OnErr result (nodes.new.entries ≡ nodes.old.entries) }
    ensures sparse { IsSparse empty_node nodes.old.entries → IsSparse empty_node nodes.new.entries }
{
    if bytes == no_node() {
        nodes.remove(&number);
    } else {
        nodes.insert(number, bytes)?;
    }
    Ok(())
}

fn copy_lines(lines: &HashMap<u32, LineBytes>) -> Result<HashMap<u32, LineBytes>, NoMemory>
    ensures { IfOk result (λ copy. copy.entries ≡ lines.now.entries) }
{
    Ok(lines.clone()?)
}

fn copy_nodes(nodes: &HashMap<u32, NodeBytes>) -> Result<HashMap<u32, NodeBytes>, NoMemory>
    ensures { IfOk result (λ copy. copy.entries ≡ nodes.now.entries) }
{
    Ok(nodes.clone()?)
}

fn no_line() -> LineBytes
    ensures { result ≡ empty_line }
{
    LineBytes { bytes: [0; 80] }
}

fn no_node() -> NodeBytes
    ensures { result ≡ empty_node }
{
    NodeBytes { bytes: [0; 64] }
}
