// Traces as files.
ghost use Rattle.std.specs.Prelude.{◌≡◌, ◌^◌, ◌<◌, ◌++◌, length, Ok, IfOk, OnOk};
ghost use Rattle.sec_base.specs.Geometry.{GeometryView, IsGeometry};
ghost use Rattle.bus_trace.specs.Format.{IsInForm, entries_bytes, entry_bytes, line_bytes, node_bytes, outcome_bytes, output_bytes, trace_bytes};
ghost use Rattle.bus_trace.specs.Reading.{read_trace};

use crate::entry::Entry;
use crate::reading::{MAGIC, READ_LINE, READ_NODE, WRITE_LINE, WRITE_NODE};
use crate::trace::Trace;
use sec_base::{Bytes, NoMemory, Sealed};
use std::alloc::Global;

/// The bytes of a trace: 52 56 54 52 01; the length of the output as u64, and the output; the ending, its code as u32, and
/// the retired count as u64; the number of entries as u64, and the entries. An entry is its kind, its place and its bytes:
/// 0 a read and 1 a write of a line, with its number as u32 and 80 bytes, 2 a read and 3 a write of a node, with its level,
/// its index as u32 and 64 bytes. The lowest byte of a number comes first. Fails only if out of memory.
#[tactic(auto, unfolding(crate::specs::Format::trace_bytes))]
pub fn write(alloc: Global, trace: &Trace) -> Result<Bytes, NoMemory>
    ensures bytes { IfOk result (λ bytes. bytes ≡ trace_bytes trace.now) }

    // The bytes of a trace in form are read as that trace.
    ensures read_back { (geometry : GeometryView) → IsGeometry geometry →
        IsInForm geometry trace.now →
        IfOk result (λ bytes. read_trace geometry bytes ≡ Ok trace.now) }
{
    let mut file = Vec::new(alloc);
    file.extend_from_slice(&MAGIC)?;
    put_output(&mut file, trace.output.as_slice())?;
    put_outcome(&mut file, trace.ending, trace.code, trace.retired)?;
    put_entries(&mut file, trace.entries.as_slice())?;
    Ok(Bytes::from_vec(file))
}

// Puts the output behind its length.
#[tactic(auto, unfolding(crate::specs::Format::output_bytes, crate::specs::Format::u64_bytes))]
fn put_output(file: &mut Vec<u8>, output: &[u8]) -> Result<(), NoMemory>
    ensures few { length output.now < 2 ^ 64 }
    ensures put { OnOk result (file.new.items ≡ file.old.items ++ output_bytes output.now) }
{
    file.extend_from_slice(&(output.len() as u64).to_le_bytes())?;
    file.extend_from_slice(output)?;
    Ok(())
}

// Puts an ending, its code and the retired count.
#[tactic(auto, unfolding(crate::specs::Format::outcome_bytes, crate::specs::Format::u32_bytes, crate::specs::Format::u64_bytes))]
fn put_outcome(file: &mut Vec<u8>, ending: u8, code: u32, retired: u64) -> Result<(), NoMemory>
    ensures { OnOk result (file.new.items ≡ file.old.items ++ outcome_bytes ending code retired) }
{
    file.push(ending)?;
    file.extend_from_slice(&code.to_le_bytes())?;
    file.extend_from_slice(&retired.to_le_bytes())?;
    Ok(())
}

// Puts the entries behind their number.
#[tactic(auto, unfolding(crate::specs::Format::entries_bytes, crate::specs::Format::u64_bytes))]
fn put_entries(file: &mut Vec<u8>, entries: &[Entry]) -> Result<(), NoMemory>
    ensures few { length entries.now < 2 ^ 64 }
    ensures put { OnOk result (file.new.items ≡ file.old.items ++ entries_bytes entries.now) }
{
    file.extend_from_slice(&(entries.len() as u64).to_le_bytes())?;
    for entry in entries {
        put_entry(file, entry)?;
    }
    Ok(())
}

// Puts an entry.
#[tactic(auto, unfolding(crate::specs::Format::entry_bytes))]
fn put_entry(file: &mut Vec<u8>, entry: &Entry) -> Result<(), NoMemory>
    ensures { OnOk result (file.new.items ≡ file.old.items ++ entry_bytes entry.now) }
{
    match entry {
        Entry::ReadLine { line, sealed } => put_line(file, READ_LINE, *line, sealed),
        Entry::WriteLine { line, sealed } => put_line(file, WRITE_LINE, *line, sealed),
        Entry::ReadNode {
            level,
            index,
            block,
        } => put_node(file, READ_NODE, *level, *index, block),
        Entry::WriteNode {
            level,
            index,
            block,
        } => put_node(file, WRITE_NODE, *level, *index, block),
    }
}

// Puts an entry of a line, of this kind.
#[tactic(auto, unfolding(crate::specs::Format::u32_bytes))]
fn put_line(file: &mut Vec<u8>, kind: u8, line: u32, sealed: &Sealed) -> Result<(), NoMemory>
    ensures { OnOk result (file.new.items ≡ file.old.items ++ line_bytes kind line sealed.now) }
{
    file.push(kind)?;
    file.extend_from_slice(&line.to_le_bytes())?;
    file.extend_from_slice(&sealed.cipher)?;
    file.extend_from_slice(&sealed.tag)?;
    Ok(())
}

// Puts an entry of a node, of this kind.
#[tactic(auto, unfolding(crate::specs::Format::u32_bytes))]
fn put_node(
    file: &mut Vec<u8>,
    kind: u8,
    level: u8,
    index: u32,
    block: &[u8; 64],
) -> Result<(), NoMemory>
    ensures { OnOk result (file.new.items
        ≡ file.old.items ++ node_bytes kind level index block.now) }
{
    file.push(kind)?;
    file.push(level)?;
    file.extend_from_slice(&index.to_le_bytes())?;
    file.extend_from_slice(block)?;
    Ok(())
}
