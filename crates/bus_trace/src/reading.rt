// Traces from files.
ghost use Rattle.std.specs.Prelude.{◌≡◌, Ok, Err, IfOk, length};
ghost use Rattle.bus_trace.specs.declared.fault.TraceError.TheVariants.{Fault};
ghost use Rattle.bus_trace.specs.declared.fault.TraceFault.{TraceFault};
ghost use Rattle.bus_trace.specs.Format.{IsInForm, trace_bytes};
ghost use Rattle.bus_trace.specs.Reading.{all_entries_at, behind_magic, first_byte, first_bytes, ending_at, entries_at, entry_at, entry_of_kind, line_at, node_at, node_block_at, outcome_at, output_at, read_trace, sealed_at, sealed_line_at, u32_at, u64_at};
ghost use Rattle.bus_trace.specs.Reads.{IsReadAs, IsReadInMemory};

use crate::entries::Entries;
use crate::entry::Entry;
use crate::fault::{TraceError, TraceFault};
use crate::trace::Trace;
use sec_base::{Bytes, Geometry, Place, Sealed};
use std::alloc::Global;

/// How a trace begins, with its version.
pub(crate) const MAGIC: [u8; 5] = *b"RVTR\x01";

/// The kinds of entries.
pub(crate) const READ_LINE: u8 = 0;

pub(crate) const WRITE_LINE: u8 = 1;

pub(crate) const READ_NODE: u8 = 2;

pub(crate) const WRITE_NODE: u8 = 3;

/// The trace that a file is for a memory of this shape, or else its first fault from the left. `NoMemory` may come at any
/// file.
pub fn parse(alloc: Global, file: &[u8], geometry: Geometry) -> Result<Trace, TraceError>
    ensures trace { IfOk result (λ trace. read_trace geometry file.now ≡ Ok trace) }
    ensures refused { (fault : TraceFault) → result ≡ Err (Fault fault) →
        read_trace geometry file.now ≡ Err fault }

    // Only the bytes of a trace in form are read as that trace.
    ensures form { IfOk result (IsInForm geometry) }
    ensures bytes { IfOk result (λ trace. file.now ≡ trace_bytes trace) }
{
    read(alloc, file, geometry)
}

// The trace, as it is read.
#[tactic(auto, unfolding(crate::specs::Reading::read_trace))]
fn read(alloc: Global, file: &[u8], geometry: Geometry) -> Result<Trace, TraceError>
    ensures { IsReadInMemory (λ trace. trace) result (read_trace geometry file.now) }
{
    let bytes = behind_magic(file)?;
    let (output, bytes) = output_at(bytes)?;
    let ((ending, code, retired), bytes) = outcome_at(bytes)?;
    let (entries, bytes) = all_entries_at(alloc, bytes, geometry)?;
    if !bytes.is_empty() {
        return Err(TraceError::Fault(TraceFault::Rest));
    }
    Ok(Trace {
        output: Bytes::from_slice(alloc, output)?,
        ending,
        code,
        retired,
        entries: Entries::from_vec(entries),
    })
}

// The entries behind their number.
#[tactic(auto, unfolding(crate::specs::Reading::all_entries_at))]
fn all_entries_at(
    alloc: Global,
    bytes: &[u8],
    geometry: Geometry,
) -> Result<(Vec<Entry>, &[u8]), TraceError>
    ensures { IsReadInMemory (λ x. (x.0.items, x.1.now)) result
        (all_entries_at geometry bytes.now) }
{
    let (count, bytes) = u64_at(bytes)?;
    entries_at(alloc, count, bytes, geometry)
}

// So many entries. Each takes bytes of the file, so no more memory is taken than for those that are there.
fn entries_at(
    alloc: Global,
    count: u64,
    bytes: &[u8],
    geometry: Geometry,
) -> Result<(Vec<Entry>, &[u8]), TraceError>
    ensures { IsReadInMemory (λ x. (x.0.items, x.1.now)) result
        (entries_at geometry count bytes.now) }
{
    let mut entries = Vec::new(alloc);
    let mut rest = bytes;
    for _ in 0..count {
        let (entry, after) = entry_at(rest, geometry)?;
        entries.push(entry)?;
        rest = after;
    }
    Ok((entries, rest))
}

// What stands behind the bytes that a trace begins with.
#[tactic(auto, unfolding(crate::specs::Reading::behind_magic))]
fn behind_magic(bytes: &[u8]) -> Result<&[u8], TraceFault>
    ensures { IsReadAs (λ x. x.now) result (behind_magic bytes.now) }
{
    let (magic, rest) = first_bytes(MAGIC.len(), bytes)?;
    if magic != MAGIC.as_slice() {
        return Err(TraceFault::Magic);
    }
    Ok(rest)
}

// The output behind its length.
#[tactic(auto, unfolding(crate::specs::Reading::output_at))]
fn output_at(bytes: &[u8]) -> Result<(&[u8], &[u8]), TraceFault>
    ensures { IsReadAs (λ x. (x.0.now, x.1.now)) result (output_at bytes.now) }
{
    let (len, rest) = u64_at(bytes)?;
    first_bytes(len as usize, rest)
}

// The ending, its code and the retired count.
#[tactic(auto, unfolding(crate::specs::Reading::outcome_at))]
fn outcome_at(bytes: &[u8]) -> Result<((u8, u32, u64), &[u8]), TraceFault>
    ensures { IsReadAs (λ x. (x.0, x.1.now)) result (outcome_at bytes.now) }
{
    let (ending, rest) = ending_at(bytes)?;
    let (code, rest) = u32_at(rest)?;
    let (retired, rest) = u64_at(rest)?;
    Ok(((ending, code, retired), rest))
}

// An ending that makes a trace.
#[tactic(auto, unfolding(crate::specs::Reading::ending_at))]
fn ending_at(bytes: &[u8]) -> Result<(u8, &[u8]), TraceFault>
    ensures { IsReadAs (λ x. (x.0, x.1.now)) result (ending_at bytes.now) }
{
    let (ending, rest) = first_byte(bytes)?;
    match ending {
        0 | 1 | 4 | 5 | 6 => Ok((ending, rest)),
        _ => Err(TraceFault::Kind),
    }
}

// An entry.
#[tactic(auto, unfolding(crate::specs::Reading::entry_at))]
fn entry_at(bytes: &[u8], geometry: Geometry) -> Result<(Entry, &[u8]), TraceFault>
    ensures { IsReadAs (λ x. (x.0, x.1.now)) result (entry_at geometry bytes.now) }
{
    let (kind, rest) = first_byte(bytes)?;
    entry_of_kind(kind, rest, geometry)
}

// The place and the bytes of an entry of this kind.
#[tactic(auto, unfolding(crate::specs::Reading::entry_of_kind))]
fn entry_of_kind(kind: u8, bytes: &[u8], geometry: Geometry) -> Result<(Entry, &[u8]), TraceFault>
    ensures { IsReadAs (λ x. (x.0, x.1.now)) result (entry_of_kind kind geometry bytes.now) }
{
    match kind {
        READ_LINE => {
            let ((line, sealed), rest) = sealed_line_at(bytes, geometry)?;
            Ok((Entry::ReadLine { line, sealed }, rest))
        }
        WRITE_LINE => {
            let ((line, sealed), rest) = sealed_line_at(bytes, geometry)?;
            Ok((Entry::WriteLine { line, sealed }, rest))
        }
        READ_NODE => {
            let (((level, index), block), rest) = node_block_at(bytes, geometry)?;
            let entry = Entry::ReadNode {
                level,
                index,
                block,
            };
            Ok((entry, rest))
        }
        WRITE_NODE => {
            let (((level, index), block), rest) = node_block_at(bytes, geometry)?;
            let entry = Entry::WriteNode {
                level,
                index,
                block,
            };
            Ok((entry, rest))
        }
        _ => Err(TraceFault::Kind),
    }
}

// A line of the memory, and the bytes of its place.
#[tactic(auto, unfolding(crate::specs::Reading::sealed_line_at))]
fn sealed_line_at(bytes: &[u8], geometry: Geometry) -> Result<((u32, Sealed), &[u8]), TraceFault>
    ensures { IsReadAs (λ x. (x.0, x.1.now)) result (sealed_line_at geometry bytes.now) }
{
    let (line, rest) = line_at(bytes, geometry)?;
    let (sealed, rest) = sealed_at(rest)?;
    Ok(((line, sealed), rest))
}

// A node of the tree, and the bytes of its place.
#[tactic(auto, unfolding(crate::specs::Reading::node_block_at))]
fn node_block_at(
    bytes: &[u8],
    geometry: Geometry,
) -> Result<(((u8, u32), [u8; 64]), &[u8]), TraceFault>
    ensures { IsReadAs (λ x. (x.0, x.1.now)) result (node_block_at geometry bytes.now) }
{
    let (node, rest) = node_at(bytes, geometry)?;
    let (block, rest) = array_at(rest)?;
    Ok(((node, block), rest))
}

// A line of the memory.
#[tactic(auto, unfolding(crate::specs::Reading::line_at))]
fn line_at(bytes: &[u8], geometry: Geometry) -> Result<(u32, &[u8]), TraceFault>
    ensures { IsReadAs (λ x. (x.0, x.1.now)) result (line_at geometry bytes.now) }
{
    let (line, rest) = u32_at(bytes)?;
    if !geometry.contains(Place::Line(line)) {
        return Err(TraceFault::Place);
    }
    Ok((line, rest))
}

// A node of the tree: its level and its index.
#[tactic(auto, unfolding(crate::specs::Reading::node_at))]
fn node_at(bytes: &[u8], geometry: Geometry) -> Result<((u8, u32), &[u8]), TraceFault>
    ensures { IsReadAs (λ x. (x.0, x.1.now)) result (node_at geometry bytes.now) }
{
    let (level, rest) = first_byte(bytes)?;
    let (index, rest) = u32_at(rest)?;
    if !geometry.contains(Place::Node { level, index }) {
        return Err(TraceFault::Place);
    }
    Ok(((level, index), rest))
}

// The bytes of a line and their tag.
#[tactic(auto, unfolding(crate::specs::Reading::sealed_at))]
fn sealed_at(bytes: &[u8]) -> Result<(Sealed, &[u8]), TraceFault>
    ensures { IsReadAs (λ x. (x.0, x.1.now)) result (sealed_at bytes.now) }
{
    let (cipher, rest) = array_at(bytes)?;
    let (tag, rest) = array_at(rest)?;
    Ok((Sealed { cipher, tag }, rest))
}

// A number in four bytes, the lowest first.
#[tactic(auto, unfolding(crate::specs::Reading::u32_at))]
fn u32_at(bytes: &[u8]) -> Result<(u32, &[u8]), TraceFault>
    ensures { IsReadAs (λ x. (x.0, x.1.now)) result (u32_at bytes.now) }
{
    let (number, rest) = array_at(bytes)?;
    Ok((u32::from_le_bytes(number), rest))
}

// A number in eight bytes, the lowest first.
#[tactic(auto, unfolding(crate::specs::Reading::u64_at))]
fn u64_at(bytes: &[u8]) -> Result<(u64, &[u8]), TraceFault>
    ensures { IsReadAs (λ x. (x.0, x.1.now)) result (u64_at bytes.now) }
{
    let (number, rest) = array_at(bytes)?;
    Ok((u64::from_le_bytes(number), rest))
}

// So many bytes, as an array.
fn array_at<const N: usize>(bytes: &[u8]) -> Result<([u8; N], &[u8]), TraceFault>
    ensures { IsReadAs (λ x. (x.0, x.1.now)) result (first_bytes N bytes.now) }
{
    let (field, rest) = first_bytes(N, bytes)?;
    let mut array = [0; N];
    array.copy_from_slice(field);
    Ok((array, rest))
}

// So many bytes. How many are left is looked at first.
#[tactic(auto, unfolding(crate::specs::Reading::first_bytes))]
fn first_bytes(count: usize, bytes: &[u8]) -> Result<(&[u8], &[u8]), TraceFault>
    ensures field { IsReadAs (λ x. (x.0.now, x.1.now)) result (first_bytes count bytes.now) }
    ensures long { IfOk result (λ x. length x.0.now ≡ count) }
{
    if bytes.len() < count {
        return Err(TraceFault::Short);
    }
    Ok(bytes.split_at(count))
}

// A byte.
fn first_byte(bytes: &[u8]) -> Result<(u8, &[u8]), TraceFault>
    ensures { IsReadAs (λ x. (x.0, x.1.now)) result (first_byte bytes.now) }
{
    match bytes {
        [] => Err(TraceFault::Short),
        [byte, rest @ ..] => Ok((*byte, rest)),
    }
}
