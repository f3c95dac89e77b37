// How a program is stored in memory.
ghost use Rattle.std.specs.Prelude.{◌≡◌, ◌+◌, ◌<◌, ◌≤◌, ◌^◌, ℕ, List, [], ◌∷◌, None, Some, IfOk, IfErr, OnOk, length, slice_index, replicate};
ghost use Rattle.sec_base.specs.Geometry.{line_of};
ghost use Rattle.sec_base.specs.Ram.{GoesOn};
ghost use Rattle.sec_base.specs.Opening.{segment_memory, with_segment, opening_memory};
ghost use Rattle.sec_base.specs.Segment.{IsSegment};
ghost use Rattle.sec_base.specs.Width.{number_bytes};
ghost use Rattle.sec_base.specs.declared.width.Width.TheVariants.{Four};
ghost use Rattle.rv32_core.specs.State.{memory_bytes, with_bytes};
ghost use Rattle.rv32_core.specs.TouchedLines.{AreTouched};
ghost use Rattle.rv32_run.specs.StoredLines.{IsStoreOf, image_lines, segment_lines};

use sec_base::{Image, MemStop, Ram, Segment, Width};

/// Stores a program's segments over zeros, in order: each segment's bytes, and zeros up to its length. Only a stop of
/// the memory refuses it.
pub fn store_image<M: Ram>(ram: &mut M, image: &Image) -> Result<(), MemStop>
    requires extent { M.extent ram.old ≡ image.now.size }
    requires zeros { M.sound ram.old → M.contents ram.old ≡ replicate image.now.size 0 }
    requires going { M.stopped ram.old ≡ None }

    ensures stored { M.sound ram.new →
        OnOk result (M.contents ram.new ≡ opening_memory image.now.size image.now.segments) }

    ensures goes_on { OnOk result (M.stopped ram.new ≡ None) }
    ensures stops { IfErr result (λ stop. M.stopped ram.new ≡ Some stop) }

    ensures moved { GoesOn M.extent M.sound M.moved
        (λ lines. AreTouched result (image_lines image.now.segments) lines) ram.old ram.new }
{
    for segment in image.segments.as_slice() {
        store_segment(ram, segment)?;
    }
    Ok(())
}

// Stores a segment's bytes, and zeros up to its length.
fn store_segment<M: Ram>(ram: &mut M, segment: &Segment) -> Result<(), MemStop>
    requires segment { IsSegment (M.extent ram.old) segment.now }
    requires small { M.extent ram.old < 2 ^ 32 }
    requires going { M.stopped ram.old ≡ None }

    ensures stored { M.sound ram.new →
        OnOk result (M.contents ram.new ≡ with_segment (M.contents ram.old) segment.now) }

    ensures goes_on { OnOk result (M.stopped ram.new ≡ None) }
    ensures stops { IfErr result (λ stop. M.stopped ram.new ≡ Some stop) }

    ensures moved { GoesOn M.extent M.sound M.moved
        (λ lines. AreTouched result (segment_lines segment.now) lines) ram.old ram.new }
{
    let mut at = 0;
    while at < segment.length {
        at += store_next(ram, segment, at)?;
    }
    Ok(())
}

// Stores the next word of a segment's memory, or a byte where no word begins, and returns how many bytes it stored.
fn store_next<M: Ram>(ram: &mut M, segment: &Segment, at: u32) -> Result<u32, MemStop>
    requires segment { IsSegment (M.extent ram.old) segment.now }
    requires small { M.extent ram.old < 2 ^ 32 }
    requires below { at < segment.now.length }
    requires going { M.stopped ram.old ≡ None }

    ensures stored { M.sound ram.new → IfOk result (λ count. M.contents ram.new
        ≡ with_bytes (M.contents ram.old) (segment.now.addr + at)
        (memory_bytes (segment_memory segment.now) at count)) }
    ensures count { IfOk result (λ count. IsStoreOf segment.now at count) }
    ensures some { IfOk result (λ count. 0 < count) }
    ensures most { IfOk result (λ count. at + count ≤ segment.now.length) }

    ensures goes_on { OnOk result (M.stopped ram.new ≡ None) }
    ensures stops { IfErr result (λ stop. M.stopped ram.new ≡ Some stop) }

    ensures moved { GoesOn M.extent M.sound M.moved
        (λ lines. AreTouched result (line_of (segment.now.addr + at) ∷ []) lines) ram.old ram.new }
{
    let addr = segment.addr + at;
    if addr % 4 == 0 && segment.length - at >= 4 {
        ram.store(addr, Width::Four, word_at(segment, at))?;
        Ok(4)
    } else {
        ram.store(addr, Width::One, u32::from(byte_at(segment, at)))?;
        Ok(1)
    }
}

// The word of a segment's memory from a place on.
fn word_at(segment: &Segment, at: u32) -> u32
    requires bytes { length segment.now.bytes ≤ segment.now.length }
    requires inside { at + 4 ≤ segment.now.length }
    requires small { at + 4 < 2 ^ 32 }
    ensures { number_bytes Four result ≡ memory_bytes (segment_memory segment.now) at 4 }
{
    u32::from_le_bytes([
        byte_at(segment, at),
        byte_at(segment, at + 1),
        byte_at(segment, at + 2),
        byte_at(segment, at + 3),
    ])
}

// A byte of a segment's memory.
fn byte_at(segment: &Segment, at: u32) -> u8
    ensures { result ≡ slice_index (segment_memory segment.now) at }
{
    match segment.bytes.as_slice().get(at as usize) {
        Some(byte) => *byte,
        None => 0,
    }
}
