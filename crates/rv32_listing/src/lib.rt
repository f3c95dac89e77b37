//! The listing of a program: its words as lines of text, in the assembly language of this project (docs/FORMATS.md).
#![tactic(auto)]

ghost use Rattle.rv32_listing.specs.Listing.{listing_of};
ghost use Rattle.sec_base.specs.Sink.{IsWritten};
ghost use Rattle.std.specs.Prelude.{◌≤◌, ◌≡◌, OnOk};

mod lines;

use lines::write_bytes;
use sec_base::{Image, Sink, SinkStop};
use std::alloc::Global;

/// Writes the listing of a program, a line in each piece. After an error a front part of the listing was written; no
/// piece is tried again.
///
/// A line is a word of a segment, such as `00000000 00700513 addi a0, zero, 7`: the address, the word, and its text
/// there. Words are cut from a segment's first byte on, at whatever address it stands, and the bytes that are left over
/// at its end have a line each, such as `00000008 ff .byte 0xff`. The zeros behind a segment's bytes have no lines.
pub fn write_listing<S: Sink>(alloc: Global, image: &Image, out: &mut S) -> Result<(), SinkStop>
    ensures listed { IsWritten (listing_of image.now.segments) (S.state out.old) (S.state out.new)
        result }
    ensures faults { (S.state out.old).faults ≤ (S.state out.new).faults }
    ensures quiet { OnOk result ((S.state out.new).faults ≡ (S.state out.old).faults) }
{
    for segment in image.segments.as_slice() {
        write_bytes(alloc, segment.addr, segment.bytes.as_slice(), out)?;
    }
    Ok(())
}
