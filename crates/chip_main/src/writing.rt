// What is written of a program, of a run's trace, of a judge's verdict and of two programs.
ghost use Rattle.std.specs.Prelude.{◌≡◌, ◌<◌, ◌≤◌, ◌^◌, ◌++◌, IfOk, string_bytes, OnOk};
ghost use Rattle.sec_base.specs.Segment.{segment_bytes};
ghost use Rattle.sec_base.specs.Sink.{IsWritten};
ghost use Rattle.chip_main.specs.Texts.{elf_file, measurement_line, trace_file, verdict_line};

use bus_trace::{Difference, Trace};
use chip_words::{difference_line, follows_line, write_line};
use elf_load::measure;
use sec_base::{Image, Sink, SinkStop, write_all};
use std::alloc::{AllocError, Global};

/// Writes a program's ELF file, as one piece.
pub fn write_elf_file<O: Sink>(alloc: Global, image: &Image, out: &mut O) -> Result<(), SinkStop>
    requires small { segment_bytes image.now.segments < 2 ^ 31 }
    ensures told { IsWritten (elf_file image.now) (O.state out.old) (O.state out.new) result }
    ensures faults { (O.state out.old).faults ≤ (O.state out.new).faults }
    ensures quiet { OnOk result ((O.state out.new).faults ≡ (O.state out.old).faults) }
{
    let bytes = elf_load::write(alloc, image)?;
    write_all(out, bytes.as_slice())
}

/// Writes a program's measurement as a line of 64 digits.
pub fn write_measurement<O: Sink>(alloc: Global, image: &Image, out: &mut O) -> Result<(), SinkStop>
    ensures told { IsWritten (measurement_line image.now) (O.state out.old) (O.state out.new)
        result }
    ensures faults { (O.state out.old).faults ≤ (O.state out.new).faults }
    ensures quiet { OnOk result ((O.state out.new).faults ≡ (O.state out.old).faults) }
{
    let line = measurement_text(alloc, image)?;
    write_all(out, line.as_bytes())
}

fn measurement_text(alloc: Global, image: &Image) -> Result<String, AllocError>
    ensures { IfOk result (λ line. string_bytes line ≡ measurement_line image.now) }
{
    let mut line = hex::encode(alloc, measure(image))?;
    line.push_str("\n")?;
    Ok(line)
}

/// Writes a run's trace, as one piece, and nothing where it has none.
pub fn write_trace<O: Sink>(
    alloc: Global,
    trace: &Option<Trace>,
    out: &mut O,
) -> Result<(), SinkStop>
    ensures told { IsWritten (trace_file trace.now) (O.state out.old) (O.state out.new) result }
    ensures faults { (O.state out.old).faults ≤ (O.state out.new).faults }
    ensures quiet { OnOk result ((O.state out.new).faults ≡ (O.state out.old).faults) }
{
    match trace {
        None => Ok(()),
        Some(trace) => {
            let bytes = bus_trace::write(alloc, trace)?;
            write_all(out, bytes.as_slice())
        }
    }
}

/// Writes the verdict on a trace as a line: that it follows, or how it first differs.
pub fn write_verdict<O: Sink>(
    alloc: Global,
    difference: Option<Difference>,
    out: &mut O,
) -> Result<(), SinkStop>
    ensures told { IsWritten (verdict_line difference) (O.state out.old) (O.state out.new)
        result }
    ensures faults { (O.state out.old).faults ≤ (O.state out.new).faults }
    ensures quiet { OnOk result ((O.state out.new).faults ≡ (O.state out.old).faults) }
{
    match difference {
        None => write_line(out, follows_line()),
        Some(difference) => write_line(out, difference_line(alloc, difference)?.as_str()),
    }
}

/// Writes what two programs printed, the first one's bytes and then the second one's.
pub fn write_both<O: Sink>(first: &[u8], second: &[u8], out: &mut O) -> Result<(), SinkStop>
    ensures told { IsWritten (first.now ++ second.now) (O.state out.old) (O.state out.new) result }
    ensures faults { (O.state out.old).faults ≤ (O.state out.new).faults }
    ensures quiet { OnOk result ((O.state out.new).faults ≡ (O.state out.old).faults) }
{
    write_all(out, first)?;
    write_all(out, second)
}
