// What is written of the run of a generated program.
ghost use Rattle.std.specs.Prelude.{◌≡◌, ◌≤◌, map, string_bytes, IfOk, OnOk};
ghost use Rattle.sec_base.specs.Sink.{IsWritten};
ghost use Rattle.chip_words.specs.Texts as spec;

use crate::lines::{ending_line, hex_line, retired_line, write_lines};
use sec_base::{Ending, Sink, SinkStop};
use std::alloc::{AllocError, Global};

/// Writes the number of a generated program, how its run ended, and what it printed, a line at a time.
pub fn write_summary<O: Sink>(
    alloc: Global,
    number: u32,
    ending: Ending,
    retired: u64,
    printed: &[u8],
    out: &mut O,
) -> Result<(), SinkStop>
    ensures told { IsWritten (spec.summary_text number ending retired printed.now) (O.state out.old)
        (O.state out.new) result }
    ensures faults { (O.state out.old).faults ≤ (O.state out.new).faults }
    ensures quiet { OnOk result ((O.state out.new).faults ≡ (O.state out.old).faults) }
{
    let lines = summary_lines(alloc, number, ending, retired, printed)?;
    write_lines(out, &lines)
}

fn summary_lines(
    alloc: Global,
    number: u32,
    ending: Ending,
    retired: u64,
    printed: &[u8],
) -> Result<[String; 4], AllocError>
    ensures { IfOk result (λ lines. map string_bytes lines
        ≡ spec.summary_lines number ending retired printed.now) }
{
    Ok([
        number_line(alloc, number)?,
        ending_line(alloc, ending)?,
        retired_line(alloc, retired)?,
        hex_line(alloc, "output", printed)?,
    ])
}

fn number_line(alloc: Global, number: u32) -> Result<String, AllocError>
    ensures { IfOk result (λ line. string_bytes line ≡ spec.number_line number) }
{
    format!(in alloc; "number {number}\n")
}
