// Lines of texts, and how they are written.
ghost use Rattle.std.specs.Prelude.{◌≡◌, ◌≤◌, map, IfOk, string_bytes, OnOk};
ghost use Rattle.std.specs.List.{concat};
ghost use Rattle.sec_base.specs.Sink.{IsWritten};
ghost use Rattle.chip_words.specs.Texts as spec;

use sec_base::{Ending, Sink, SinkStop, write_all};
use std::alloc::{AllocError, Global};

/// Writes a text of lines, each as one piece. After an error no further line is written.
pub(crate) fn write_lines<N: Sink>(note: &mut N, lines: &[String]) -> Result<(), SinkStop>
    ensures told { IsWritten (concat (map string_bytes lines.now)) (N.state note.old)
        (N.state note.new) result }
    ensures faults { (N.state note.old).faults ≤ (N.state note.new).faults }
    ensures quiet { OnOk result ((N.state note.new).faults ≡ (N.state note.old).faults) }
{
    for line in lines {
        write_line(note, line.as_str())?;
    }
    Ok(())
}

/// Writes a line of a text, as one piece.
pub fn write_line<N: Sink>(note: &mut N, line: &str) -> Result<(), SinkStop>
    ensures told { IsWritten line.now (N.state note.old) (N.state note.new) result }
    ensures faults { (N.state note.old).faults ≤ (N.state note.new).faults }
    ensures quiet { OnOk result ((N.state note.new).faults ≡ (N.state note.old).faults) }
{
    write_all(note, line.as_bytes())
}

/// How a run ended.
pub(crate) fn ending_line(alloc: Global, ending: Ending) -> Result<String, AllocError>
    ensures { IfOk result (λ line. string_bytes line ≡ spec.ending_line ending) }
{
    format!(in alloc; "{ending}\n")
}

/// How many instructions were retired.
pub(crate) fn retired_line(alloc: Global, retired: u64) -> Result<String, AllocError>
    ensures { IfOk result (λ line. string_bytes line ≡ spec.retired_line retired) }
{
    format!(in alloc; "retired {retired}\n")
}

/// A line of bytes, each as two digits, behind what they are.
pub(crate) fn hex_line(alloc: Global, name: &str, bytes: &[u8]) -> Result<String, AllocError>
    ensures { IfOk result (λ text. string_bytes text ≡ spec.hex_line name.now bytes.now) }
{
    let digits = hex::encode(alloc, bytes)?;
    format!(in alloc; "{name} {digits}\n")
}
