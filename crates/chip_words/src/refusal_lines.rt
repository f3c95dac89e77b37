// What is told of words or a file that are refused: of a file by the number and the name of the rule that it breaks.
ghost use Rattle.std.specs.Prelude.{◌≡◌, ◌≤◌, IfOk, string_bytes, OnOk};
ghost use Rattle.sec_base.specs.Sink.{IsWritten};
ghost use Rattle.chip_words.specs.Texts as spec;

use crate::fault::ValueFault;
use crate::lines::write_line;
use sec_base::{Sink, SinkStop};
use std::alloc::{AllocError, Global};

/// Tells that `clap` doesn't take the words, and its own text about them.
pub fn tell_usage<N: Sink>(text: &str, note: &mut N) -> Result<(), SinkStop>
    ensures told { IsWritten (spec.usage_text text.now) (N.state note.old) (N.state note.new)
        result }
    ensures faults { (N.state note.old).faults ≤ (N.state note.new).faults }
    ensures quiet { OnOk result ((N.state note.new).faults ≡ (N.state note.old).faults) }
{
    write_line(note, "usage\n")?;
    write_line(note, text)
}

/// The line of a value that is refused.
pub fn value_fault_line(alloc: Global, fault: ValueFault) -> Result<String, AllocError>
    ensures { IfOk result (λ text. string_bytes text ≡ spec.value_fault_line fault) }
{
    format!(in alloc; "usage {fault}\n")
}

/// The line of a file that could not be read.
pub fn read_fault_line() -> &'static str
    ensures { result.now ≡ spec.read_fault_line }
{
    "read fault\n"
}

/// The line of a file that is longer than any of its form that is read.
pub fn long_file_line() -> &'static str
    ensures { result.now ≡ spec.long_file_line }
{
    "refused long\n"
}

/// The line of a report that has another tag than the device gives.
pub fn tag_differs_line() -> &'static str
    ensures { result.now ≡ spec.tag_differs_line }
{
    "report tag differs\n"
}

/// The line of an ELF file or a flat file that is no program for the memory.
pub fn elf_fault_line(alloc: Global, code: u8, name: &str) -> Result<String, AllocError>
    ensures { IfOk result (λ line. string_bytes line ≡ spec.elf_fault_line code name.now) }
{
    format!(in alloc; "refused elf {code} {name}\n")
}

/// The line of an assembly text that is no program, with the line that is at fault.
pub fn asm_fault_line(alloc: Global, line: u32, code: u8, name: &str) -> Result<String, AllocError>
    ensures { IfOk result (λ text. string_bytes text ≡ spec.asm_fault_line line code name.now) }
{
    format!(in alloc; "refused asm {line} {code} {name}\n")
}

/// The line of a file that is no script, with the line that is at fault.
pub fn script_fault_line(
    alloc: Global,
    line: u32,
    code: u8,
    name: &str,
) -> Result<String, AllocError>
    ensures { IfOk result (λ text. string_bytes text ≡ spec.script_fault_line line code name.now) }
{
    format!(in alloc; "refused script {line} {code} {name}\n")
}

/// The line of a file that is no trace for the memory.
pub fn trace_fault_line(alloc: Global, code: u8, name: &str) -> Result<String, AllocError>
    ensures { IfOk result (λ line. string_bytes line ≡ spec.trace_fault_line code name.now) }
{
    format!(in alloc; "refused trace {code} {name}\n")
}

/// The line of a file that is no order of turns, with the place of the first byte that names no program.
pub fn order_fault_line(alloc: Global, place: usize) -> Result<String, AllocError>
    ensures { IfOk result (λ line. string_bytes line ≡ spec.order_fault_line place) }
{
    format!(in alloc; "refused order {place}\n")
}

/// The line of a text that has no form of a report.
pub fn report_fault_line(alloc: Global, code: u8, name: &str) -> Result<String, AllocError>
    ensures { IfOk result (λ line. string_bytes line ≡ spec.report_fault_line code name.now) }
{
    format!(in alloc; "refused report {code} {name}\n")
}
