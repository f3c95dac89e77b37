// Why words or a file are refused.
use adversary_script::ScriptFault;
use attest_report::ReportError;
use bus_trace::TraceFault;
use chip_words::ValueFault;
use elf_load::ElfFault;
use rv32_asm::AsmFault;
use turn_order::OrderError;

/// Why nothing was done.
#[derive(Debug, Drop)]
pub enum Refusal {
    /// `clap` doesn't take the words, as this text says.
    Usage(String),
    /// A value of the words is refused.
    WrongValue(ValueFault),
    /// A file could not be read.
    Unread,
    /// A file is longer than any of its form that is read.
    TooLong,
    /// An ELF file or a flat file is no program for the memory.
    Elf(ElfFault),
    /// A line of an assembly text is at fault, lines counted from 1.
    Asm {
        /// The line.
        line: u32,
        /// What is wrong with it.
        fault: AsmFault,
    },
    /// A line of a script is at fault, lines counted from 1.
    Script {
        /// The line.
        line: u32,
        /// What is wrong with it.
        fault: ScriptFault,
    },
    /// A text doesn't have the form of a report.
    Report(ReportError),
    /// A file is no trace for the memory.
    Trace(TraceFault),
    /// A byte of an order of turns names no side.
    Order(OrderError),
}
