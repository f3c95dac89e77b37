//! Programs from files, ELF files of 32 bits for RISC-V and flat ones, ELF files from programs, and the
//! measurement of a program.
#![tactic(auto)]

mod fault;
mod fields;
mod header;
mod measurement;
mod program;
mod spelling;
mod table;

pub use fault::{ElfError, ElfFault};
pub use measurement::measure;
pub use program::{flat, parse};
pub use spelling::write;
