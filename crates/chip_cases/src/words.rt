// The words of calls, the program's name first.

/// Runs the flat file `f` on protected memory of four levels.
pub const RUN: [&str; 4] = ["chip", "run", "f", "--flat"];

/// The same in the smallest memory, of one level.
pub const RUN_SMALL: [&str; 6] = ["chip", "run", "f", "--flat", "--levels", "1"];

/// Runs the flat file `f` on the plain machine.
pub const PLAIN: [&str; 4] = ["chip", "plain", "f", "--flat"];

/// Lists the flat file `f`.
pub const DIS: [&str; 4] = ["chip", "dis", "f", "--flat"];

/// Runs `f` on the input `i`.
pub const RUN_ON_INPUT: [&str; 6] = ["chip", "run", "f", "--flat", "--input", "i"];

/// The same on the plain machine.
pub const PLAIN_ON_INPUT: [&str; 6] = ["chip", "plain", "f", "--flat", "--input", "i"];

/// Assembles the text `f`.
pub const ASM: [&str; 3] = ["chip", "asm", "f"];

/// Measures the flat file `f`.
pub const MEASURE: [&str; 4] = ["chip", "measure", "f", "--flat"];

/// The same of ELF files.
pub const RUN_ELF: [&str; 3] = ["chip", "run", "f"];

pub const PLAIN_ELF: [&str; 3] = ["chip", "plain", "f"];

pub const DIS_ELF: [&str; 3] = ["chip", "dis", "f"];

pub const MEASURE_ELF: [&str; 3] = ["chip", "measure", "f"];

/// Runs the flat file `f` by the script `s` on the input `i`.
pub const RUN_BY_ALL: [&str; 8] = [
    "chip", "run", "f", "--flat", "--script", "s", "--input", "i",
];

/// Checks the report `f`.
pub const VERIFY: [&str; 3] = ["chip", "verify", "f"];
