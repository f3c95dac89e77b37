// Runs over a memory that an adversary changes by a script.
use crate::calls::{Call, call_file, file, make_call, program};
use crate::shown::{Shown, shows};
use crate::words::ASM;
use sec_base::{MemoryFiles, NoMemory};
use std::alloc::Global;

/// An assembly text, how memory is tagged, a script, and what is printed, what is told and the status.
#[derive(Clone, Copy)]
pub struct Attack<'a> {
    pub text: &'a [u8],
    pub tags: &'a str,
    pub script: &'a [u8],
    pub printed: &'a [u8],
    pub told: &'a [u8],
    pub status: u8,
}

impl<'a> Attack<'a> {
    /// What its run is to show.
    pub fn shown(&self) -> Shown<'a> {
        shows(self.printed, self.told, self.status)
    }
}

/// The files `p`, which is the program of an assembly text, and `s`, a script.
pub fn attack_files(alloc: Global, text: &[u8], script: &[u8]) -> Result<MemoryFiles, NoMemory> {
    let program = call_file(alloc, &ASM, text)?;
    let mut files = MemoryFiles::new(alloc, &[])?;
    files.add("p", program.out.bytes())?;
    files.add("s", script)?;
    Ok(files)
}

/// The run of an attack under layout 1.
pub fn call_attack(alloc: Global, attack: Attack<'_>) -> Result<Call, NoMemory> {
    call_attack_under(alloc, "1", attack)
}

/// The run of an attack under a layout.
pub fn call_attack_under(
    alloc: Global,
    layout: &str,
    attack: Attack<'_>,
) -> Result<Call, NoMemory> {
    let mut files = attack_files(alloc, attack.text, attack.script)?;
    let words = [
        "chip",
        "run",
        "p",
        "--script",
        "s",
        "--tags",
        attack.tags,
        "--layout",
        layout,
    ];
    make_call(alloc, &words, &mut files, &[], &[])
}

/// A call on a program of these words, the file `f`, by the script `s`.
pub fn call_by_script(
    alloc: Global,
    words: &[&str],
    code: &[u32],
    script: &[u8],
) -> Result<Call, NoMemory> {
    let bytes = program(alloc, code)?;
    let mut files = file(alloc, bytes.as_slice(), &[])?;
    files.add("s", script)?;
    make_call(alloc, words, &mut files, &[], &[])
}
