// A call, and how one is made.
use crate::words::ASM;
use chip_main::{Done, run_words};
use sec_base::{Ending, MemoryFiles, MemorySink, NoMemory};
use std::alloc::Global;

/// What a call did and wrote.
#[derive(Drop)]
pub struct Call {
    pub done: Done,
    pub out: MemorySink,
    pub note: MemorySink,
}

impl Call {
    /// How the run on protected memory ended, where there was one.
    pub fn ending(&self) -> Option<Ending> {
        match &self.done.run {
            Some(run) => Some(run.ending),
            None => None,
        }
    }
}

/// The words, the lowest byte of each first.
pub fn program(alloc: Global, words: &[u32]) -> Result<Vec<u8>, NoMemory> {
    let mut bytes = Vec::new(alloc);
    for word in words {
        bytes.extend_from_slice(&word.to_le_bytes())?;
    }
    Ok(bytes)
}

/// The file `f` with these bytes, where the reads with these numbers fail.
pub fn file(alloc: Global, bytes: &[u8], fails: &[u64]) -> Result<MemoryFiles, NoMemory> {
    let mut files = MemoryFiles::new(alloc, fails)?;
    files.add("f", bytes)?;
    Ok(files)
}

/// A call whose writes with these numbers fail.
pub fn make_call(
    alloc: Global,
    words: &[&str],
    files: &mut MemoryFiles,
    out_fails: &[u64],
    note_fails: &[u64],
) -> Result<Call, NoMemory> {
    let mut out = MemorySink::new(alloc, out_fails)?;
    let mut note = MemorySink::new(alloc, note_fails)?;
    let done = run_words(alloc, words, files, &mut out, &mut note);
    Ok(Call { done, out, note })
}

/// A call whose sinks take at most so many bytes of a piece, and at least one.
pub fn make_short_call(
    alloc: Global,
    words: &[&str],
    files: &mut MemoryFiles,
    most: usize,
) -> Result<Call, NoMemory> {
    let most = most.max(1);
    let mut out = MemorySink::short(alloc, most)?;
    let mut note = MemorySink::short(alloc, most)?;
    let done = run_words(alloc, words, files, &mut out, &mut note);
    Ok(Call { done, out, note })
}

/// A call with no file there.
pub fn call_without_files(alloc: Global, words: &[&str]) -> Result<Call, NoMemory> {
    let mut files = MemoryFiles::new(alloc, &[])?;
    make_call(alloc, words, &mut files, &[], &[])
}

/// A call on the file `f` of these bytes.
pub fn call_file(alloc: Global, words: &[&str], bytes: &[u8]) -> Result<Call, NoMemory> {
    let mut files = file(alloc, bytes, &[])?;
    make_call(alloc, words, &mut files, &[], &[])
}

/// A call on a program of these words, whose writes with these numbers fail.
pub fn call_program(
    alloc: Global,
    words: &[&str],
    code: &[u32],
    out_fails: &[u64],
    note_fails: &[u64],
) -> Result<Call, NoMemory> {
    let bytes = program(alloc, code)?;
    let mut files = file(alloc, bytes.as_slice(), &[])?;
    make_call(alloc, words, &mut files, out_fails, note_fails)
}

/// A call on the file `f` of so many zeros.
pub fn call_zeros(alloc: Global, words: &[&str], length: usize) -> Result<Call, NoMemory> {
    let bytes = vec![in alloc; 0u8; length]?;
    call_file(alloc, words, bytes.as_slice())
}

/// A call on the ELF file of an assembly text, whose writes to `out` with these numbers fail.
pub fn call_assembled(
    alloc: Global,
    words: &[&str],
    text: &[u8],
    out_fails: &[u64],
) -> Result<Call, NoMemory> {
    let assembled = call_file(alloc, &ASM, text)?;
    let mut files = file(alloc, assembled.out.bytes(), &[])?;
    make_call(alloc, words, &mut files, out_fails, &[])
}
