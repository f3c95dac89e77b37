// Calls on one file, by tables.
use crate::calls::{Call, call_file};
use crate::shown::{Shown, shows};
use sec_base::NoMemory;
use std::alloc::Global;

/// A call on the file `f`: its words, the file's bytes, and what it prints and tells and its status.
#[derive(Clone, Copy)]
pub struct Case<'a> {
    pub words: &'a [&'a str],
    pub bytes: &'a [u8],
    pub printed: &'a [u8],
    pub told: &'a [u8],
    pub status: u8,
}

impl<'a> Case<'a> {
    /// Makes the call.
    pub fn call(&self, alloc: Global) -> Result<Call, NoMemory> {
        call_file(alloc, self.words, self.bytes)
    }

    /// What it is to show.
    pub fn shown(&self) -> Shown<'a> {
        shows(self.printed, self.told, self.status)
    }
}

/// The bytes with another one here and there.
pub fn edited(alloc: Global, bytes: &[u8], edits: &[(usize, u8)]) -> Result<Vec<u8>, NoMemory> {
    let mut bytes = Vec::from_slice(alloc, bytes)?;
    for &(at, byte) in edits {
        if at < bytes.len() {
            bytes[at] = byte;
        }
    }
    Ok(bytes)
}
