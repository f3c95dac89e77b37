// Files that note what they are asked for, and calls on them.
ghost use Rattle.sec_base.specs.MemoryFiles.{files_state};

use chip_cases::{Shown, shows};
use chip_main::run_words;
use sec_base::{Bytes, Files, MemoryFiles, MemorySink, NoMemory, ReadStop};
use std::alloc::Global;

/// Files in memory, and the names that they were asked for, with a blank behind each.
#[derive(Drop)]
pub(crate) struct NotedFiles {
    files: MemoryFiles,
    names: String,
}

impl Files for NotedFiles {
    ghost state = { λ noted. files_state noted.files };

    fn read(&mut self, alloc: Global, name: &str, limit: u64) -> Result<Bytes, ReadStop> {
        if self.names.push_str(name).is_err() || self.names.push_str(" ").is_err() {
            return Err(ReadStop::NoMemory);
        }
        self.files.read(alloc, name, limit)
    }
}

/// The bytes of the programs `a` and `b`, of the order `o` and of the scripts `s` and `t`.
pub(crate) type Contents<'a> = [&'a [u8]; 5];

/// These files. Reads with these numbers fail.
pub(crate) fn noted_files(
    alloc: Global,
    contents: Contents<'_>,
    fails: &[u64],
) -> Result<NotedFiles, NoMemory> {
    let [a, b, order, script, script2] = contents;
    let mut files = MemoryFiles::new(alloc, fails)?;
    files.add("a", a)?;
    files.add("b", b)?;
    files.add("o", order)?;
    files.add("s", script)?;
    files.add("t", script2)?;
    Ok(NotedFiles {
        files,
        names: String::new(alloc),
    })
}

/// What a call asked for, and what it wrote and its status.
#[derive(Drop)]
pub(crate) struct NotedCall {
    files: NotedFiles,
    out: MemorySink,
    note: MemorySink,
    status: u8,
}

impl NotedCall {
    pub(crate) fn names(&self) -> &str {
        self.files.names.as_str()
    }

    pub(crate) fn status(&self) -> u8 {
        self.status
    }

    pub(crate) fn shown(&self) -> Shown<'_> {
        shows(self.out.bytes(), self.note.bytes(), self.status)
    }

    /// Whether its words were no request.
    pub(crate) fn is_usage(&self) -> bool {
        let told = self.note.bytes();
        told.starts_with(b"usage\nerror: ") && self.out.bytes().is_empty() && self.status == 2
    }
}

/// A call on such files.
pub(crate) fn call_noted(
    alloc: Global,
    words: &[&str],
    contents: Contents<'_>,
    fails: &[u64],
) -> Result<NotedCall, NoMemory> {
    let mut files = noted_files(alloc, contents, fails)?;
    let mut out = MemorySink::new(alloc, &[])?;
    let mut note = MemorySink::new(alloc, &[])?;
    let done = run_words(alloc, words, &mut files, &mut out, &mut note);
    Ok(NotedCall {
        files,
        out,
        note,
        status: done.status,
    })
}
