// A sink and files that run out of memory.
ghost use Rattle.sec_base.specs.MemoryFiles.{files_state};
ghost use Rattle.sec_base.specs.MemorySink.{sink_state};

use sec_base::{Bytes, Files, MemoryFiles, MemorySink, NoMemory, ReadStop, Sink, SinkStop};
use std::alloc::Global;

/// A sink in memory, of which one write finds no memory, by its number from 1.
#[derive(Drop)]
pub(crate) struct ForgetfulSink {
    sink: MemorySink,
    stops_at: u64,
    calls: u64,
}

impl ForgetfulSink {
    /// It takes at most so many bytes of a piece, and at least one.
    pub(crate) fn new(
        alloc: Global,
        most: usize,
        stops_at: u64,
    ) -> Result<ForgetfulSink, NoMemory> {
        Ok(ForgetfulSink {
            sink: MemorySink::short(alloc, most.max(1))?,
            stops_at,
            calls: 0,
        })
    }

    pub(crate) fn bytes(&self) -> &[u8] {
        self.sink.bytes()
    }
}

impl Sink for ForgetfulSink {
    ghost state = { λ forgetful. sink_state forgetful.sink };

    fn write(&mut self, piece: &[u8]) -> Result<usize, SinkStop> {
        if piece.is_empty() {
            return Ok(0);
        }
        self.calls = self.calls.saturating_add(1);
        if self.calls == self.stops_at {
            return Err(SinkStop::NoMemory);
        }
        self.sink.write(piece)
    }
}

/// Files in memory, of which one read finds no memory, by its number from 1.
#[derive(Drop)]
pub(crate) struct ForgetfulFiles {
    files: MemoryFiles,
    stops_at: u64,
    calls: u64,
}

impl ForgetfulFiles {
    pub(crate) fn new(files: MemoryFiles, stops_at: u64) -> ForgetfulFiles {
        ForgetfulFiles {
            files,
            stops_at,
            calls: 0,
        }
    }
}

impl Files for ForgetfulFiles {
    ghost state = { λ forgetful. files_state forgetful.files };

    fn read(&mut self, alloc: Global, name: &str, limit: u64) -> Result<Bytes, ReadStop> {
        self.calls = self.calls.saturating_add(1);
        if self.calls == self.stops_at {
            return Err(ReadStop::NoMemory);
        }
        self.files.read(alloc, name, limit)
    }
}
