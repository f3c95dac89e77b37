// A store in memory that logs its calls and refuses one of them. No contract can rely on it.
ghost use Rattle.std.specs.Prelude.{◌≡◌, ◌<◌, ◌*◌, ◌^◌, ℕ, Some, replicate};
ghost use Rattle.sec_base.specs.Lines.{IsLineCount};
ghost use Rattle.sec_base.specs.declared.stop.MemStop.TheVariants.{NoMemory as no_memory};
ghost use Rattle.std.proofs.lemmas.List.{length-replicate};

use sec_base::{LineStore, MemStop, NoMemory};
use std::alloc::Global;

#[derive(Clone, Copy, Debug, PartialEq, Eq)]
pub enum Call {
    Read(u32),
    Write(u32),
}

#[derive(Drop)]
pub struct LoggedStore {
    lines: Vec<[u8; 64]>,
    pub log: Vec<Call>,
    pub fails: u32,
    calls: u32,
}

impl LoggedStore {
    // 256 lines of zeros.
    pub fn new(alloc: Global, fails: u32) -> Result<LoggedStore, NoMemory> {
        let mut lines = Vec::new(alloc);
        for _ in 0..256 {
            lines.push([0; 64])?;
        }
        Ok(LoggedStore {
            lines,
            log: Vec::new(alloc),
            fails,
            calls: 0,
        })
    }

    // The bytes of a line.
    pub fn line(&self, line: u32) -> [u8; 64] {
        self.lines.get(line as usize).copied().unwrap_or([0; 64])
    }

    fn called(&mut self, call: Call) -> Result<(), MemStop> {
        self.calls = self.calls.saturating_add(1);
        if self.calls == self.fails {
            return Err(MemStop::Spent(7));
        }
        match self.log.push(call) {
            Ok(()) => Ok(()),
            Err(_) => Err(MemStop::NoMemory),
        }
    }
}

impl LineStore for LoggedStore {
    ghost contents = { λ store. replicate 16384 0 };

    ghost extent = { λ store. 256 };

    ghost sound = { λ store. ⊥ };

    ghost stopped = { λ store. Some no_memory };

    ghost read_moved = { λ before line answer after. Unit {0} };

    ghost write_moved = { λ before line bytes answer after. Unit {0} };

    fn lines(&self) -> u32 {
        256
    }

    fn read_line(&mut self, line: u32) -> Result<[u8; 64], MemStop> {
        self.called(Call::Read(line))?;
        Ok(self.line(line))
    }

    fn write_line(&mut self, line: u32, bytes: &[u8; 64]) -> Result<(), MemStop> {
        self.called(Call::Write(line))?;
        if (line as usize) < self.lines.len() {
            self.lines[line as usize] = *bytes;
        }
        Ok(())
    }

    ghost sized = { λ store. length-replicate {A = ℕ} 16384 0 };
}
