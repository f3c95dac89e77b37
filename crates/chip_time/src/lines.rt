// Lines outside the chip, written and read as a run does it.
ghost use Rattle.std.specs.Prelude.{◌≡◌, ◌/◌, ◌%◌, OnOk};
ghost use Rattle.sec_base.specs.Lines.{line_at, with_line};
ghost use Rattle.page_reencrypt.specs.SealedLines.{IsQuiet, contents, lines_of};

use bus_model::HonestBus;
use hmac_tag::{HmacTagger, Keys};
use page_reencrypt::SealedLines;
use sec_base::{Geometry, LineStore, MemStop, NoMemory, NoMemoryWith};
use std::alloc::Global;

/// The lines of a memory of four levels, and the bytes that are written next or were read last.
#[derive(Drop)]
pub(crate) struct TimedLines {
    lines: SealedLines<HonestBus, HmacTagger>,
    bytes: [u8; 64],
    ghost all_lines: { lines_of lines ≡ 16384 },
}

// How many lines there are.
const LINES: u32 = 16384;

// How often a line is written before it is used up.
const WRITES: u64 = 127;

// The line that is read, and that is worn out.
const LINE: u32 = 0;

impl TimedLines {
    /// Lines of zeros that were never written.
    pub(crate) fn new(alloc: Global, keys: &Keys) -> Result<TimedLines, NoMemory> {
        let geometry = Geometry::new(4).unwrap();
        let bus = HonestBus::new(alloc, geometry)?;
        let tagger = HmacTagger::new(keys);
        match SealedLines::boot(alloc, bus, tagger, &keys.enc_key, geometry, u64::MAX) {
            Ok(lines) => Ok(TimedLines {
                lines,
                bytes: [0; 64],
            }),
            Err(NoMemoryWith(_bus)) => Err(NoMemory),
        }
    }

    /// Writes the bytes to a line that is not used up, in any of the first two million rounds.
    pub(crate) fn write(&mut self, round: u64) -> Result<(), MemStop>
        ensures { IsQuiet self.new.lines → OnOk result
            (contents self.new.lines
            ≡ with_line (contents self.old.lines) (round / 127 % 16384) self.old.bytes) }
    {
        let line = (round / WRITES % u64::from(LINES)) as u32;
        self.lines.write_line(line, &self.bytes)
    }

    /// Writes the bytes to one line, which is used up by every 128th call.
    pub(crate) fn wear(&mut self) -> Result<(), MemStop>
        ensures { IsQuiet self.new.lines →
            OnOk result (contents self.new.lines
            ≡ with_line (contents self.old.lines) 0 self.old.bytes) }
    {
        self.lines.write_line(LINE, &self.bytes)
    }

    /// Reads the bytes.
    pub(crate) fn read(&mut self) -> Result<(), MemStop>
        ensures { IsQuiet self.new.lines →
            OnOk result (self.new.bytes ≡ line_at (contents self.old.lines) 0) }
    {
        self.bytes = self.lines.read_line(LINE)?;
        Ok(())
    }

    /// The last of the bytes.
    pub(crate) fn last_byte(&self) -> u8 {
        self.bytes[63]
    }
}
