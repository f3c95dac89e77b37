// The memory below the processor's, by whole lines.
ghost use Rattle.std.specs.Prelude.{◌≡◌, ◌*◌, ◌<◌, ◌⊎◌, ℕ, List, Option, None, Some, Result, length, IfOk, IfErr, OnOk, OnErr};
ghost use Rattle.sec_base.specs.declared.stop.MemStop.{MemStop};
ghost use Rattle.sec_base.specs.Lines.{IsLineCount, line_at, with_line};

use crate::stop::MemStop;

/// A memory of lines of 64 bytes, which may stop. What it answers can be relied on where it is sound after the
/// call and had not stopped before it.
pub trait LineStore {
    /// All bytes, in order.
    ghost contents: { Self → List ℕ };

    /// How many lines there are.
    ghost extent: { Self → ℕ };

    /// What it answers can be relied on.
    ghost sound: { Self → Type 0 };

    /// The stop that it keeps, if it answered one.
    ghost stopped: { Self → Option MemStop };

    /// What a read of a line, with its answer, makes of the store.
    ghost read_moved: { Self → ℕ → Result (List ℕ) MemStop → Self → Type 0 };

    /// What a write of a line, with its bytes and its answer, makes of the store.
    ghost write_moved: { Self → ℕ → List ℕ → Result (Unit {0}) MemStop → Self → Type 0 };

    /// The number of lines, which is that of some tree's memory.
    fn lines(&self) -> u32
        ensures lines { result ≡ extent self.now }
        ensures some_memory { IsLineCount (extent self.now) };

    /// The bytes of a line.
    fn read_line(&mut self, line: u32) -> Result<[u8; 64], MemStop>
        requires inside { line < extent self.old }

        ensures value { stopped self.old ≡ None → sound self.new →
            IfOk result (λ bytes. bytes ≡ line_at (contents self.old) line) }
        ensures contents { stopped self.old ≡ None → sound self.new →
            contents self.new ≡ contents self.old }

        ensures goes_on { OnOk result (stopped self.new ≡ stopped self.old) }
        ensures stops { stopped self.old ≡ None →
            IfErr result (λ stop. stopped self.new ≡ Some stop) }

        ensures extent { extent self.new ≡ extent self.old }
        ensures lost { sound self.new → sound self.old }
        ensures moved { read_moved self.old line result self.new };

    /// Puts 64 bytes in a line.
    fn write_line(&mut self, line: u32, bytes: &[u8; 64]) -> Result<(), MemStop>
        requires inside { line < extent self.old }

        ensures stored { stopped self.old ≡ None → sound self.new →
            OnOk result (contents self.new ≡ with_line (contents self.old) line bytes.now) }
        ensures refused { stopped self.old ≡ None → sound self.new → OnErr result (
            (contents self.new ≡ contents self.old)
            ⊎ (contents self.new ≡ with_line (contents self.old) line bytes.now)) }

        ensures goes_on { OnOk result (stopped self.new ≡ stopped self.old) }
        ensures stops { stopped self.old ≡ None →
            IfErr result (λ stop. stopped self.new ≡ Some stop) }

        ensures extent { extent self.new ≡ extent self.old }
        ensures lost { sound self.new → sound self.old }
        ensures moved { write_moved self.old line bytes.now result self.new };

    /// There are 64 bytes a line.
    ghost sized: { (store : Self) → length (contents store) ≡ 64 * extent store };
}
