// The memory that a processor sees.
ghost use Rattle.std.specs.Prelude.{◌≡◌, ◌+◌, ◌*◌, ◌%◌, ◌^◌, ◌<◌, ◌≤◌, ◌⊎◌, ℕ, List, [], ◌∷◌, ◌++◌, Option, None, Some, length, IfOk, IfErr, OnOk, OnErr};
ghost use Rattle.sec_base.specs.declared.stop.MemStop.{MemStop};
ghost use Rattle.sec_base.specs.Width.{width_bytes, number_at, with_number};
ghost use Rattle.sec_base.specs.Geometry.{line_of};

use crate::stop::MemStop;
use crate::width::Width;

/// A memory of bytes from address 0 on, which may stop. What it answers can be relied on where it is
/// sound after the call and had not stopped before it.
pub trait Ram {
    /// All bytes, in order.
    ghost contents: { Self → List ℕ };

    /// How many there are.
    ghost extent: { Self → ℕ };

    /// What it answers can be relied on.
    ghost sound: { Self → Type 0 };

    /// The first stop that it answered.
    ghost stopped: { Self → Option MemStop };

    /// What calls with these lines, one after another, make of the memory.
    ghost moved: { Self → List ℕ → Self → Type 0 };

    /// The size in bytes.
    fn size(&self) -> u32
        ensures { result ≡ extent self.now };

    /// The little-endian number at an address.
    fn load(&mut self, addr: u32, width: Width) -> Result<u32, MemStop>
        requires inside { addr + width_bytes width ≤ extent self.old }
        requires aligned { addr % width_bytes width ≡ 0 }

        ensures value { stopped self.old ≡ None → sound self.new →
            IfOk result (λ n. n ≡ number_at (contents self.old) addr width) }
        ensures fits { IfOk result (λ n. n < 2 ^ (8 * width_bytes width)) }
        ensures contents { stopped self.old ≡ None → sound self.new →
            contents self.new ≡ contents self.old }

        ensures goes_on { OnOk result (stopped self.new ≡ stopped self.old) }
        ensures stops { stopped self.old ≡ None →
            IfErr result (λ stop. stopped self.new ≡ Some stop) }

        ensures extent { extent self.new ≡ extent self.old }
        ensures lost { sound self.new → sound self.old }
        ensures moved { moved self.old (line_of addr ∷ []) self.new };

    /// Puts the lowest bytes of a number at an address, the lowest first.
    fn store(&mut self, addr: u32, width: Width, value: u32) -> Result<(), MemStop>
        requires inside { addr + width_bytes width ≤ extent self.old }
        requires aligned { addr % width_bytes width ≡ 0 }

        ensures stored { stopped self.old ≡ None → sound self.new →
            OnOk result (contents self.new ≡ with_number (contents self.old) addr width value) }
        ensures refused { stopped self.old ≡ None → sound self.new → OnErr result (
            (contents self.new ≡ contents self.old)
            ⊎ (contents self.new ≡ with_number (contents self.old) addr width value)) }

        ensures goes_on { OnOk result (stopped self.new ≡ stopped self.old) }
        ensures stops { stopped self.old ≡ None →
            IfErr result (λ stop. stopped self.new ≡ Some stop) }

        ensures extent { extent self.new ≡ extent self.old }
        ensures lost { sound self.new → sound self.old }
        ensures moved { moved self.old (line_of addr ∷ []) self.new };

    /// There are as many bytes as the size says.
    ghost sized: { (memory : Self) → length (contents memory) ≡ extent memory };

    /// No call makes nothing of the memory.
    ghost unmoved: { (memory : Self) → moved memory [] memory };

    /// What calls make after others, they make together.
    ghost moved_on: { (first second third : Self) (before after : List ℕ) →
        moved first before second → moved second after third → moved first (before ++ after) third };
}
