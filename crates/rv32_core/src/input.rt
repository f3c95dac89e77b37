// What an instruction reads: bytes of the input, stored in the memory.
ghost use Rattle.std.specs.Prelude.{◌≡◌, ◌+◌, ◌<◌, ◌≤◌, ◌^◌, ℕ, List, None, Some, length, take, IfErr, OnOk, OnErr};
ghost use Rattle.sec_base.specs.Ram.{GoesOn, IsReliable};
ghost use Rattle.rv32_core.specs.State.{with_bytes};
ghost use Rattle.rv32_core.specs.TouchedLines.{AreTouched, byte_lines};

use sec_base::{MemStop, Ram, Width};

/// Stores bytes from an address on, one by one. After a stop the first of them may be stored.
pub fn store_bytes<M: Ram>(ram: &mut M, from: u32, bytes: &[u8]) -> Result<(), MemStop>
    requires inside { 0 < length bytes.now → from + length bytes.now ≤ M.extent ram.old }
    requires fits { 0 < length bytes.now → from + length bytes.now < 2 ^ 32 }

    ensures stored { IsReliable M.stopped M.sound ram.old ram.new → OnOk result (
        M.contents ram.new ≡ with_bytes (M.contents ram.old) from bytes.now) }
    ensures front { IsReliable M.stopped M.sound ram.old ram.new → OnErr result ((count : ℕ) × (
        M.contents ram.new ≡ with_bytes (M.contents ram.old) from (take count bytes.now))) }

    ensures goes_on { OnOk result (M.stopped ram.new ≡ M.stopped ram.old) }
    ensures stops { M.stopped ram.old ≡ None →
        IfErr result (λ stop. M.stopped ram.new ≡ Some stop) }

    ensures moved { GoesOn M.extent M.sound M.moved
        (λ lines. AreTouched result (byte_lines from (length bytes.now)) lines) ram.old ram.new }
{
    for (i, byte) in bytes.iter().enumerate() {
        ram.store(from + i as u32, Width::One, u32::from(*byte))?;
    }
    Ok(())
}
