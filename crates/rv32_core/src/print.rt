// What an instruction prints: bytes of the memory, loaded and written piece by piece.
ghost use Rattle.std.specs.Prelude.{◌≡◌, ◌+◌, ◌<◌, ◌≤◌, ◌^◌, ℕ, List, None, Some, Err, length, IfErr, OnOk, OnErr};
ghost use Rattle.sec_base.specs.Count.{Rose};
ghost use Rattle.sec_base.specs.Ram.{GoesOn, IsReliable};
ghost use Rattle.rv32_core.specs.Print.{IsPrinted, StopsAs, piece_length as length_of_piece};
ghost use Rattle.rv32_core.specs.Printing.{KeepsFaults, Prints};
ghost use Rattle.rv32_core.specs.State.{memory_bytes};
ghost use Rattle.rv32_core.specs.TouchedLines.{AreTouched, byte_lines};
ghost use Rattle.rv32_core.specs.declared.step.StepStop.TheVariants.{WriteFault};

use crate::calls::Calls;
use crate::step::StepStop;
use sec_base::{MemStop, Ram, Sink, Width};

/// Prints so many bytes of the memory from an address on.
pub fn print<M: Ram, S: Sink>(
    ram: &mut M,
    calls: &mut Calls,
    out: &mut S,
    from: u32,
    count: u32,
) -> Result<(), StepStop>
    requires inside { 0 < count → from + count ≤ M.extent ram.old }
    requires fits { 0 < count → from + count < 2 ^ 32 }

    ensures printed { (printed : List ℕ)
        × Prints (S.state out.old) calls.old.taken printed (S.state out.new) calls.new.taken
        × (IsReliable M.stopped M.sound ram.old ram.new →
        IsPrinted result (memory_bytes (M.contents ram.old) from count) printed) }
    ensures contents { IsReliable M.stopped M.sound ram.old ram.new →
        M.contents ram.new ≡ M.contents ram.old }
    ensures services { calls.new.services ≡ calls.old.services }

    ensures mem { M.stopped ram.old ≡ None → StopsAs (M.stopped ram.new) result }
    ensures some { M.stopped ram.old ≡ None → M.stopped ram.new ≡ None → OnErr result (0 < count) }
    ensures write_fault { result ≡ Err WriteFault →
        Rose (S.state out.old).faults (S.state out.new).faults }
    ensures faults { (S.state out.old).faults ≤ (S.state out.new).faults }
    ensures quiet { KeepsFaults result (S.state out.old) (S.state out.new) }

    ensures moved { GoesOn M.extent M.sound M.moved
        (λ lines. AreTouched result (byte_lines from count) lines) ram.old ram.new }
{
    let end = from + count;
    let mut at = from;
    while at < end {
        let length = piece_length(at, end);
        print_piece(ram, calls, out, at, length)?;
        at += length;
    }
    Ok(())
}

// How long the next piece is that goes out: up to the next multiple of 64 of the address, or to the end.
fn piece_length(at: u32, end: u32) -> u32
    requires { at ≤ end }
    ensures { result ≡ length_of_piece at end }
{
    (64 - at % 64).min(end - at)
}

// Prints at most 64 bytes as one piece.
fn print_piece<M: Ram, S: Sink>(
    ram: &mut M,
    calls: &mut Calls,
    out: &mut S,
    from: u32,
    count: u32,
) -> Result<(), StepStop>
    requires inside { from + count ≤ M.extent ram.old }
    requires fits { from + count < 2 ^ 32 }
    requires some { 0 < count }
    requires short { count ≤ 64 }

    ensures printed { (printed : List ℕ)
        × Prints (S.state out.old) calls.old.taken printed (S.state out.new) calls.new.taken
        × (IsReliable M.stopped M.sound ram.old ram.new →
        IsPrinted result (memory_bytes (M.contents ram.old) from count) printed) }
    ensures contents { IsReliable M.stopped M.sound ram.old ram.new →
        M.contents ram.new ≡ M.contents ram.old }
    ensures services { calls.new.services ≡ calls.old.services }

    ensures mem { M.stopped ram.old ≡ None → StopsAs (M.stopped ram.new) result }
    ensures write_fault { result ≡ Err WriteFault →
        Rose (S.state out.old).faults (S.state out.new).faults }
    ensures faults { (S.state out.old).faults ≤ (S.state out.new).faults }
    ensures quiet { KeepsFaults result (S.state out.old) (S.state out.new) }

    ensures moved { GoesOn M.extent M.sound M.moved
        (λ lines. AreTouched result (byte_lines from count) lines) ram.old ram.new }
{
    let mut buffer = [0; 64];
    let piece = &mut buffer[..count as usize];
    load_piece(ram, from, piece)?;
    write_piece(calls, out, piece)?;
    Ok(())
}

// Writes a piece in as many writes as the sink takes, and digests and counts what it took: a front part after an error.
fn write_piece<S: Sink>(calls: &mut Calls, out: &mut S, piece: &[u8]) -> Result<(), StepStop>
    ensures printed { (printed : List ℕ)
        × Prints (S.state out.old) calls.old.taken printed (S.state out.new) calls.new.taken
        × IsPrinted result piece.now printed }
    ensures services { calls.new.services ≡ calls.old.services }

    ensures mem { StopsAs None result }
    ensures write_fault { result ≡ Err WriteFault →
        Rose (S.state out.old).faults (S.state out.new).faults }
    ensures faults { (S.state out.old).faults ≤ (S.state out.new).faults }
    ensures quiet { KeepsFaults result (S.state out.old) (S.state out.new) }
{
    let mut rest = piece;
    while !rest.is_empty() {
        let taken = out.write(rest)?;
        calls.digest(&rest[..taken]);
        rest = &rest[taken..];
    }
    Ok(())
}

// Loads the bytes from an address on, one by one.
fn load_piece<M: Ram>(ram: &mut M, from: u32, piece: &mut [u8]) -> Result<(), MemStop>
    requires inside { from + length piece.old ≤ M.extent ram.old }
    requires fits { from + length piece.old < 2 ^ 32 }
    requires short { length piece.old ≤ 64 }

    ensures loaded { IsReliable M.stopped M.sound ram.old ram.new → OnOk result (
        piece.new ≡ memory_bytes (M.contents ram.old) from (length piece.old)) }
    ensures contents { IsReliable M.stopped M.sound ram.old ram.new →
        M.contents ram.new ≡ M.contents ram.old }

    ensures goes_on { OnOk result (M.stopped ram.new ≡ M.stopped ram.old) }
    ensures stops { M.stopped ram.old ≡ None →
        IfErr result (λ stop. M.stopped ram.new ≡ Some stop) }

    ensures moved { GoesOn M.extent M.sound M.moved
        (λ lines. AreTouched result (byte_lines from (length piece.old)) lines) ram.old ram.new }
{
    for i in 0..piece.len() {
        piece[i] = ram.load(from + i as u32, Width::One)? as u8;
    }
    Ok(())
}
