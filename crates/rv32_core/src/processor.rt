// The processor's core, and one step of it.
ghost use Rattle.std.specs.Prelude.{◌≡◌, ◌%◌, ◌<◌, ◌≤◌, ◌↔◌, ℕ, List, None, Ok, Err, OnErr};
ghost use Rattle.sec_base.specs.Count.{Rose};
ghost use Rattle.sec_base.specs.Geometry.{IsMemorySize};
ghost use Rattle.sec_base.specs.Ram.{GoesOn, IsReliable};
ghost use Rattle.sec_base.specs.declared.ending.Cause.{Cause};
ghost use Rattle.rv32_core.specs.Effect.{next};
ghost use Rattle.rv32_core.specs.Outcome.{CarriesStop, IsOutcome, IsSinkStop};
ghost use Rattle.rv32_core.specs.Printing.{KeepsFaults, Prints};
ghost use Rattle.rv32_core.specs.State.{CoreView, next_core, next_core_with, opening_core, register, state_of, with_pc, with_register};
ghost use Rattle.rv32_core.specs.TouchedLines.{AreTouched, touched_lines};
ghost use Rattle.rv32_core.specs.declared.step.Step.{Step};
ghost use Rattle.rv32_core.specs.declared.step.StepStop.{StepStop};
ghost use Rattle.rv32_core.specs.declared.step.Step.TheVariants.{Retired};
ghost use Rattle.rv32_core.specs.declared.step.StepStop.TheVariants.{Trap, WriteFault};

use crate::access::fetch;
use crate::calls::Calls;
use crate::decoded_words::DecodedWords;
use crate::step::{Step, StepStop};
use sec_base::{Cause, Ram, Sink};
use std::marker::Model;

/// A processor, which does a program's instructions one after another.
pub trait Processor: Drop {
    /// The core whose turn it is.
    ghost core: { Self → CoreView };

    /// Its program counter.
    fn pc(&self) -> u32
        ensures { result ≡ (core self.now).pc };

    /// Fetches, decodes and does one instruction.
    fn step<M: Ram, S: Sink>(
        &mut self,
        ram: &mut M,
        calls: &mut Calls,
        out: &mut S,
    ) -> Result<Step, StepStop>
        // Where the memory can be relied on, it is the plain machine's instruction. What the sink took is digested and counted,
        // also after a stop.
        ensures outcome { let before = state_of (core self.old) calls.old.services
            (M.contents ram.old) in
            (printed : List ℕ) × Prints (S.state out.old) calls.old.taken printed (S.state out.new)
            calls.new.taken
            × (IsReliable M.stopped M.sound ram.old ram.new → IsOutcome (next before) result before
            (state_of (core self.new) calls.new.services (M.contents ram.new)) printed) }
        ensures stays { OnErr result ((core self.new ≡ core self.old)
            × (calls.new.services ≡ calls.old.services)) }

        // Where the memory did not stop either, it traps exactly where that instruction does.
        ensures traps { IsReliable M.stopped M.sound ram.old ram.new → M.stopped ram.new ≡ None →
            (cause : Cause) →
            (result ≡ Err (Trap cause))
            ↔ (next (state_of (core self.old) calls.old.services (M.contents ram.old))
            ≡ Err cause) }
        ensures mem { M.stopped ram.old ≡ None → CarriesStop (M.stopped ram.new) result }
        ensures sink_stop { IsReliable M.stopped M.sound ram.old ram.new →
            M.stopped ram.new ≡ None →
            IsSinkStop result (next
            (state_of (core self.old) calls.old.services (M.contents ram.old))) }
        ensures write_fault { result ≡ Err WriteFault →
            Rose (S.state out.old).faults (S.state out.new).faults }
        ensures faults { (S.state out.old).faults ≤ (S.state out.new).faults }
        ensures quiet { KeepsFaults result (S.state out.old) (S.state out.new) }

        // It touches the lines of that instruction, in order, and after an error a front part of them.
        ensures moved { GoesOn M.extent M.sound M.moved
            (λ lines. IsReliable M.stopped M.sound ram.old ram.new →
            AreTouched result (touched_lines
            (state_of (core self.old) calls.old.services (M.contents ram.old))) lines)
            ram.old ram.new };
}

/// A core of RV32IM: its program counter, a multiple of 4, and its 32 registers, of which the first is 0.
#[derive(Drop)]
pub struct Core {
    pc: u32,
    registers: [u32; 32],
    words: DecodedWords,
}

impl Model for Core {
    ghost use Rattle.std.specs.Prelude.{◌≡◌, ◌%◌, slice_index};
    ghost use Rattle.rv32_core.specs.State.{CoreView};

    ghost Value = { CoreView };

    ghost view = { λ core. record { pc = core.pc; registers = core.registers } };

    ghost invariant = { λ core. (core.pc % 4 ≡ 0) × (slice_index core.registers 0 ≡ 0) };
}

impl Core {
    /// A core at a program's entry, with its stack pointer 64 bytes below the end of a memory of `size` bytes.
    pub fn new(entry: u32, size: u32) -> Core
        requires aligned { entry % 4 ≡ 0 }
        requires size { IsMemorySize size }
        ensures { result ≡ opening_core entry size }
    {
        let mut registers = [0; 32];
        registers[2] = size - 64;
        Core {
            pc: entry,
            registers,
            words: DecodedWords::new(),
        }
    }

    /// The program counter.
    #[inline(always)]
    pub fn pc(&self) -> u32
        ensures { result ≡ self.now.pc }
    {
        self.pc
    }

    /// What a register has.
    #[inline(always)]
    pub fn reg(&self, number: u8) -> u32
        requires { number < 32 }
        ensures { result ≡ register self.now number }
    {
        self.registers[number as usize]
    }

    // A value goes to a register; register 0 keeps its 0.
    #[inline]
    pub(crate) fn set_reg(&mut self, number: u8, value: u32)
        requires { number < 32 }
        ensures { self.new ≡ record {
          pc = self.old.pc;
          registers = with_register self.old.registers
              number value;
        } }
    {
        if number != 0 {
            self.registers[number as usize] = value;
        }
    }

    #[inline]
    pub(crate) fn set_pc(&mut self, target: u32)
        requires { target % 4 ≡ 0 }
        ensures { self.new ≡ with_pc self.old target }
    {
        self.pc = target;
    }

    // The next instruction in order is next.
    #[inline]
    pub(crate) fn pass(&mut self)
        ensures { self.new ≡ next_core self.old }
    {
        self.pc = self.pc.wrapping_add(4);
    }

    // A value goes to a register, and the next instruction in order is next.
    #[inline]
    pub(crate) fn retire(&mut self, number: u8, value: u32) -> Result<Step, StepStop>
        requires { number < 32 }
        ensures core { self.new ≡ next_core_with self.old number value }
        ensures retired { result ≡ Ok Retired }
    {
        self.set_reg(number, value);
        self.pass();
        Ok(Step::Retired)
    }
}

impl Processor for Core {
    ghost core = { λ core. core };

    #[inline(always)]
    fn pc(&self) -> u32 {
        self.pc
    }

    #[inline(always)]
    #[tactic(auto, unfolding(crate::specs::Effect::next, crate::specs::TouchedLines::touched_lines))]
    fn step<M: Ram, S: Sink>(
        &mut self,
        ram: &mut M,
        calls: &mut Calls,
        out: &mut S,
    ) -> Result<Step, StepStop> {
        let word = fetch(ram, self.pc)?;
        match self.words.decode(self.pc, word) {
            Some(inst) => self.execute(&inst, ram, calls, out),
            None => Err(StepStop::Trap(Cause::Illegal)),
        }
    }
}
