// What each row of the instruction table does.
ghost use Rattle.std.specs.Prelude.{◌≡◌, ◌≤◌, ℕ, List, None, Err, OnErr};
ghost use Rattle.sec_base.specs.Count.{Rose};
ghost use Rattle.sec_base.specs.Ram.{GoesOn, IsReliable};
ghost use Rattle.rv32_decode.specs.Encoding.{IsInst};
ghost use Rattle.rv32_core.specs.Effect.{effect};
ghost use Rattle.rv32_core.specs.Outcome.{CarriesStop, IsOutcome, IsSinkStop};
ghost use Rattle.rv32_core.specs.Printing.{KeepsFaults, Prints};
ghost use Rattle.rv32_core.specs.State.{state_of};
ghost use Rattle.rv32_core.specs.TouchedLines.{AreTouched, data_lines};
ghost use Rattle.rv32_core.specs.declared.step.StepStop.TheVariants.{WriteFault};

use crate::access::Extension;
use crate::arithmetic::{
    high_product, high_product_mixed, high_product_unsigned, is_less_signed, less, less_signed,
    quotient, quotient_unsigned, remainder, remainder_unsigned, shift_right_signed,
};
use crate::calls::Calls;
use crate::operands::immediate;
use crate::processor::Core;
use crate::step::{Step, StepStop};
use rv32_decode::{Inst, Op};
use sec_base::{Cause, Ram, Sink, Width};

impl Core {
    // Does a decoded instruction.
    #[inline(always)]
    pub(crate) fn execute<M: Ram, S: Sink>(
        &mut self,
        inst: &Inst,
        ram: &mut M,
        calls: &mut Calls,
        out: &mut S,
    ) -> Result<Step, StepStop>
        requires { IsInst inst.now }

        ensures outcome { let before = state_of self.old calls.old.services (M.contents ram.old) in
            (printed : List ℕ) × Prints (S.state out.old) calls.old.taken printed (S.state out.new)
            calls.new.taken
            × (IsReliable M.stopped M.sound ram.old ram.new →
            IsOutcome (effect inst.now.op inst.now before) result before
            (state_of self.new calls.new.services (M.contents ram.new)) printed) }
        ensures stays { OnErr result ((self.new ≡ self.old)
            × (calls.new.services ≡ calls.old.services)) }

        ensures mem { M.stopped ram.old ≡ None → CarriesStop (M.stopped ram.new) result }
        ensures sink_stop { IsReliable M.stopped M.sound ram.old ram.new →
            M.stopped ram.new ≡ None → IsSinkStop result
            (effect inst.now.op inst.now
            (state_of self.old calls.old.services (M.contents ram.old))) }
        ensures write_fault { result ≡ Err WriteFault →
            Rose (S.state out.old).faults (S.state out.new).faults }
        ensures faults { (S.state out.old).faults ≤ (S.state out.new).faults }
        ensures quiet { KeepsFaults result (S.state out.old) (S.state out.new) }

        ensures moved { GoesOn M.extent M.sound M.moved (λ lines. AreTouched result
            (data_lines inst.now.op inst.now
            (state_of self.old calls.old.services (M.contents ram.old))) lines) ram.old ram.new }
    {
        match inst.op {
            Op::Lui => self.retire(inst.rd, immediate(inst)),
            Op::Auipc => self.retire(inst.rd, self.relative_address(inst)),
            Op::Jal => self.jump(self.relative_address(inst), inst),
            Op::Jalr => self.jump(self.absolute_target(inst), inst),
            Op::Beq => self.branch(self.rs1(inst) == self.rs2(inst), inst),
            Op::Bne => self.branch(self.rs1(inst) != self.rs2(inst), inst),
            Op::Blt => self.branch(is_less_signed(self.rs1(inst), self.rs2(inst)), inst),
            Op::Bge => self.branch(!is_less_signed(self.rs1(inst), self.rs2(inst)), inst),
            Op::Bltu => self.branch(self.rs1(inst) < self.rs2(inst), inst),
            Op::Bgeu => self.branch(self.rs1(inst) >= self.rs2(inst), inst),
            Op::Lb => self.load(inst, Width::One, Extension::Sign, ram),
            Op::Lh => self.load(inst, Width::Two, Extension::Sign, ram),
            Op::Lw => self.load(inst, Width::Four, Extension::Zero, ram),
            Op::Lbu => self.load(inst, Width::One, Extension::Zero, ram),
            Op::Lhu => self.load(inst, Width::Two, Extension::Zero, ram),
            Op::Sb => self.store(inst, Width::One, ram),
            Op::Sh => self.store(inst, Width::Two, ram),
            Op::Sw => self.store(inst, Width::Four, ram),
            Op::Addi => self.retire(inst.rd, self.rs1(inst).wrapping_add(immediate(inst))),
            Op::Slti => self.retire(inst.rd, less_signed(self.rs1(inst), immediate(inst))),
            Op::Sltiu => self.retire(inst.rd, less(self.rs1(inst), immediate(inst))),
            Op::Xori => self.retire(inst.rd, self.rs1(inst) ^ immediate(inst)),
            Op::Ori => self.retire(inst.rd, self.rs1(inst) | immediate(inst)),
            Op::Andi => self.retire(inst.rd, self.rs1(inst) & immediate(inst)),
            Op::Slli => self.retire(inst.rd, self.rs1(inst).wrapping_shl(immediate(inst))),
            Op::Srli => self.retire(inst.rd, self.rs1(inst).wrapping_shr(immediate(inst))),
            Op::Srai => self.retire(inst.rd, shift_right_signed(self.rs1(inst), immediate(inst))),
            Op::Add => self.retire(inst.rd, self.rs1(inst).wrapping_add(self.rs2(inst))),
            Op::Sub => self.retire(inst.rd, self.rs1(inst).wrapping_sub(self.rs2(inst))),
            Op::Sll => self.retire(inst.rd, self.rs1(inst).wrapping_shl(self.rs2(inst))),
            Op::Slt => self.retire(inst.rd, less_signed(self.rs1(inst), self.rs2(inst))),
            Op::Sltu => self.retire(inst.rd, less(self.rs1(inst), self.rs2(inst))),
            Op::Xor => self.retire(inst.rd, self.rs1(inst) ^ self.rs2(inst)),
            Op::Srl => self.retire(inst.rd, self.rs1(inst).wrapping_shr(self.rs2(inst))),
            Op::Sra => self.retire(inst.rd, shift_right_signed(self.rs1(inst), self.rs2(inst))),
            Op::Or => self.retire(inst.rd, self.rs1(inst) | self.rs2(inst)),
            Op::And => self.retire(inst.rd, self.rs1(inst) & self.rs2(inst)),
            Op::Mul => self.retire(inst.rd, self.rs1(inst).wrapping_mul(self.rs2(inst))),
            Op::Mulh => self.retire(inst.rd, high_product(self.rs1(inst), self.rs2(inst))),
            Op::Mulhsu => self.retire(inst.rd, high_product_mixed(self.rs1(inst), self.rs2(inst))),
            Op::Mulhu => self.retire(
                inst.rd,
                high_product_unsigned(self.rs1(inst), self.rs2(inst)),
            ),
            Op::Div => self.retire(inst.rd, quotient(self.rs1(inst), self.rs2(inst))),
            Op::Divu => self.retire(inst.rd, quotient_unsigned(self.rs1(inst), self.rs2(inst))),
            Op::Rem => self.retire(inst.rd, remainder(self.rs1(inst), self.rs2(inst))),
            Op::Remu => self.retire(inst.rd, remainder_unsigned(self.rs1(inst), self.rs2(inst))),
            Op::Fence | Op::FenceI => {
                self.pass();
                Ok(Step::Retired)
            }
            Op::Ecall => self.serve(ram, calls, out),
            Op::Ebreak => Err(StepStop::Trap(Cause::Breakpoint)),
        }
    }
}
