// What the fields of an instruction stand for.
ghost use Rattle.std.specs.Prelude.{◌≡◌, ◌<◌};
ghost use Rattle.rv32_decode.specs.Words.{word_of_signed};
ghost use Rattle.rv32_core.specs.Effect.{absolute_target, data_address, relative_address};
ghost use Rattle.rv32_core.specs.State.{register};

use crate::processor::Core;
use rv32_decode::Inst;

impl Core {
    // The first register that an instruction reads.
    #[inline(always)]
    pub(crate) fn rs1(&self, inst: &Inst) -> u32
        requires { inst.now.rs1 < 32 }
        ensures { result ≡ register self.now inst.now.rs1 }
    {
        self.reg(inst.rs1)
    }

    // The second register that an instruction reads.
    #[inline(always)]
    pub(crate) fn rs2(&self, inst: &Inst) -> u32
        requires { inst.now.rs2 < 32 }
        ensures { result ≡ register self.now inst.now.rs2 }
    {
        self.reg(inst.rs2)
    }

    // Where JAL and branches lead, and what AUIPC computes.
    #[inline(always)]
    pub(crate) fn relative_address(&self, inst: &Inst) -> u32
        ensures { result ≡ relative_address inst.now self.now }
    {
        self.pc().wrapping_add(immediate(inst))
    }

    // Where a load or a store goes.
    #[inline(always)]
    pub(crate) fn data_address(&self, inst: &Inst) -> u32
        requires { inst.now.rs1 < 32 }
        ensures { result ≡ data_address inst.now self.now }
    {
        self.rs1(inst).wrapping_add(immediate(inst))
    }

    // Where JALR leads: bit 0 is cleared.
    #[inline(always)]
    pub(crate) fn absolute_target(&self, inst: &Inst) -> u32
        requires { inst.now.rs1 < 32 }
        ensures { result ≡ absolute_target inst.now self.now }
    {
        self.data_address(inst) / 2 * 2
    }
}

// The immediate as a word.
#[inline(always)]
pub fn immediate(inst: &Inst) -> u32
    ensures { result ≡ word_of_signed inst.now.imm }
{
    inst.imm.cast_unsigned()
}
