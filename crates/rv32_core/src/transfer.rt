// Jumps and branches (RISC-V unprivileged manual, section 2.5).
ghost use Rattle.std.specs.Prelude.{◌≡◌, ◌%◌, ℕ, List, [], OnErr};
ghost use Rattle.rv32_decode.specs.Encoding.{IsInst};
ghost use Rattle.rv32_core.specs.Effect.{branch_effect, jump_effect, target_fault};
ghost use Rattle.rv32_core.specs.Outcome.{IsOutcome, OnlyTraps};
ghost use Rattle.rv32_core.specs.State.{ServicesView, state_of};

use crate::processor::Core;
use crate::step::{Step, StepStop};
use rv32_decode::Inst;
use sec_base::Cause;

impl Core {
    // A jump, which leaves the address of the next instruction in order in rd.
    #[inline]
    pub(crate) fn jump(&mut self, target: u32, inst: &Inst) -> Result<Step, StepStop>
        requires { IsInst inst.now }

        ensures outcome { (calls : ServicesView) (memory : List ℕ) →
            let before = state_of self.old calls memory in
            IsOutcome (jump_effect target inst.now before) result before
            (state_of self.new calls memory) [] }
        ensures stays { OnErr result (self.new ≡ self.old) }
        ensures only_traps { OnlyTraps result }
    {
        if let Some(cause) = fault_at_target(target) {
            return Err(StepStop::Trap(cause));
        }
        let link = self.pc().wrapping_add(4);
        self.set_reg(inst.rd, link);
        self.set_pc(target);
        Ok(Step::Retired)
    }

    // A branch, where it is taken or not.
    #[inline]
    pub(crate) fn branch(&mut self, taken: bool, inst: &Inst) -> Result<Step, StepStop>
        ensures outcome { (calls : ServicesView) (memory : List ℕ) →
            let before = state_of self.old calls memory in
            IsOutcome (branch_effect taken inst.now before) result before
            (state_of self.new calls memory) [] }
        ensures stays { OnErr result (self.new ≡ self.old) }
        ensures only_traps { OnlyTraps result }
    {
        if !taken {
            self.pass();
            return Ok(Step::Retired);
        }
        let target = self.relative_address(inst);
        if let Some(cause) = fault_at_target(target) {
            return Err(StepStop::Trap(cause));
        }
        self.set_pc(target);
        Ok(Step::Retired)
    }
}

// Why a jump or a taken branch traps.
#[inline]
fn fault_at_target(target: u32) -> Option<Cause>
    ensures { result ≡ target_fault target }
{
    if target % 4 == 0 {
        None
    } else {
        Some(Cause::MisalignedTarget)
    }
}
