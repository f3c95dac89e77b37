// Fetches, loads and stores (RISC-V unprivileged manual, section 2.6).
ghost use Rattle.std.specs.Prelude.{◌≡◌, ◌≢◌, ◌*◌, ◌%◌, ◌^◌, ◌<◌, ℕ, List, [], ◌∷◌, None, Err, OnErr, length};
ghost use Rattle.sec_base.specs.Geometry.{line_of};
ghost use Rattle.sec_base.specs.Ram.{GoesOn, IsReliable};
ghost use Rattle.sec_base.specs.Width.{width_bytes};
ghost use Rattle.rv32_decode.specs.Encoding.{IsInst};
ghost use Rattle.rv32_core.specs.Effect.{data_fault, load_effect, store_effect};
ghost use Rattle.rv32_core.specs.Extension.{extension as extension_of};
ghost use Rattle.rv32_core.specs.Fetch.{IsFetched, StopsFetch};
ghost use Rattle.rv32_core.specs.Outcome.{CarriesStop, IsOutcome, OnlyTraps};
ghost use Rattle.rv32_core.specs.State.{ServicesView, state_of};
ghost use Rattle.rv32_core.specs.TouchedLines.{AreTouched, access_line};
ghost use Rattle.rv32_core.specs.declared.step.StepStop.TheVariants.{WriteFault};

use crate::processor::Core;
use crate::step::{Step, StepStop};
use rv32_decode::Inst;
use sec_base::{Cause, Ram, Width};

/// What comes in above a number that is shorter than a word.
#[derive(Clone, Copy, Debug, PartialEq, Eq)]
pub enum Extension {
    /// Zeros.
    Zero,
    /// Copies of its top bit.
    Sign,
}

/// The word at the program counter.
#[inline(always)]
pub fn fetch<M: Ram>(ram: &mut M, pc: u32) -> Result<u32, StepStop>
    requires { pc % 4 ≡ 0 }

    ensures fetched { IsReliable M.stopped M.sound ram.old ram.new →
        IsFetched (M.contents ram.old) pc result }
    ensures contents { IsReliable M.stopped M.sound ram.old ram.new →
        M.contents ram.new ≡ M.contents ram.old }

    ensures mem { M.stopped ram.old ≡ None → StopsFetch (M.stopped ram.new) result }
    ensures write_fault { result ≢ Err WriteFault }

    ensures moved { GoesOn M.extent M.sound M.moved
        (λ lines. AreTouched result (line_of pc ∷ []) lines) ram.old ram.new }
{
    if u64::from(pc) + 4 > u64::from(ram.size()) {
        return Err(StepStop::Trap(Cause::OutsideMemory));
    }
    Ok(ram.load(pc, Width::Four)?)
}

impl Core {
    // A load of this width, extended to a word.
    #[inline(always)]
    pub(crate) fn load<M: Ram>(
        &mut self,
        inst: &Inst,
        width: Width,
        extension: Extension,
        ram: &mut M,
    ) -> Result<Step, StepStop>
        requires { IsInst inst.now }

        ensures outcome { IsReliable M.stopped M.sound ram.old ram.new → (calls : ServicesView) →
            let before = state_of self.old calls (M.contents ram.old) in
            IsOutcome (load_effect (extension_of extension) width inst.now before) result before
            (state_of self.new calls (M.contents ram.new)) [] }
        ensures stays { OnErr result (self.new ≡ self.old) }

        ensures mem { M.stopped ram.old ≡ None → CarriesStop (M.stopped ram.new) result }
        ensures only_traps { M.stopped ram.old ≡ None → M.stopped ram.new ≡ None →
            OnlyTraps result }
        ensures write_fault { result ≢ Err WriteFault }

        ensures moved { GoesOn M.extent M.sound M.moved
            (λ lines. AreTouched result
            (access_line width inst.now self.old (length (M.contents ram.old))) lines) ram.old
            ram.new }
    {
        let address = self.data_address(inst);
        if let Some(cause) = fault_at(address, width, ram.size()) {
            return Err(StepStop::Trap(cause));
        }
        let number = ram.load(address, width)?;
        self.retire(inst.rd, extended(number, width, extension))
    }

    // A store of this width.
    #[inline(always)]
    pub(crate) fn store<M: Ram>(
        &mut self,
        inst: &Inst,
        width: Width,
        ram: &mut M,
    ) -> Result<Step, StepStop>
        requires { IsInst inst.now }

        ensures outcome { IsReliable M.stopped M.sound ram.old ram.new → (calls : ServicesView) →
            let before = state_of self.old calls (M.contents ram.old) in
            IsOutcome (store_effect width inst.now before) result before
            (state_of self.new calls (M.contents ram.new)) [] }
        ensures stays { OnErr result (self.new ≡ self.old) }

        ensures mem { M.stopped ram.old ≡ None → CarriesStop (M.stopped ram.new) result }
        ensures only_traps { M.stopped ram.old ≡ None → M.stopped ram.new ≡ None →
            OnlyTraps result }
        ensures write_fault { result ≢ Err WriteFault }

        ensures moved { GoesOn M.extent M.sound M.moved
            (λ lines. AreTouched result
            (access_line width inst.now self.old (length (M.contents ram.old))) lines) ram.old
            ram.new }
    {
        let address = self.data_address(inst);
        if let Some(cause) = fault_at(address, width, ram.size()) {
            return Err(StepStop::Trap(cause));
        }
        ram.store(address, width, self.rs2(inst))?;
        self.pass();
        Ok(Step::Retired)
    }
}

// A number of this width as a word.
#[inline]
fn extended(number: u32, width: Width, extension: Extension) -> u32
    requires { number < 2 ^ (8 * width_bytes width) }
    ensures { result ≡ extension_of extension width number }
{
    match (extension, width) {
        (Extension::Sign, Width::One) if number >= 0x80 => number + 0xffff_ff00,
        (Extension::Sign, Width::Two) if number >= 0x8000 => number + 0xffff_0000,
        _ => number,
    }
}

// Why a load or a store traps.
#[inline]
fn fault_at(address: u32, width: Width, size: u32) -> Option<Cause>
    ensures { result ≡ data_fault address width size }
{
    let bytes = width.bytes();
    if address % bytes != 0 {
        Some(Cause::MisalignedData)
    } else if u64::from(address) + u64::from(bytes) > u64::from(size) {
        Some(Cause::OutsideMemory)
    } else {
        None
    }
}
