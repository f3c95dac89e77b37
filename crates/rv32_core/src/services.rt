// The services of ECALL.
ghost use Rattle.std.specs.Prelude.{◌≡◌, ◌≢◌, ◌≤◌, ℕ, List, [], None, Ok, Err, OnErr};
ghost use Rattle.sec_base.specs.Count.{Rose};
ghost use Rattle.sec_base.specs.Ram.{GoesOn, IsReliable};
ghost use Rattle.rv32_decode.specs.Words.{word_of_signed};
ghost use Rattle.rv32_core.specs.Outcome.{CarriesStop, IsOutcome, IsSinkStop, OnlyTraps};
ghost use Rattle.rv32_core.specs.Printing.{KeepsFaults, Prints};
ghost use Rattle.rv32_core.specs.Services.{brk_service, is_inside, is_output, read_service, service, write_service};
ghost use Rattle.rv32_core.specs.State.{next_core, next_core_with, register, state_of};
ghost use Rattle.rv32_core.specs.TouchedLines.{AreTouched, read_lines, service_lines, write_lines};
ghost use Rattle.rv32_core.specs.declared.step.Step.TheVariants.{Halted, Retired};
ghost use Rattle.rv32_core.specs.declared.step.StepStop.TheVariants.{WriteFault};

use crate::calls::Calls;
use crate::input::store_bytes;
use crate::print::print;
use crate::processor::Core;
use crate::step::{Step, StepStop};
use sec_base::{Ram, Sink};

// The registers of the arguments, of which the first takes the answer, and of the service's number.
const A0: u8 = 10;

const A1: u8 = 11;

const A2: u8 = 12;

const A7: u8 = 17;

// The services, and their negative answers.
const READ: u32 = 63;

const WRITE: u32 = 64;

const EXIT: u32 = 93;

const BRK: u32 = 214;

const BAD_DESCRIPTOR: i32 = -9;

const BAD_ADDRESS: i32 = -14;

const NO_SUCH_SERVICE: i32 = -38;

impl Core {
    // Does the service that a7 names.
    #[tactic(auto, unfolding(crate::specs::Services::service))]
    pub(crate) fn serve<M: Ram, S: Sink>(
        &mut self,
        ram: &mut M,
        calls: &mut Calls,
        out: &mut S,
    ) -> Result<Step, StepStop>
        ensures outcome { let before = state_of self.old calls.old.services (M.contents ram.old) in
            (printed : List ℕ) × Prints (S.state out.old) calls.old.taken printed (S.state out.new)
            calls.new.taken
            × (IsReliable M.stopped M.sound ram.old ram.new →
            IsOutcome (Ok (service before)) result before
            (state_of self.new calls.new.services (M.contents ram.new)) printed) }
        ensures stays { OnErr result ((self.new ≡ self.old)
            × (calls.new.services ≡ calls.old.services)) }

        ensures mem { M.stopped ram.old ≡ None → CarriesStop (M.stopped ram.new) result }
        ensures sink_stop { IsReliable M.stopped M.sound ram.old ram.new →
            M.stopped ram.new ≡ None →
            IsSinkStop result (Ok
            (service (state_of self.old calls.old.services (M.contents ram.old)))) }
        ensures write_fault { result ≡ Err WriteFault →
            Rose (S.state out.old).faults (S.state out.new).faults }
        ensures faults { (S.state out.old).faults ≤ (S.state out.new).faults }
        ensures quiet { KeepsFaults result (S.state out.old) (S.state out.new) }

        ensures moved { GoesOn M.extent M.sound M.moved
            (λ lines. AreTouched result
            (service_lines (state_of self.old calls.old.services (M.contents ram.old))) lines)
            ram.old ram.new }
    {
        match self.reg(A7) {
            READ => self.read_input(ram, calls),
            WRITE => self.write_output(ram, calls, out),
            EXIT => self.exit(),
            BRK => self.move_break(ram, calls),
            _ => self.refuse(NO_SUCH_SERVICE),
        }
    }

    // The next a2 bytes of the input, or what is left of it, are stored from a1 on.
    fn read_input<M: Ram>(&mut self, ram: &mut M, calls: &mut Calls) -> Result<Step, StepStop>
        ensures outcome { let before = state_of self.old calls.old.services (M.contents ram.old) in
            IsReliable M.stopped M.sound ram.old ram.new →
            IsOutcome (Ok (read_service before)) result before
            (state_of self.new calls.new.services (M.contents ram.new)) [] }
        ensures stays { OnErr result ((self.new ≡ self.old)
            × (calls.new.services ≡ calls.old.services)) }
        ensures taken { calls.new.taken ≡ calls.old.taken }

        ensures mem { M.stopped ram.old ≡ None → CarriesStop (M.stopped ram.new) result }
        ensures only_traps { M.stopped ram.old ≡ None → M.stopped ram.new ≡ None →
            OnlyTraps result }
        ensures write_fault { result ≢ Err WriteFault }

        ensures moved { GoesOn M.extent M.sound M.moved
            (λ lines. AreTouched result
            (read_lines (state_of self.old calls.old.services (M.contents ram.old))) lines)
            ram.old ram.new }
    {
        let from = self.reg(A1);
        let count = self.reg(A2);
        if self.reg(A0) != 0 {
            return self.refuse(BAD_DESCRIPTOR);
        }
        if !reaches_inside(from, count, ram.size()) {
            return self.refuse(BAD_ADDRESS);
        }
        let bytes = calls.next_bytes(count);
        let taken = bytes.len();
        store_bytes(ram, from, bytes)?;
        calls.advance(taken);
        self.retire(A0, taken as u32)
    }

    // Prints the a2 bytes from a1 on to the descriptor in a0.
    fn write_output<M: Ram, S: Sink>(
        &mut self,
        ram: &mut M,
        calls: &mut Calls,
        out: &mut S,
    ) -> Result<Step, StepStop>
        ensures outcome { let before = state_of self.old calls.old.services (M.contents ram.old) in
            (printed : List ℕ) × Prints (S.state out.old) calls.old.taken printed (S.state out.new)
            calls.new.taken
            × (IsReliable M.stopped M.sound ram.old ram.new →
            IsOutcome (Ok (write_service before)) result before
            (state_of self.new calls.new.services (M.contents ram.new)) printed) }
        ensures stays { OnErr result (self.new ≡ self.old) }
        ensures services { calls.new.services ≡ calls.old.services }

        ensures mem { M.stopped ram.old ≡ None → CarriesStop (M.stopped ram.new) result }
        ensures sink_stop { IsReliable M.stopped M.sound ram.old ram.new →
            M.stopped ram.new ≡ None →
            IsSinkStop result (Ok
            (write_service (state_of self.old calls.old.services (M.contents ram.old)))) }
        ensures write_fault { result ≡ Err WriteFault →
            Rose (S.state out.old).faults (S.state out.new).faults }
        ensures faults { (S.state out.old).faults ≤ (S.state out.new).faults }
        ensures quiet { KeepsFaults result (S.state out.old) (S.state out.new) }

        ensures moved { GoesOn M.extent M.sound M.moved
            (λ lines. AreTouched result
            (write_lines (state_of self.old calls.old.services (M.contents ram.old))) lines)
            ram.old ram.new }
    {
        let from = self.reg(A1);
        let count = self.reg(A2);
        if !names_output(self.reg(A0)) {
            return self.refuse(BAD_DESCRIPTOR);
        }
        if !reaches_inside(from, count, ram.size()) {
            return self.refuse(BAD_ADDRESS);
        }
        print(ram, calls, out, from, count)?;
        self.retire(A0, count)
    }

    // Ends the program with the code in a0.
    fn exit(&mut self) -> Result<Step, StepStop>
        ensures core { self.new ≡ next_core self.old }
        ensures halted { result ≡ Ok (Halted (register self.old 10)) }
    {
        let code = self.reg(A0);
        self.pass();
        Ok(Step::Halted(code))
    }

    // Moves the program's break to the address in a0, where it may stand there.
    fn move_break<M: Ram>(&mut self, ram: &M, calls: &mut Calls) -> Result<Step, StepStop>
        ensures outcome { let before = state_of self.old calls.old.services (M.contents ram.now) in
            IsOutcome (Ok (brk_service before)) result before
            (state_of self.new calls.new.services (M.contents ram.now)) [] }
        ensures taken { calls.new.taken ≡ calls.old.taken }
        ensures retired { result ≡ Ok Retired }
    {
        let brk = calls.move_break(self.reg(A0), ram.size());
        self.retire(A0, brk)
    }

    // Answers a negative number.
    fn refuse(&mut self, answer: i32) -> Result<Step, StepStop>
        ensures core { self.new ≡ next_core_with self.old 10 (word_of_signed answer) }
        ensures retired { result ≡ Ok Retired }
    {
        self.retire(A0, answer.cast_unsigned())
    }
}

// Whether a range lies inside a memory of this size; one of no bytes always does.
fn reaches_inside(address: u32, count: u32, size: u32) -> bool
    ensures { result ≡ is_inside address count size }
{
    count == 0 || u64::from(address) + u64::from(count) <= u64::from(size)
}

// Whether a descriptor is the output's.
fn names_output(descriptor: u32) -> bool
    ensures { result ≡ is_output descriptor }
{
    descriptor == 1 || descriptor == 2
}
