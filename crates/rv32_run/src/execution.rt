// A run that is under way.
ghost use Rattle.std.specs.Prelude.{◌≡◌, ◌≢◌, ◌↔◌, ◌<◌, ◌≤◌, ◌++◌, ℕ, List, [], None, Some, IfSome, length};
ghost use Rattle.sec_base.specs.declared.ending.Ending.TheVariants.{OutOfSteps, WriteFault, NoMemory};
ghost use Rattle.sec_base.specs.Count.{Rose, more_by};
ghost use Rattle.sec_base.specs.Prefix.{IsPrefix};
ghost use Rattle.sec_base.specs.Ram.{GoesOn};
ghost use Rattle.rv32_core.specs.State.{opening_core, state_of};
ghost use Rattle.rv32_core.specs.Effect.{next};
ghost use Rattle.rv32_core.specs.Outcome.{prints_of};
ghost use Rattle.rv32_core.specs.Machine.{Machine, plain, opening_calls};
ghost use Rattle.rv32_core.specs.Printing.{HoldsTaken, Prints};
ghost use Rattle.rv32_core.specs.TouchedLines.{touched_lines};
ghost use Rattle.rv32_run.specs.Trail.{IsInstruction};
ghost use Rattle.rv32_run.specs.Execution.{Reaches, StandsAt, Turns, retired_after, stop_ending, CarriesEnding};
ghost use Rattle.rv32_run.specs.Progress.{PrintsAndEnds, PrintsAndGoes, semantics_of};

use rv32_core::{Calls, Core, Processor, Step, StepStop};
use sec_base::{Ending, Image, MemStop, Ram, Sink};
use std::marker::Model;

/// A run that is under way: a processor with its services and its memory, and how many instructions it retired and may
/// retire.
pub struct Execution<'a, P: Processor, M: Ram> {
    processor: P,
    calls: Calls<'a>,
    memory: M,
    retired: u64,
    budget: u64,
}

impl<'a, P: Processor, M: Ram> Model for Execution<'a, P, M> {
    ghost use Rattle.rv32_run.specs.ExecutionView.{ExecutionView};

    ghost Value = { ExecutionView P M };

    ghost view = { λ execution. record {
      processor = execution.processor;
      calls = execution.calls;
      memory = execution.memory;
      retired = execution.retired;
      budget = execution.budget;
    } };
}

impl<'a, M: Ram> Execution<'a, Core, M> {
    /// A program in its memory, before its first instruction.
    pub fn new(image: &Image, input: &'a [u8], memory: M, budget: u64) -> Execution<'a, Core, M>
        ensures core { result.processor ≡ opening_core image.now.entry image.now.size }
        ensures services { result.calls.services ≡ opening_calls image.now.segments input.now }
        ensures nothing_taken { HoldsTaken result.calls.taken [] }
        ensures memory { result.memory ≡ memory }
        ensures retired { result.retired ≡ 0 }
        ensures budget { result.budget ≡ budget }
    {
        Execution {
            processor: Core::new(image.entry, image.size),
            calls: Calls::new(input, image),
            memory,
            retired: 0,
            budget,
        }
    }
}

impl<'a, P: Processor, M: Ram> Execution<'a, P, M> {
    /// How many instructions were retired.
    pub fn retired(&self) -> u64
        ensures { result ≡ self.now.retired }
    {
        self.retired
    }

    /// How many bytes the sink took. It stands still at 2^64 - 1.
    pub fn printed(&self) -> u64
        ensures { (bytes : List ℕ) → HoldsTaken self.now.calls.taken bytes →
            result ≡ more_by (length bytes) 0 }
    {
        self.calls.printed()
    }

    /// The memory as it is, and the services, which have what the sink took.
    pub fn into_parts(self) -> (M, Calls<'a>)
        ensures memory { result.0 ≡ self.entry.memory }
        ensures calls { result.1 ≡ self.entry.calls }
    {
        let Execution {
            processor: _processor,
            calls,
            memory,
            retired: _,
            budget: _,
        } = self;
        (memory, calls)
    }

    /// Does one instruction, where the budget allows one more. It returns how the run ended, if it did.
    #[inline(always)]
    pub fn turn<S: Sink>(&mut self, out: &mut S) -> Option<Ending>
        requires within { self.old.retired ≤ self.old.budget }
        requires going { M.stopped self.old.memory ≡ None }
        ensures goes { result ≡ None →
            PrintsAndGoes (semantics_of P.core M.contents M.extent M.sound M.stopped M.moved)
            (S.state out.old) (S.state out.new) self.old self.new }
        ensures ends { IfSome result (λ ending.
            PrintsAndEnds (semantics_of P.core M.contents M.extent M.sound M.stopped M.moved) ending
            (S.state out.old) (S.state out.new) self.old self.new) }
        ensures out_of_steps { (result ≡ Some OutOfSteps) ↔ (self.old.retired ≡ self.old.budget) }
        ensures used_up { result ≡ Some OutOfSteps →
            (self.new ≡ self.old) × (out.new ≡ out.old) }
        ensures retired { self.new.retired ≡ retired_after result self.old.retired }
    {
        if self.retired == self.budget {
            return Some(Ending::OutOfSteps);
        }
        turn(
            &mut self.processor,
            &mut self.calls,
            &mut self.memory,
            &mut self.retired,
            self.budget,
            out,
        )
    }

    /// Goes on until so many instructions were retired, unless it ends before.
    pub fn advance<S: Sink>(&mut self, until: u64, out: &mut S) -> Option<Ending>
        requires begun { self.old.retired ≤ until }
        requires within { until ≤ self.old.budget }
        requires going { M.stopped self.old.memory ≡ None }
        ensures goes { result ≡ None →
            PrintsAndGoes (semantics_of P.core M.contents M.extent M.sound M.stopped M.moved)
            (S.state out.old) (S.state out.new) self.old self.new }
        ensures ends { IfSome result (λ ending.
            PrintsAndEnds (semantics_of P.core M.contents M.extent M.sound M.stopped M.moved) ending
            (S.state out.old) (S.state out.new) self.old self.new) }
        ensures arrived { result ≡ None → self.new.retired ≡ until }

        // What ended it was begun before that, and it was not the budget.
        ensures begun_before { IfSome result (λ ending.
            (n : ℕ) × (n < until) × (self.new.retired ≡ retired_after (Some ending) n)) }
        ensures within_budget { result ≢ Some OutOfSteps }
    {
        // A count of its own, since a run would else store it at each instruction.
        let mut retired = self.retired;
        while retired != until {
            let turned = turn(
                &mut self.processor,
                &mut self.calls,
                &mut self.memory,
                &mut retired,
                self.budget,
                out,
            );
            if let Some(ending) = turned {
                self.retired = retired;
                return Some(ending);
            }
        }
        self.retired = retired;
        None
    }

    /// Goes on to the end.
    pub fn finish<S: Sink>(&mut self, out: &mut S) -> Ending
        requires within { self.old.retired ≤ self.old.budget }
        requires going { M.stopped self.old.memory ≡ None }
        ensures ended { PrintsAndEnds (semantics_of P.core M.contents M.extent M.sound M.stopped
            M.moved) result
            (S.state out.old) (S.state out.new) self.old self.new }
    {
        match self.advance(self.budget, out) {
            Some(ending) => ending,
            None => Ending::OutOfSteps,
        }
    }
}

// Does one instruction. It returns how the run ended, if it did.
#[inline(always)]
fn turn<P: Processor, M: Ram, S: Sink>(
    processor: &mut P,
    calls: &mut Calls,
    memory: &mut M,
    retired: &mut u64,
    budget: u64,
    out: &mut S,
) -> Option<Ending>
    requires within { retired.old < budget }
    requires going { M.stopped memory.old ≡ None }

    // Where the memory can be relied on, it goes on as the plain machine does.
    ensures turns { (printed : List ℕ)
        × Prints (S.state out.old) calls.old.taken printed (S.state out.new) calls.new.taken
        × (M.sound memory.new → (start : Machine) (before : List ℕ) →
        Reaches start retired.old (P.core processor.old) calls.old.services (M.contents memory.old)
        before →
        Turns start budget result retired.new (P.core processor.new) calls.new.services
        (M.contents memory.new) (before ++ printed)) }

    ensures stands { M.sound memory.new → (start : Machine) (before : List ℕ) →
        Reaches start retired.old (P.core processor.old) calls.old.services (M.contents memory.old)
        before →
        StandsAt (plain start retired.new) (P.core processor.new) calls.new.services }

    ensures within_budget { result ≢ Some OutOfSteps }
    ensures retired { retired.new ≡ retired_after result retired.old }

    // Where the memory did not stop, it was out of memory only at an instruction that prints.
    ensures sink_stop { M.stopped memory.new ≡ None → M.sound memory.new → result ≡ Some NoMemory →
        0 < length (prints_of
        (next (state_of (P.core processor.old) calls.old.services (M.contents memory.old)))) }

    ensures mem { CarriesEnding (M.stopped memory.new) result }
    ensures write_fault { result ≡ Some WriteFault →
        Rose (S.state out.old).faults (S.state out.new).faults }
    ensures faults { (S.state out.old).faults ≤ (S.state out.new).faults }
    ensures quiet { result ≢ Some WriteFault → (S.state out.new).faults ≡ (S.state out.old).faults }

    // It touches the lines of the instruction, or a front part of them.
    ensures moved { GoesOn M.extent M.sound M.moved (λ lines. M.sound memory.new →
        IsPrefix lines (touched_lines (state_of (P.core processor.old) calls.old.services
        (M.contents memory.old)))) memory.old memory.new }
    ensures instruction { retired.old < retired.new → M.sound memory.new →
        (start : Machine) (before : List ℕ) →
        Reaches start retired.old (P.core processor.old) calls.old.services (M.contents memory.old)
        before →
        IsInstruction M.stopped M.contents M.moved start retired.old memory.old memory.new }
{
    match processor.step(memory, calls, out) {
        Ok(Step::Retired) => {
            *retired += 1;
            None
        }
        Ok(Step::Halted(code)) => {
            *retired += 1;
            Some(Ending::Halted(code))
        }
        Err(StepStop::Trap(cause)) => Some(Ending::Trapped {
            cause,
            pc: processor.pc(),
        }),
        Err(StepStop::Mem(stop)) => Some(ending_of(stop)),
        Err(StepStop::WriteFault) => Some(Ending::WriteFault),
    }
}

/// How a run ends that the memory stops.
pub fn ending_of(stop: MemStop) -> Ending
    ensures { result ≡ stop_ending stop }
{
    match stop {
        MemStop::Tampered(place) => Ending::Tampered(place),
        MemStop::Spent(page) => Ending::Spent(page),
        MemStop::NoMemory => Ending::NoMemory,
    }
}
