// The verdict on a trace.
ghost use Rattle.std.specs.Prelude.{◌≡◌, ◌≢◌, ◌↔◌, ◌+◌, ◌≤◌, IsTrue, IfNone, IfOk, IfSome, Some, is_some};
ghost use Rattle.sec_base.specs.declared.ending.Ending.TheVariants.{WriteFault};
ghost use Rattle.attest_report.specs.ToldEnding as told;
ghost use Rattle.rv32_core.specs.Follows.{IsWhole};
ghost use Rattle.rv32_core.specs.Machine.{opening, plain};
ghost use Rattle.bus_trace.specs.FirstFalse as spec;
ghost use Rattle.bus_trace.specs.Judge as judged;
ghost use Rattle.bus_trace.specs.Judge.{CanEnd, CanPrint, IsLie, IsVerdict, IsWithoutLie};
ghost use Rattle.bus_trace.specs.Comparison.{IsPrinted};
ghost use Rattle.bus_trace.specs.Stand.{IsStand};

use crate::comparison::{Comparison, Printed, Unread};
use crate::falsity::first_false;
use crate::trace::Trace;
use crate::verdict::{Difference, Verdict};
use attest_report::ending_and_code;
use plain_machine::PlainRecord;
use sec_base::{Ending, Image, NoMemory};
use std::alloc::Global;

// The numbers of endings.
const HALTED: u8 = 0;

const TRAPPED: u8 = 1;

const OUT_OF_STEPS: u8 = 4;

const TAMPERED: u8 = 5;

const SPENT: u8 = 6;

/// Where the plain machine stands after so many instructions: how a run of that budget ended, and how what that machine
/// prints by then compares with what was expected.
#[derive(Clone, Copy)]
pub(crate) struct Stand {
    pub run: PlainRecord,
    pub printed: Printed,
}

/// Whether a trace's reads are true, but for a last one that ended its run as tampered, and the plain machine allows its
/// retired count, its output and its ending, for this program on this input and within this budget; or how it first differs
/// from that, in this order. Keys, tags and what was written are not checked. `NoMemory` may come at any trace.
pub fn judge(alloc: Global, image: &Image, input: &[u8], budget: u64, trace: &Trace) -> Verdict
    ensures { IsVerdict (opening image.now input.now) budget trace.now result }
{
    verdict(alloc, image, input, budget, trace).unwrap_or(Verdict::NoMemory)
}

// The verdict.
fn verdict(
    alloc: Global,
    image: &Image,
    input: &[u8],
    budget: u64,
    trace: &Trace,
) -> Result<Verdict, NoMemory>
    ensures { IfOk result (IsVerdict (opening image.now input.now) budget trace.now) }
{
    let first_false = first_false(alloc, trace.entries.as_slice())?;
    if let Some(number) = lie(trace, first_false) {
        return Ok(Verdict::No(Difference::Lie(number)));
    }
    if trace.retired > budget {
        return Ok(Verdict::No(Difference::Retired));
    }
    let stand = stand_at(alloc, image, input, trace.retired, trace.output.as_slice())?;
    let run = whole_run(alloc, image, input, trace.retired, stand.run)?;
    if run.retired != trace.retired {
        return Ok(Verdict::No(Difference::Retired));
    }
    if !can_print(alloc, image, input, trace, stand.printed)? {
        return Ok(Verdict::No(Difference::Output));
    }
    if !can_end(
        alloc,
        image,
        input,
        budget,
        trace,
        run.ending,
        first_false.is_some(),
    )? {
        return Ok(Verdict::No(Difference::Ending));
    }
    Ok(Verdict::Follows)
}

// The number of the first false entry, unless the run ended with it as tampered.
fn lie(trace: &Trace, first_false: Option<u64>) -> Option<u64>
    requires { first_false ≡ spec.first_false trace.now.entries }
    ensures lie { IfSome result (IsLie trace.now) }
    ensures none { IfNone result (IsWithoutLie trace.now) }
{
    match first_false {
        Some(number) if number != trace.entries.len() as u64 || trace.ending != TAMPERED => {
            Some(number)
        }
        _ => None,
    }
}

// Where the plain machine stands after so many instructions.
fn stand_at(
    alloc: Global,
    image: &Image,
    input: &[u8],
    retired: u64,
    expected: &[u8],
) -> Result<Stand, NoMemory>
    ensures { IfOk result (IsStand (opening image.now input.now) retired expected.now) }
{
    let mut sink = Comparison::new(expected);
    let run = plain_machine::run(alloc, image, input, retired, &mut sink);
    let printed = sink.printed();
    match run.ending {
        Ending::NoMemory => Err(NoMemory),
        // It printed something else, and stopped there.
        Ending::WriteFault if run.retired < retired => Ok(Stand { run, printed }),
        Ending::WriteFault => Err(NoMemory),
        _ => Ok(Stand { run, printed }),
    }
}

// How the plain machine's run of this budget ends.
fn unread_run(
    alloc: Global,
    image: &Image,
    input: &[u8],
    budget: u64,
) -> Result<PlainRecord, NoMemory>
    ensures { IfOk result (λ run. IsWhole (opening image.now input.now) budget run.retired
        run.ending) }
{
    let run = plain_machine::run(alloc, image, input, budget, &mut Unread);
    match run.ending {
        Ending::NoMemory => Err(NoMemory),
        _ => Ok(run),
    }
}

// A run that stopped at what it printed runs again, with what it prints unread.
fn whole_run(
    alloc: Global,
    image: &Image,
    input: &[u8],
    budget: u64,
    run: PlainRecord,
) -> Result<PlainRecord, NoMemory>
    requires { run.ending ≢ WriteFault → IsWhole (opening image.now input.now) budget run.retired
        run.ending }
    ensures { IfOk result (λ whole. IsWhole (opening image.now input.now) budget whole.retired
        whole.ending) }
{
    match run.ending {
        Ending::WriteFault => unread_run(alloc, image, input, budget),
        _ => Ok(run),
    }
}

// One instruction more than the trace has. No run gets to the greatest count.
fn next_count(trace: &Trace) -> Result<u64, NoMemory>
    ensures { IfOk result (λ count. count ≡ trace.now.retired + 1) }
{
    trace.retired.checked_add(1).ok_or(NoMemory)
}

// Whether a run that retired as many can print what the trace has.
#[tactic(auto, using(crate::proofs::Outputs::not_begun, crate::proofs::Outputs::stopped_front, crate::proofs::Outputs::whole_front))]
fn can_print(
    alloc: Global,
    image: &Image,
    input: &[u8],
    trace: &Trace,
    printed: Printed,
) -> Result<bool, NoMemory>
    requires { IsPrinted trace.now.output
        (plain (opening image.now input.now) trace.now.retired).output printed }
    ensures { IfOk result (λ can. IsTrue can ↔ CanPrint (opening image.now input.now) trace.now) }
{
    if !printed.front {
        return Ok(false);
    }
    if is_stopped(trace.ending) {
        let count = next_count(trace)?;
        let next = stand_at(alloc, image, input, count, trace.output.as_slice())?;
        Ok(next.printed.whole)
    } else {
        Ok(printed.whole)
    }
}

// Whether a run with this ending was stopped at an instruction.
fn is_stopped(ending: u8) -> bool
    ensures { result ≡ judged.is_stopped ending }
{
    ending == TAMPERED || ending == SPENT
}

// Whether a run that retired as many can end as the trace says. `ending` is how the plain machine's run ends where that is
// its budget.
#[tactic(auto, using(crate::proofs::Endings::can_halt, crate::proofs::Endings::can_use_up, crate::proofs::Endings::can_be_tampered))]
fn can_end(
    alloc: Global,
    image: &Image,
    input: &[u8],
    budget: u64,
    trace: &Trace,
    ending: Ending,
    has_false: bool,
) -> Result<bool, NoMemory>
    requires within { trace.now.retired ≤ budget }
    requires run { IsWhole (opening image.now input.now) trace.now.retired trace.now.retired
        ending }
    requires has_false { has_false ≡ is_some (spec.first_false trace.now.entries) }
    ensures { IfOk result (λ can. IsTrue can
        ↔ CanEnd (opening image.now input.now) budget trace.now) }
{
    match trace.ending {
        HALTED => Ok(tells(ending, HALTED, trace.code)),
        TRAPPED if trace.retired < budget => {
            let count = next_count(trace)?;
            let next = unread_run(alloc, image, input, count)?;
            Ok(tells(next.ending, TRAPPED, trace.code))
        }
        OUT_OF_STEPS => { Ok(trace.retired == budget && tells(ending, OUT_OF_STEPS, trace.code)) }
        // Where the program goes on it can be stopped, with the code of one that is out of steps.
        TAMPERED => Ok(has_false && tells(ending, OUT_OF_STEPS, trace.code)),
        SPENT => Ok(tells(ending, OUT_OF_STEPS, trace.code)),
        _ => Ok(false),
    }
}

// Whether reports tell an ending by this number and this code.
fn tells(ending: Ending, number: u8, code: u32) -> bool
    ensures { IsTrue result ↔ (told.ending_and_code ending ≡ Some (number, code)) }
{
    match ending_and_code(ending) {
        Some((told_number, told_code)) => told_number == number && told_code == code,
        None => false,
    }
}
