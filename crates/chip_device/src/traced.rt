// A run whose bus is recorded.
ghost use Rattle.std.specs.Prelude.{◌≡◌, ◌^◌, ◌<◌, [], length, IfOk, IfSome};
ghost use Rattle.adversary_script.specs.Script.{FitScript};
ghost use Rattle.sec_base.specs.Geometry.{memory_size};
ghost use Rattle.sec_base.specs.Program.{IsImageOf, Program};
ghost use Rattle.attest_report.specs.ToldEnding as told;
ghost use Rattle.chip_words.specs.Words.{run_asked};
ghost use Rattle.chip_device.specs.Buses.{IsBusOf};
ghost use Rattle.chip_device.specs.Device.{terms_of};
ghost use Rattle.chip_device.specs.Traced as spec;
ghost use Rattle.chip_device.specs.Traced.{RunsTraced};

use crate::device::run_over;
use crate::printed::Printed;
use crate::run_bus::RunBus;
use adversary_script::Script;
use attest_report::ending_and_code;
use bus_model::Bus;
use bus_trace::{Entries, RecordBus, Trace};
use chip_run::RunRecord;
use chip_words::ProtectedRun;
use sec_base::{Bytes, Ending, Image, NoMemory, NoMemoryWith};
use std::alloc::Global;

/// Runs a program on an input as a request asks, on protected memory over a bus that follows the script, where there is
/// one, and keeps what the program prints and what its bus is asked and answers. That is its trace, unless it ended as a
/// write fault or out of memory. Fails only if out of memory.
pub fn trace_on_device(
    alloc: Global,
    image: &Image,
    script: Option<Script>,
    input: &[u8],
    asked: &ProtectedRun<'_>,
) -> Result<(RunRecord, RunBus, Option<Trace>), NoMemory>
    requires size { image.now.size ≡ memory_size asked.now.execution.file.geometry }
    requires fits { IfSome script (FitScript asked.now.execution.file.geometry) }
    ensures traced { (program : Program) →
        IsImageOf (memory_size asked.now.execution.file.geometry) program image.now →
        IfOk result (λ done. RunsTraced (terms_of (run_asked asked.now) program input.now) done.0
        done.1 done.2) }
    ensures bus { IfOk result (λ done. IsBusOf script done.1) }
{
    let bus = RunBus::new(alloc, script, asked.execution.file.geometry)?;
    let recorded = record_bus(alloc, bus)?;
    let mut printed = Printed::new(alloc);
    let (run, recorded) = run_over(alloc, image, input, asked, recorded, &mut printed);
    let (entries, bus) = recorded.finish();
    let trace = trace_by(run.ending, run.retired, printed.into_bytes(), entries);
    Ok((run, bus, trace))
}

// The bus, of which everything is kept that it is asked and answers.
fn record_bus<B: Bus + Drop>(alloc: Global, bus: B) -> Result<RecordBus<B>, NoMemory>
    ensures { IfOk result (λ recorded. recorded ≡ record { bus = bus; entries = [] }) }
{
    match RecordBus::new(alloc, bus) {
        Ok(recorded) => Ok(recorded),
        Err(NoMemoryWith(_)) => Err(NoMemory),
    }
}

// The trace of a run that ended so, if reports tell its ending.
fn trace_by(ending: Ending, retired: u64, output: Bytes, entries: Entries) -> Option<Trace>
    ensures few { length entries < 2 ^ 64 }
    ensures trace { result
        ≡ spec.trace_by (told.ending_and_code ending) retired output entries }
{
    let _count = entries.len();
    let (ending, code) = ending_and_code(ending)?;
    Some(Trace {
        output,
        ending,
        code,
        retired,
        entries,
    })
}
