// The run of a generated program.
ghost use Rattle.std.specs.Prelude.{◌≡◌, [], None, IfOk};
ghost use Rattle.sec_base.specs.Geometry.{memory_size, one};
ghost use Rattle.sec_base.specs.Program.{IsImageOf, Program};
ghost use Rattle.bus_model.specs.BusHistory.{new_history};
ghost use Rattle.chip_run.specs.Run.{RunsProtected};
ghost use Rattle.chip_device.specs.Buses.{IsBusOf, WentOver, run_history};
ghost use Rattle.chip_device.specs.Device.{terms_of};
ghost use Rattle.chip_device.specs.Generated.{RunsGenerated, generated_run};
ghost use Rattle.chip_device.specs.Printed.{gathered};

use crate::device::run_on_device;
use crate::printed::Printed;
use crate::run_bus::RunBus;
use chip_run::RunRecord;
use chip_words::{Execution, ProgramFile, ProgramForm, ProtectedRun, default_run};
use sec_base::{Image, NoMemory};
use std::alloc::Global;
use workload_gen::make;

/// Runs the generated program of a number on protected memory, on the terms that a run has by default. Fails only if out
/// of memory.
pub fn run_generated(alloc: Global, number: u32) -> Result<(RunRecord, RunBus, Printed), NoMemory>
    ensures ran { IfOk result (λ done. RunsGenerated number done.2 done.0 done.1) }
{
    let image = make(alloc, number)?;
    let mut printed = Printed::new(alloc);
    let (run, bus) = run_by_default(alloc, &image, &mut printed)?;
    Ok((run, bus, printed))
}

// Runs a program as a run does that names no option, on an empty input. Fails only if out of memory.
fn run_by_default(
    alloc: Global,
    image: &Image,
    printed: &mut Printed,
) -> Result<(RunRecord, RunBus), NoMemory>
    requires size { image.now.size ≡ memory_size (one 4) }
    ensures ran { (program : Program) → IsImageOf (memory_size (one 4)) program image.now →
        IfOk result (λ done.
        RunsProtected (terms_of generated_run program []) (gathered printed.old)
        (gathered printed.new)
        (new_history (one 4)) (run_history done.1) done.0) }
    ensures bus { IfOk result (λ done. IsBusOf None done.1) }
    ensures accesses { (program : Program) → IsImageOf (memory_size (one 4)) program image.now →
        IfOk result (λ done. WentOver (terms_of generated_run program []) done.0 done.1) }
{
    let default = default_run("");
    let file = ProgramFile {
        name: "",
        form: ProgramForm::ElfFile,
        geometry: default.execution.file.geometry,
    };
    let execution = Execution {
        file,
        input: None,
        steps: default.execution.steps,
    };
    let asked = ProtectedRun {
        execution,
        script: None,
        terms: default.terms,
    };
    run_on_device(alloc, image, None, &[], &asked, printed)
}
