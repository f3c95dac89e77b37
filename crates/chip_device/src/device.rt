// The device that programs run on.
ghost use Rattle.std.specs.Prelude.{◌≡◌, ◌≤◌, List, IfOk, IfSome, OnErr};
ghost use Rattle.adversary_script.specs.Script.{FitScript};
ghost use Rattle.sec_base.specs.Geometry.{memory_size};
ghost use Rattle.sec_base.specs.Program.{IsImageOf, Program};
ghost use Rattle.sec_base.specs.Sink.{IsSilent};
ghost use Rattle.bus_model.specs.Access.{Access};
ghost use Rattle.bus_model.specs.BusHistory.{new_history};
ghost use Rattle.chip_run.specs.Run.{KeepsAccesses, RunsProtected};
ghost use Rattle.chip_words.specs.Words.{run_asked};
ghost use Rattle.chip_device.specs.Buses.{IsBusOf, WentOver, run_history};
ghost use Rattle.chip_device.specs.Device as spec;
ghost use Rattle.chip_device.specs.Device.{terms_of};

use crate::run_bus::RunBus;
use adversary_script::Script;
use bus_model::Bus;
use chip_run::{RunRecord, Setup, run};
use chip_words::{ProtectedRun, Tags};
use hmac_tag::{HmacTagger, XorTagger, derive};
use sec_base::{Image, NoMemory, Sink};
use std::alloc::Global;

/// Runs a program on an input as a request asks, on protected memory over a bus that follows the script, where there is
/// one.
pub fn run_on_device<O: Sink>(
    alloc: Global,
    image: &Image,
    script: Option<Script>,
    input: &[u8],
    asked: &ProtectedRun<'_>,
    out: &mut O,
) -> Result<(RunRecord, RunBus), NoMemory>
    requires size { image.now.size ≡ memory_size asked.now.execution.file.geometry }
    requires fits { IfSome script (FitScript asked.now.execution.file.geometry) }
    ensures ran { (program : Program) →
        IsImageOf (memory_size asked.now.execution.file.geometry) program image.now →
        IfOk result (λ done.
        RunsProtected (terms_of (run_asked asked.now) program input.now) (O.state out.old)
        (O.state out.new)
        (new_history asked.now.execution.file.geometry) (run_history done.1) done.0) }
    ensures bus { IfOk result (λ done. IsBusOf script done.1) }

    // The writes of its bus are the messages of the run, in order.
    ensures accesses { (program : Program) →
        IsImageOf (memory_size asked.now.execution.file.geometry) program image.now →
        IfOk result (λ done. WentOver (terms_of (run_asked asked.now) program input.now) done.0
        done.1) }

    ensures silent { OnErr result (IsSilent (O.state out.old) (O.state out.new)) }
    ensures faults { (O.state out.old).faults ≤ (O.state out.new).faults }
{
    let bus = RunBus::new(alloc, script, asked.execution.file.geometry)?;
    Ok(run_over(alloc, image, input, asked, bus, out))
}

// Runs a program on an input as a request asks, on protected memory over any bus that is new. The bus comes back as it
// stands at the end.
pub(crate) fn run_over<B: Bus, O: Sink>(
    alloc: Global,
    image: &Image,
    input: &[u8],
    asked: &ProtectedRun<'_>,
    bus: B,
    out: &mut O,
) -> (RunRecord, B)
    requires size { image.now.size ≡ memory_size asked.now.execution.file.geometry }
    requires new { B.history bus ≡ new_history asked.now.execution.file.geometry }
    ensures ran { (program : Program) →
        IsImageOf (memory_size asked.now.execution.file.geometry) program image.now →
        RunsProtected (terms_of (run_asked asked.now) program input.now) (O.state out.old)
        (O.state out.new)
        (new_history asked.now.execution.file.geometry) (B.history result.1) result.0 }

    // Some accesses led from the bus that was given to the one handed back; their writes are the messages of the run.
    ensures accesses { (accesses : List Access) × B.moved bus accesses result.1
        × ((program : Program) →
        IsImageOf (memory_size asked.now.execution.file.geometry) program image.now →
        KeepsAccesses (terms_of (run_asked asked.now) program input.now) (B.history result.1)
        accesses result.0) }

    ensures faults { (O.state out.old).faults ≤ (O.state out.new).faults }
{
    let setup = setup_of(asked);
    match asked.terms.tags {
        Tags::Hmac => run(
            alloc,
            image,
            input,
            &setup,
            HmacTagger::new(&setup.keys),
            bus,
            out,
        ),
        Tags::Xor => run(
            alloc,
            image,
            input,
            &setup,
            XorTagger::new(&setup.keys),
            bus,
            out,
        ),
    }
}

// What a run is given as it is asked for, beside its program, its input and its bus.
pub(crate) fn setup_of(asked: &ProtectedRun<'_>) -> Setup
    ensures { result ≡ spec.setup_of (run_asked asked.now) }
{
    let keys = derive(&asked.terms.device_key);
    Setup {
        geometry: asked.execution.file.geometry,
        keys,
        budget: asked.execution.steps,
        page_limit: asked.terms.page_limit,
        nonce: asked.terms.nonce,
    }
}
