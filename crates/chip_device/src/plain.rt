// A run on the plain machine.
ghost use Rattle.std.specs.Prelude.{◌≤◌};
ghost use Rattle.sec_base.specs.Geometry.{memory_size};
ghost use Rattle.sec_base.specs.Program.{IsImageOf, Program};
ghost use Rattle.chip_device.specs.Device.{opening};
ghost use Rattle.plain_machine.specs.PlainRun.{RunsPlain};

use chip_words::Execution;
use plain_machine::{PlainRecord, run};
use sec_base::{Image, Sink};
use std::alloc::Global;

/// Runs a program on an input as a request asks, on the plain machine.
pub fn run_plain<O: Sink>(
    alloc: Global,
    image: &Image,
    input: &[u8],
    execution: &Execution<'_>,
    out: &mut O,
) -> PlainRecord
    ensures ran { (program : Program) →
        IsImageOf (memory_size execution.now.file.geometry) program image.now →
        RunsPlain (opening execution.now.file.geometry program input.now) execution.now.steps
        (O.state out.old) (O.state out.new) result }
    ensures faults { (O.state out.old).faults ≤ (O.state out.new).faults }
{
    run(alloc, image, input, execution.steps, out)
}
