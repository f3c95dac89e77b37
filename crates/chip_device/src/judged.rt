// The judgement of a trace.
ghost use Rattle.std.specs.Prelude.{IfOk};
ghost use Rattle.sec_base.specs.Geometry.{memory_size};
ghost use Rattle.sec_base.specs.Program.{IsImageOf, Program};
ghost use Rattle.chip_device.specs.Device.{opening};
ghost use Rattle.chip_device.specs.Judged.{IsJudged};

use bus_trace::{Difference, Trace, Verdict, judge};
use chip_words::Execution;
use sec_base::{Image, NoMemory};
use std::alloc::Global;

/// How a trace first differs from what the plain machine allows, for the program on an input as a request asks: not at all
/// where it follows. Fails only if out of memory.
pub fn judge_trace(
    alloc: Global,
    image: &Image,
    input: &[u8],
    execution: &Execution<'_>,
    trace: &Trace,
) -> Result<Option<Difference>, NoMemory>
    ensures { (program : Program) →
        IsImageOf (memory_size execution.now.file.geometry) program image.now →
        IfOk result (IsJudged (opening execution.now.file.geometry program input.now)
        execution.now.steps trace.now) }
{
    match judge(alloc, image, input, execution.steps, trace) {
        Verdict::Follows => Ok(None),
        Verdict::No(difference) => Ok(Some(difference)),
        Verdict::NoMemory => Err(NoMemory),
    }
}
