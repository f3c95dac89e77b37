//! The plain machine: a program in a flat memory, with neither keys nor tags.
#![tactic(auto)]

ghost use Rattle.std.specs.Prelude.{◌≡◌, IfOk};
ghost use Rattle.sec_base.specs.Opening.{opening_memory};
ghost use Rattle.rv32_core.specs.Machine.{opening};
ghost use Rattle.plain_machine.specs.PlainRun.{RunsPlain};

mod ram;

pub use ram::FlatRam;
use rv32_run::{Execution, store_image};
use sec_base::{Ending, Image, NoMemory, Sink};
use std::alloc::Global;

/// What a run came to.
#[derive(Clone, Copy, Debug, PartialEq, Eq)]
pub struct PlainRecord {
    /// How many instructions were retired.
    pub retired: u64,
    /// How it ended.
    pub ending: Ending,
}

/// Runs a program on an input, in a flat memory, and writes what it prints to a sink.
// As a part of its caller's body its loop would be slower.
#[inline(never)]
pub fn run<S: Sink>(
    alloc: Global,
    image: &Image,
    input: &[u8],
    budget: u64,
    out: &mut S,
) -> PlainRecord
    // The run of the program on its input.
    ensures run { RunsPlain (opening image.now input.now) budget (S.state out.old) (S.state out.new)
        result }
{
    let Ok(memory) = opened(alloc, image) else {
        return PlainRecord {
            retired: 0,
            ending: Ending::NoMemory,
        };
    };
    let mut execution = Execution::new(image, input, memory, budget);
    let ending = execution.finish(out);
    let retired = execution.retired();
    let (_memory, _calls) = execution.into_parts();
    PlainRecord { retired, ending }
}

// The memory as the program finds it.
fn opened(alloc: Global, image: &Image) -> Result<FlatRam, NoMemory>
    ensures { IfOk result (λ memory. memory ≡ opening_memory image.now.size image.now.segments) }
{
    let mut memory = FlatRam::new(alloc, image.size)?;
    match store_image(&mut memory, image) {
        Ok(()) => Ok(memory),
        Err(_) => unreachable!(),
    }
}
