// What an instruction comes to.
ghost use Rattle.std.specs.Prelude.{◌≡◌};
ghost use Rattle.rv32_core.specs.Print.{sink_stop};
ghost use Rattle.rv32_core.specs.declared.step.StepStop.TheVariants.{Mem};

use sec_base::{Cause, MemStop, SinkStop};

/// What an instruction that was retired leads to.
#[derive(Clone, Copy, Debug, PartialEq, Eq)]
pub enum Step {
    /// The program goes on.
    Retired,
    /// The program asked to exit, with this code.
    Halted(u32),
}

/// Why an instruction was not retired.
#[derive(Clone, Copy, Debug, PartialEq, Eq)]
pub enum StepStop {
    /// It trapped.
    Trap(Cause),
    /// The memory stopped, or the emulator itself is out of memory.
    Mem(MemStop),
    /// What it prints could not be written.
    WriteFault,
}

impl From<MemStop> for StepStop {
    ghost from_gives = { λ mem stop. stop ≡ Mem mem };

    #[inline]
    fn from(stop: MemStop) -> Self {
        StepStop::Mem(stop)
    }
}

impl From<SinkStop> for StepStop {
    ghost from_gives = { λ sink stop. stop ≡ sink_stop sink };

    fn from(stop: SinkStop) -> Self {
        match stop {
            SinkStop::Failed => StepStop::WriteFault,
            SinkStop::NoMemory => StepStop::Mem(MemStop::NoMemory),
        }
    }
}
