// How a run ends, and why an instruction traps.
use crate::place::Place;
use std::fmt;

/// Why an instruction traps.
#[derive(Clone, Copy, Debug, PartialEq, Eq)]
pub enum Cause {
    /// The word is no instruction.
    Illegal,
    /// A jump or a taken branch leads to an address that is no multiple of 4.
    MisalignedTarget,
    /// A load or store of 2 or 4 bytes at an address that is no multiple of its width.
    MisalignedData,
    /// A fetch, a load or a store reaches past the memory's end.
    OutsideMemory,
    /// EBREAK.
    Breakpoint,
}

/// How a run ends.
#[derive(Clone, Copy, Debug, PartialEq, Eq)]
pub enum Ending {
    /// The program asked to exit, with this code.
    Halted(u32),
    /// The instruction at `pc` trapped.
    Trapped { cause: Cause, pc: u32 },
    /// As many instructions were retired as the budget allows.
    OutOfSteps,
    /// What was read from this place is not what was written there.
    Tampered(Place),
    /// A line of this page can't be written any more.
    Spent(u32),
    /// The program's output could not be written.
    WriteFault,
    /// The emulator itself is out of memory.
    NoMemory,
}

impl fmt::Display for Cause {
    ghost use Rattle.std.specs.Prelude.{Some};
    ghost use Rattle.sec_base.specs.Ending.{cause_text};

    ghost output = { λ cause. Some (cause_text cause) };

    fn fmt<W: fmt::Write>(&self, f: &mut fmt::Formatter<W>) -> fmt::Result {
        f.write_str(match self {
            Cause::Illegal => "illegal",
            Cause::MisalignedTarget => "misaligned target",
            Cause::MisalignedData => "misaligned data",
            Cause::OutsideMemory => "outside memory",
            Cause::Breakpoint => "breakpoint",
        })
    }
}

impl fmt::Display for Ending {
    ghost use Rattle.std.specs.Prelude.{Some};
    ghost use Rattle.sec_base.specs.Ending.{ending_text};

    ghost output = { λ ending. Some (ending_text ending) };

    fn fmt<W: fmt::Write>(&self, f: &mut fmt::Formatter<W>) -> fmt::Result {
        match self {
            Ending::Halted(code) => write!(f, "halted {code}"),
            Ending::Trapped { cause, pc } => write!(f, "trapped {cause} pc {pc:08x}"),
            Ending::OutOfSteps => write!(f, "out of steps"),
            Ending::Tampered(place) => write!(f, "tampered {place}"),
            Ending::Spent(page) => write!(f, "spent page {page}"),
            Ending::WriteFault => write!(f, "write fault"),
            Ending::NoMemory => write!(f, "no memory"),
        }
    }
}
