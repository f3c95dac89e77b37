// Why a file is no trace.
ghost use Rattle.bus_trace.specs.Fault.{trace_fault_code, trace_fault_name};
ghost use Rattle.std.specs.Prelude.{◌≡◌};

use sec_base::NoMemory;
use std::alloc::AllocFailed;
use std::fmt;
use thiserror::Error;

/// Why a file is no trace: its first fault from the left. A field that is cut off is `Short`, whatever it says. Shown as
/// its name.
#[derive(Clone, Copy, Debug, PartialEq, Eq)]
pub enum TraceFault {
    /// The file ends before a field does.
    Short = 1,
    /// It doesn't begin as a trace does.
    Magic = 2,
    /// No entry is of this kind, or no trace has this ending.
    Kind = 3,
    /// The line of an entry is none of the memory's, or its node isn't, once level and index are there.
    Place = 4,
    /// There are bytes behind the last entry.
    Rest = 5,
}

impl TraceFault {
    /// The number, from 1 to 5.
    pub fn code(self) -> u8
        ensures { result ≡ trace_fault_code self }
    {
        self as u8
    }

    /// The name, as it is written here.
    pub fn name(self) -> &'static str
        ensures { result.now ≡ trace_fault_name self }
    {
        match self {
            TraceFault::Short => "Short",
            TraceFault::Magic => "Magic",
            TraceFault::Kind => "Kind",
            TraceFault::Place => "Place",
            TraceFault::Rest => "Rest",
        }
    }
}

impl fmt::Display for TraceFault {
    ghost use Rattle.bus_trace.specs.Fault.{trace_fault_name};
    ghost use Rattle.std.specs.Prelude.{Some};

    ghost output = { λ fault. Some (trace_fault_name fault) };

    fn fmt<W: fmt::Write>(&self, f: &mut fmt::Formatter<W>) -> fmt::Result {
        f.write_str(self.name())
    }
}

/// Why there is no trace.
#[derive(Clone, Copy, Debug, PartialEq, Eq, Error)]
pub enum TraceError {
    /// The file is refused.
    #[error("{0}")]
    Fault(TraceFault),
    /// The emulator itself is out of memory.
    #[error("no memory")]
    NoMemory,
}

impl From<TraceFault> for TraceError {
    ghost use Rattle.bus_trace.specs.declared.fault.TraceError.TheVariants.{Fault};
    ghost use Rattle.std.specs.Prelude.{◌≡◌};

    ghost from_gives = { λ fault error. error ≡ Fault fault };

    fn from(fault: TraceFault) -> Self {
        TraceError::Fault(fault)
    }
}

impl From<NoMemory> for TraceError {
    ghost use Rattle.bus_trace.specs.declared.fault.TraceError.TheVariants.{NoMemory};
    ghost use Rattle.std.specs.Prelude.{◌≡◌};

    ghost from_gives = { λ _ error. error ≡ NoMemory };

    fn from(_: NoMemory) -> Self {
        TraceError::NoMemory
    }
}

impl<T: Drop> From<AllocFailed<T>> for TraceError {
    ghost use Rattle.bus_trace.specs.declared.fault.TraceError.TheVariants.{NoMemory};
    ghost use Rattle.std.specs.Prelude.{◌≡◌};

    ghost from_gives = { λ _ error. error ≡ NoMemory };

    fn from(_: AllocFailed<T>) -> Self {
        TraceError::NoMemory
    }
}
