// How a report tells the end of a run.
ghost use Rattle.attest_report.specs.ToldEnding as told;
ghost use Rattle.std.specs.Prelude.{◌≡◌};

use sec_base::{Cause, Ending};

/// The number of an ending and its code, as a report has them: 0 halted, with the exit code; 1 trapped, with the number
/// of the cause; 4 out of steps, 5 tampered and 6 spent, with 0. The other endings make no report.
pub fn ending_and_code(ending: Ending) -> Option<(u8, u32)>
    ensures { result ≡ told.ending_and_code ending }
{
    match ending {
        Ending::Halted(code) => Some((0, code)),
        Ending::Trapped { cause, .. } => Some((1, cause_number(cause))),
        Ending::OutOfSteps => Some((4, 0)),
        Ending::Tampered(_) => Some((5, 0)),
        Ending::Spent(_) => Some((6, 0)),
        Ending::WriteFault | Ending::NoMemory => None,
    }
}

// The number of a cause.
fn cause_number(cause: Cause) -> u32
    ensures { result ≡ told.cause_number cause }
{
    match cause {
        Cause::Illegal => 1,
        Cause::MisalignedTarget => 2,
        Cause::MisalignedData => 3,
        Cause::OutsideMemory => 4,
        Cause::Breakpoint => 5,
    }
}
