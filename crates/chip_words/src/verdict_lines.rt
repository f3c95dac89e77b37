// What is written of a judged trace.
ghost use Rattle.std.specs.Prelude.{◌≡◌, IfOk, string_bytes};
ghost use Rattle.chip_words.specs.Texts as spec;

use bus_trace::Difference;
use std::alloc::{AllocError, Global};

/// The line of a trace that follows the plain machine.
pub fn follows_line() -> &'static str
    ensures { result.now ≡ spec.follows_line }
{
    "judged follows\n"
}

/// The line of a trace that differs first so.
pub fn difference_line(alloc: Global, difference: Difference) -> Result<String, AllocError>
    ensures { IfOk result (λ line. string_bytes line ≡ spec.difference_line difference) }
{
    match difference {
        Difference::Lie(number) => format!(in alloc; "judged no lie {number}\n"),
        Difference::Retired => format!(in alloc; "judged no retired\n"),
        Difference::Output => format!(in alloc; "judged no output\n"),
        Difference::Ending => format!(in alloc; "judged no ending\n"),
    }
}
