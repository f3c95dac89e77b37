// Why a script is refused.

ghost use Rattle.adversary_script.specs.Fault.{script_fault_code, script_fault_name};
ghost use Rattle.std.specs.Prelude.{◌≡◌};

use sec_base::NoMemory;
use std::fmt;
use thiserror::Error;

/// What is wrong with a word of a script. Shown as its name.
#[derive(Clone, Copy, Debug, PartialEq, Eq)]
pub enum ScriptFault {
    /// A word is unknown, missing or one too many, a colon is missing, or a byte above 7f stands outside a comment.
    Word = 1,
    /// A number isn't one, or is out of its range.
    Number = 2,
    /// A place isn't one of the memory's.
    Place = 3,
    /// Bytes are no pairs of hexadecimal digits, or don't fit their place, or two places are of two kinds.
    Span = 4,
    /// A register is none of the 16.
    Register = 5,
}

impl ScriptFault {
    /// The number, from 1 to 5.
    pub fn code(self) -> u8
        ensures { result ≡ script_fault_code self }
    {
        self as u8
    }

    /// The name, as it is written here.
    pub fn name(self) -> &'static str
        ensures { result.now ≡ script_fault_name self }
    {
        match self {
            ScriptFault::Word => "Word",
            ScriptFault::Number => "Number",
            ScriptFault::Place => "Place",
            ScriptFault::Span => "Span",
            ScriptFault::Register => "Register",
        }
    }
}

impl fmt::Display for ScriptFault {
    ghost use Rattle.adversary_script.specs.Fault.{script_fault_name};
    ghost use Rattle.std.specs.Prelude.{Some};

    ghost output = { λ fault. Some (script_fault_name fault) };

    fn fmt<W: fmt::Write>(&self, f: &mut fmt::Formatter<W>) -> fmt::Result {
        f.write_str(self.name())
    }
}

/// Why there is no script.
#[derive(Clone, Copy, Debug, PartialEq, Eq, Error)]
pub enum ScriptError {
    /// A line of the text is refused, lines counted from 1.
    #[error("line {line}: {code}")]
    Fault { line: u32, code: ScriptFault },
    /// The emulator itself is out of memory.
    #[error("no memory")]
    NoMemory,
}

impl From<NoMemory> for ScriptError {
    ghost use Rattle.adversary_script.specs.declared.fault.ScriptError.TheVariants.{NoMemory};
    ghost use Rattle.std.specs.Prelude.{◌≡◌};

    ghost from_gives = { λ _ error. error ≡ NoMemory };

    fn from(_: NoMemory) -> Self {
        ScriptError::NoMemory
    }
}
