ghost use Rattle.rv32_asm_syntax.specs.Fault.{asm_fault_code, asm_fault_name};
ghost use Rattle.std.specs.Prelude.{◌≡◌};

use sec_base::NoMemory;
use std::fmt;

/// Why an assembly text is refused. Shown as its name.
#[derive(Clone, Copy, Debug, PartialEq, Eq)]
pub enum AsmFault {
    /// A statement begins with a word that isn't known, or a byte above 7f stands outside strings and comments.
    Unknown = 1,
    /// Operands are of another number or form.
    Operand = 2,
    /// A number, a value or an entry is out of its range, or an instruction's address is no multiple of 4.
    Range = 3,
    /// A label is there already.
    Twice = 4,
    /// A label isn't there.
    Missing = 5,
    /// The program ends past the memory.
    Large = 6,
}

impl AsmFault {
    /// The number, from 1 to 6.
    pub fn code(self) -> u8
        ensures { result ≡ asm_fault_code self }
    {
        self as u8
    }

    /// The name, as it is written here.
    pub fn name(self) -> &'static str
        ensures { result.now ≡ asm_fault_name self }
    {
        match self {
            AsmFault::Unknown => "Unknown",
            AsmFault::Operand => "Operand",
            AsmFault::Range => "Range",
            AsmFault::Twice => "Twice",
            AsmFault::Missing => "Missing",
            AsmFault::Large => "Large",
        }
    }
}

impl fmt::Display for AsmFault {
    ghost use Rattle.rv32_asm_syntax.specs.Fault.{asm_fault_name};
    ghost use Rattle.std.specs.Prelude.{Some};

    ghost output = { λ fault. Some (asm_fault_name fault) };

    fn fmt<W: fmt::Write>(&self, f: &mut fmt::Formatter<W>) -> fmt::Result {
        f.write_str(self.name())
    }
}

/// Why a line gives nothing.
#[derive(Clone, Copy, Debug, PartialEq, Eq)]
pub enum LineError {
    /// What is wrong with it.
    Fault(AsmFault),
    /// The emulator itself is out of memory.
    NoMemory,
}

impl From<NoMemory> for LineError {
    ghost use Rattle.rv32_asm_syntax.specs.declared.fault.LineError.TheVariants.{NoMemory};
    ghost use Rattle.std.specs.Prelude.{◌≡◌};

    ghost from_gives = { λ _ error. error ≡ NoMemory };

    fn from(_: NoMemory) -> Self {
        LineError::NoMemory
    }
}
