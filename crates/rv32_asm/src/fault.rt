use rv32_asm_syntax::AsmFault;
use sec_base::NoMemory;
use std::alloc::AllocError;
use thiserror::Error;

/// Why there is no program.
#[derive(Clone, Copy, Debug, PartialEq, Eq, Error)]
pub enum AsmError {
    /// A line of the text is refused, lines counted from 1.
    #[error("line {line}: {code}")]
    Fault { line: u32, code: AsmFault },
    /// The emulator itself is out of memory.
    #[error("no memory")]
    NoMemory,
}

impl From<NoMemory> for AsmError {
    ghost use Rattle.rv32_asm.specs.declared.fault.AsmError.TheVariants.{NoMemory};
    ghost use Rattle.std.specs.Prelude.{◌≡◌};

    ghost from_gives = { λ _ error. error ≡ NoMemory };

    fn from(_: NoMemory) -> Self {
        AsmError::NoMemory
    }
}

impl From<AllocError> for AsmError {
    ghost use Rattle.rv32_asm.specs.declared.fault.AsmError.TheVariants.{NoMemory};
    ghost use Rattle.std.specs.Prelude.{◌≡◌};

    ghost from_gives = { λ _ error. error ≡ NoMemory };

    fn from(_: AllocError) -> Self {
        AsmError::NoMemory
    }
}
