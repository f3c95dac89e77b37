// Why a file is refused.

ghost use Rattle.elf_load.specs.Fault.{elf_fault_code, elf_fault_name};
ghost use Rattle.std.specs.Prelude.{◌≡◌};

use sec_base::NoMemory;
use std::alloc::AllocError;
use std::fmt;
use thiserror::Error;

/// Why a file is refused, in the order in which it is tested. Shown as its name.
#[derive(Clone, Copy, Debug, PartialEq, Eq)]
pub enum ElfFault {
    /// Fewer bytes than a file header has.
    Short = 1,
    /// It doesn't begin as an ELF file does.
    Magic = 2,
    /// It isn't of 32 bits, lowest byte first, version 1.
    Class = 3,
    /// It isn't an executable file.
    Kind = 4,
    /// It isn't for RISC-V.
    Machine = 5,
    /// It has compressed instructions.
    Compressed = 6,
    /// There are more than 64 program headers; or there is one, and their size isn't 32 or their table ends past the file.
    Table = 7,
    /// It asks for an interpreter.
    Interp = 8,
    /// A segment has more bytes than memory, or has bytes and ends past the file, or ends past the memory.
    Segment = 9,
    /// The entry is no multiple of 4, or its word ends past the memory.
    Entry = 10,
}

impl ElfFault {
    /// The number, from 1 to 10.
    pub fn code(self) -> u8
        ensures { result ≡ elf_fault_code self }
    {
        self as u8
    }

    /// The name, as it is written here.
    pub fn name(self) -> &'static str
        ensures { result.now ≡ elf_fault_name self }
    {
        match self {
            ElfFault::Short => "Short",
            ElfFault::Magic => "Magic",
            ElfFault::Class => "Class",
            ElfFault::Kind => "Kind",
            ElfFault::Machine => "Machine",
            ElfFault::Compressed => "Compressed",
            ElfFault::Table => "Table",
            ElfFault::Interp => "Interp",
            ElfFault::Segment => "Segment",
            ElfFault::Entry => "Entry",
        }
    }
}

impl fmt::Display for ElfFault {
    ghost use Rattle.elf_load.specs.Fault.{elf_fault_name};
    ghost use Rattle.std.specs.Prelude.{Some};

    ghost output = { λ fault. Some (elf_fault_name fault) };

    fn fmt<W: fmt::Write>(&self, f: &mut fmt::Formatter<W>) -> fmt::Result {
        f.write_str(self.name())
    }
}

/// Why there is no program.
#[derive(Clone, Copy, Debug, PartialEq, Eq, Error)]
pub enum ElfError {
    /// The file is refused.
    #[error("{0}")]
    Fault(ElfFault),
    /// The emulator itself is out of memory.
    #[error("no memory")]
    NoMemory,
}

impl From<ElfFault> for ElfError {
    ghost use Rattle.elf_load.specs.declared.fault.ElfError.TheVariants.{Fault};
    ghost use Rattle.std.specs.Prelude.{◌≡◌};

    ghost from_gives = { λ fault error. error ≡ Fault fault };

    fn from(fault: ElfFault) -> Self {
        ElfError::Fault(fault)
    }
}

impl From<NoMemory> for ElfError {
    ghost use Rattle.elf_load.specs.declared.fault.ElfError.TheVariants.{NoMemory};
    ghost use Rattle.std.specs.Prelude.{◌≡◌};

    ghost from_gives = { λ _ error. error ≡ NoMemory };

    fn from(_: NoMemory) -> Self {
        ElfError::NoMemory
    }
}

impl From<AllocError> for ElfError {
    ghost use Rattle.elf_load.specs.declared.fault.ElfError.TheVariants.{NoMemory};
    ghost use Rattle.std.specs.Prelude.{◌≡◌};

    ghost from_gives = { λ _ error. error ≡ NoMemory };

    fn from(_: AllocError) -> Self {
        ElfError::NoMemory
    }
}
