// Programs out of files.
ghost use Rattle.std.specs.Prelude.{◌≡◌, ◌<◌, ◌≤◌, ◌^◌, length, Err, IfOk};
ghost use Rattle.sec_base.specs.Geometry.{IsMemorySize};
ghost use Rattle.sec_base.specs.Segment.{segment_bytes};
ghost use Rattle.chip_files.specs.Program.{IsImageIn, limit_of, program_in as program_of};
ghost use Rattle.chip_files.specs.declared.refusal.Refusal.{Refusal};
ghost use Rattle.chip_files.specs.declared.stop.Stop.TheVariants.{Refused};

use crate::stop::Stop;
use chip_words::ProgramForm;
use elf_load::{flat, parse};
use rv32_asm::assemble;
use sec_base::Image;
use std::alloc::Global;

/// The most bytes of a file of this form that are read.
pub fn most_bytes(form: ProgramForm) -> u64
    ensures limit { result ≡ limit_of form }
    ensures most { result ≤ 8388608 }
{
    match form {
        ProgramForm::ElfFile => 8_388_608,
        ProgramForm::FlatFile | ProgramForm::AssemblyText => 1_048_576,
    }
}

/// The program that a file of this form is, for a memory of `size` bytes.
pub fn program_in(alloc: Global, form: ProgramForm, bytes: &[u8], size: u32) -> Result<Image, Stop>
    requires memory { IsMemorySize size }
    requires short { length bytes.now ≤ 8388608 }
    ensures program { IfOk result (IsImageIn form size bytes.now) }
    ensures small { IfOk result (λ image. segment_bytes image.segments < 2 ^ 31) }
    ensures refused { (refusal : Refusal) → result ≡ Err (Refused refusal) →
        program_of form size bytes.now ≡ Err refusal }
{
    match form {
        ProgramForm::ElfFile => Ok(parse(alloc, bytes, size)?),
        ProgramForm::FlatFile => Ok(flat(alloc, bytes, size)?),
        ProgramForm::AssemblyText => Ok(assemble(alloc, bytes, size)?),
    }
}
