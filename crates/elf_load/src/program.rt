// Programs from files.

ghost use Rattle.elf_load.specs.Program.{elf_program, flat_program, segment_of};
ghost use Rattle.elf_load.specs.Refusals.{first_holding, is_load, is_misfit, program_refusals};
ghost use Rattle.elf_load.specs.declared.fault.ElfError.TheVariants.{Fault};
ghost use Rattle.elf_load.specs.declared.fault.ElfFault.{ElfFault};
ghost use Rattle.sec_base.specs.Geometry.{IsMemorySize};
ghost use Rattle.sec_base.specs.Program.{IsImageOf};
ghost use Rattle.std.specs.List.{list_any};
ghost use Rattle.std.specs.Prelude.{Err, IfOk, IsOkAnd, false, filter, length, map, ◌+◌, ◌<◌, ◌≡◌, ◌≤◌};
ghost use Rattle.std.specs.Result.{result_err};

use crate::fault::{ElfError, ElfFault};
use crate::header::FileHeader;
use crate::table::{ProgramHeader, any_interp, any_misfit, program_headers};
use sec_base::{Bytes, Image, NoMemory, Segment, Segments, is_entry};
use std::alloc::Global;

/// The program of an ELF file of 32 bits for RISC-V, for a memory of `size` bytes. The refusals are tested in the
/// order of `ElfFault`; `NoMemory` may come at any file.
pub fn parse(alloc: Global, file: &[u8], size: u32) -> Result<Image, ElfError>
    requires { IsMemorySize size }
    ensures program { IfOk result
        (λ image. IsOkAnd (elf_program file.now size) (λ program. IsImageOf size program image)) }
    ensures refused { (fault : ElfFault) → result ≡ Err (Fault fault) →
        elf_program file.now size ≡ Err fault }
{
    let header = FileHeader::read(file)?;
    let headers = program_headers(alloc, file, &header)?;
    check_program(&header, &headers, file.len(), size)?;
    let segments = segments_of(alloc, file, &headers, size)?;
    Ok(Image {
        entry: header.entry,
        size,
        segments: Segments::from_vec(segments),
    })
}

// Whether the program headers and the entry are taken, or else the first refusal that they show.
fn check_program(
    header: &FileHeader,
    headers: &[ProgramHeader],
    file_len: usize,
    size: u32,
) -> Result<(), ElfFault>
    ensures { first_holding (program_refusals file_len size header.now headers.now)
        ≡ result_err result }
{
    if any_interp(headers) {
        return Err(ElfFault::Interp);
    }
    if any_misfit(headers, file_len, size) {
        return Err(ElfFault::Segment);
    }
    if !is_entry(size, header.entry) {
        return Err(ElfFault::Entry);
    }
    Ok(())
}

// The segments that are loaded, in order.
fn segments_of(
    alloc: Global,
    file: &[u8],
    headers: &[ProgramHeader],
    size: u32,
) -> Result<Vec<Segment>, NoMemory>
    requires { list_any (is_misfit (length file.now) size) headers.now ≡ false }
    ensures { IfOk result (λ segments. segments.items
        ≡ map (segment_of file.now) (filter is_load headers.now)) }
{
    let mut segments = Vec::new(alloc);
    for header in headers {
        if header.is_load() {
            segments.push(segment_of(alloc, file, header)?)?;
        }
    }
    Ok(segments)
}

// A segment, whose bytes are copied out of the file.
fn segment_of(alloc: Global, file: &[u8], header: &ProgramHeader) -> Result<Segment, NoMemory>
    requires { 0 < header.now.file_length → header.now.offset + header.now.file_length
        ≤ length file.now }
    ensures { IfOk result (λ segment. segment ≡ segment_of file.now header.now) }
{
    let bytes = if header.file_length == 0 {
        Vec::new(alloc)
    } else {
        let start = header.offset as usize;
        Vec::from_slice(alloc, &file[start..start + header.file_length as usize])?
    };
    Ok(Segment {
        addr: header.address,
        length: header.memory_length,
        bytes: Bytes::from_vec(bytes),
    })
}

/// The program of a flat file, which is loaded at address 0 and begins there, for a memory of `size` bytes. It is
/// refused as `Segment` exactly where it is longer; `NoMemory` may come at any file.
pub fn flat(alloc: Global, file: &[u8], size: u32) -> Result<Image, ElfError>
    requires { IsMemorySize size }
    ensures program { IfOk result
        (λ image. IsOkAnd (flat_program file.now size) (λ program. IsImageOf size program image)) }
    ensures refused { (fault : ElfFault) → result ≡ Err (Fault fault) →
        flat_program file.now size ≡ Err fault }
{
    if file.len() > size as usize {
        return Err(ElfError::Fault(ElfFault::Segment));
    }
    let bytes = Bytes::from_vec(Vec::from_slice(alloc, file)?);
    Ok(Image {
        entry: 0,
        size,
        segments: Segments::from_zero(alloc, bytes)?,
    })
}
