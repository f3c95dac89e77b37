// The ELF file of a program.

ghost use Rattle.elf_load.specs.Program.{elf_program};
ghost use Rattle.elf_load.specs.Spelling.{joined_bytes, spelled, spelled_header, spelled_segment, spelled_table, u16_bytes, u32_bytes};
ghost use Rattle.sec_base.specs.Program.{IsImageOf};
ghost use Rattle.sec_base.specs.Segment.{segment_bytes};
ghost use Rattle.std.specs.List.{flat_map};
ghost use Rattle.std.specs.Prelude.{IfOk, IsOkAnd, OnOk, length, ◌*◌, ◌++◌, ◌+◌, ◌<◌, ◌^◌, ◌≡◌};

use crate::fields::{u16_bytes, u32_bytes};
use crate::header::{CLASS, EXECUTABLE, FILE_HEADER_LEN, MAGIC, RISCV};
use crate::table::{LOAD, PROGRAM_HEADER_LEN};
use sec_base::{Bytes, Image, NoMemory, Segment};
use std::alloc::Global;

// The bytes of e_ident behind the class, which are zeros.
const IDENT_REST: [u8; 9] = [0; 9];

// EV_CURRENT.
const VERSION: u32 = 1;

// PF_R, PF_W and PF_X.
const READ_WRITE_EXECUTE: u32 = 7;

// No alignment is asked for.
const UNALIGNED: u32 = 1;

/// The ELF file of a program, of which `parse` gives the same program for a memory of its size. Fails only
/// if out of memory.
pub fn write(alloc: Global, image: &Image) -> Result<Bytes, NoMemory>
    requires small { segment_bytes image.now.segments < 2 ^ 31 }
    ensures bytes { IfOk result (λ bytes. bytes ≡ spelled image.now) }
    ensures read_back { IsOkAnd (elf_program (spelled image.now) image.now.size)
        (λ program. IsImageOf image.now.size program image.now) }
{
    let file = spell(alloc, image)?;
    Ok(Bytes::from_vec(file))
}

// The bytes of a program's ELF file.
#[tactic(auto, unfolding(crate::specs::Spelling::spelled))]
fn spell(alloc: Global, image: &Image) -> Result<Vec<u8>, NoMemory>
    requires { segment_bytes image.now.segments < 2 ^ 31 }
    ensures { IfOk result (λ file. file.items ≡ spelled image.now) }
{
    let segments = image.segments.as_slice();
    let bytes_begin = FILE_HEADER_LEN + PROGRAM_HEADER_LEN * segments.len();
    let mut file = Vec::new(alloc);
    put_header(&mut file, image.entry, segments.len() as u16)?;
    put_table(&mut file, bytes_begin as u32, segments)?;
    put_bytes(&mut file, segments)?;
    Ok(file)
}

// Appends the file header.
fn put_header(file: &mut Vec<u8>, entry: u32, count: u16) -> Result<(), NoMemory>
    ensures { OnOk result (file.new.items ≡ file.old.items ++ spelled_header entry count) }
{
    file.extend_from_slice(&MAGIC)?;
    file.extend_from_slice(&CLASS)?;
    file.extend_from_slice(&IDENT_REST)?;
    put_halves(file, &[EXECUTABLE, RISCV])?;
    put_words(file, &[VERSION, entry, FILE_HEADER_LEN as u32, 0, 0])?;
    put_halves(
        file,
        &[
            FILE_HEADER_LEN as u16,
            PROGRAM_HEADER_LEN as u16,
            count,
            0,
            0,
            0,
        ],
    )?;
    Ok(())
}

// Appends numbers of two bytes.
fn put_halves(file: &mut Vec<u8>, halves: &[u16]) -> Result<(), NoMemory>
    ensures { OnOk result (file.new.items ≡ file.old.items ++ flat_map u16_bytes halves.now) }
{
    for half in halves {
        file.extend_from_slice(&u16_bytes(*half))?;
    }
    Ok(())
}

// Appends the program headers of segments whose bytes follow one another from `offset` on.
fn put_table(file: &mut Vec<u8>, mut offset: u32, segments: &[Segment]) -> Result<(), NoMemory>
    requires { offset + length (joined_bytes segments.now) < 2 ^ 32 }
    ensures { OnOk result (file.new.items ≡ file.old.items ++ spelled_table offset segments.now) }
{
    for segment in segments {
        put_segment(file, offset, segment)?;
        offset += segment.bytes.len() as u32;
    }
    Ok(())
}

// Appends the program header of a segment whose bytes begin at `offset`.
fn put_segment(file: &mut Vec<u8>, offset: u32, segment: &Segment) -> Result<(), NoMemory>
    requires { length segment.now.bytes < 2 ^ 32 }
    ensures { OnOk result (file.new.items ≡ file.old.items ++ spelled_segment offset segment.now) }
{
    let file_length = segment.bytes.len() as u32;
    put_words(
        file,
        &[
            LOAD,
            offset,
            segment.addr,
            segment.addr,
            file_length,
            segment.length,
            READ_WRITE_EXECUTE,
            UNALIGNED,
        ],
    )?;
    Ok(())
}

// Appends numbers of four bytes.
fn put_words(file: &mut Vec<u8>, words: &[u32]) -> Result<(), NoMemory>
    ensures { OnOk result (file.new.items ≡ file.old.items ++ flat_map u32_bytes words.now) }
{
    for word in words {
        file.extend_from_slice(&u32_bytes(*word))?;
    }
    Ok(())
}

// Appends the bytes of segments.
fn put_bytes(file: &mut Vec<u8>, segments: &[Segment]) -> Result<(), NoMemory>
    ensures { OnOk result (file.new.items ≡ file.old.items ++ joined_bytes segments.now) }
{
    for segment in segments {
        file.extend_from_slice(segment.bytes.as_slice())?;
    }
    Ok(())
}
