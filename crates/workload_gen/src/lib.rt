//! A generated program, whose result depends on a number.
#![tactic(auto)]

ghost use Rattle.rv32_asm.specs.Program.{assembled_program};
ghost use Rattle.sec_base.specs.Program.{IsImageOf};
ghost use Rattle.std.specs.Prelude.{◌≡◌, map, IfOk, IsOk, IsOkAnd};
ghost use Rattle.workload_gen.specs.EndsInWord.{EndsInWord};
ghost use Rattle.workload_gen.specs.Text.{workload_text};
ghost use Rattle.workload_gen.specs.Workload.{with_last_word, workload_of};

mod text;

use rv32_asm::{AsmError, assemble};
use sec_base::{Bytes, Image, NoMemory, Segments, put};
use std::alloc::Global;
use text::TEXT;

// The memory that the program is for, in bytes.
const MEMORY_SIZE: u32 = 1_048_576;

/// The generated program of a number, for a memory of 1,048,576 bytes. It runs the generator xorshift32 (13, 17, 5)
/// 20,000 times from the number on and stores each value in 256 KiB, writes three lines 300 times, then reads all back.
/// It prints the four bytes of a sum over what it read, and ends with the lowest of them. Fails only if out of memory.
#[tactic(auto, using(crate::proofs::TextProgram::workload_ok))]
pub fn make(alloc: Global, number: u32) -> Result<Image, NoMemory>
    ensures program { IfOk result (λ image.
        IsOkAnd (workload_of number) (λ program. IsImageOf 1048576 program image)) }
    ensures no_fault { IsOk (workload_of number) }
{
    let image = assembled_text(alloc)?;
    let segments = numbered(alloc, image.segments, number)?;
    Ok(Image {
        entry: image.entry,
        size: image.size,
        segments,
    })
}

// The program of the text. Fails only if out of memory.
fn assembled_text(alloc: Global) -> Result<Image, NoMemory>
    ensures program { IfOk result (λ image.
        IsOkAnd (assembled_program workload_text 1048576)
        (λ program. IsImageOf 1048576 program image)) }
{
    match assemble(alloc, TEXT.as_bytes(), MEMORY_SIZE) {
        Ok(image) => Ok(image),
        Err(AsmError::NoMemory) => Err(NoMemory),
        Err(AsmError::Fault { .. }) => unreachable!(),
    }
}

// One segment from 0 on, with the number in its last four bytes, the lowest byte first. Fails only if out of memory.
fn numbered(alloc: Global, segments: Segments, number: u32) -> Result<Segments, NoMemory>
    requires { EndsInWord segments }
    ensures { IfOk result (λ given. given ≡ map (with_last_word number) segments) }
{
    let Some(segment) = segments.into_vec().pop() else {
        unreachable!()
    };
    let mut bytes = segment.bytes.into_vec();
    let cell = bytes.len() - 4;
    put(&mut bytes, cell, &number.to_le_bytes());
    Segments::from_zero(alloc, Bytes::from_vec(bytes))
}
