// The program of an assembly text, and where it begins.

ghost use Rattle.rv32_asm.specs.Program.{assembled_program, entry_at};
ghost use Rattle.rv32_asm.specs.declared.fault.AsmError.TheVariants.{Fault};
ghost use Rattle.rv32_asm_syntax.specs.declared.fault.AsmFault.{AsmFault};
ghost use Rattle.sec_base.specs.Geometry.{IsMemorySize};
ghost use Rattle.sec_base.specs.Image.{IsEntry};
ghost use Rattle.sec_base.specs.Program.{IsImageOf};
ghost use Rattle.sec_base.specs.Segment.{segment_bytes};
ghost use Rattle.std.specs.Prelude.{Err, IfOk, IsOkAnd, Ok, length, ℕ, ◌<◌, ◌^◌, ◌≡◌};

use crate::fault::AsmError;
use crate::labels::Site;
use crate::passes;
use rv32_asm_syntax::AsmFault;
use sec_base::{Bytes, Image, Segments, is_entry};
use std::alloc::Global;

/// The program of an assembly text, for a memory of `size` bytes: one segment at 0 of all that was emitted, and the
/// label `_start` as its entry, or else 0. An error tells the first fault: first those of a pass over the lines that
/// finds the labels, then those of a pass that makes the bytes, then that of the entry. `NoMemory` may come at any
/// text.
pub fn assemble(alloc: Global, text: &[u8], size: u32) -> Result<Image, AsmError>
    requires memory { IsMemorySize size }
    requires short { length text.now < 2 ^ 32 }
    ensures program { IfOk result (λ image. IsOkAnd (assembled_program text.now size)
        (λ program. IsImageOf size program image)) }
    ensures small { IfOk result (λ image. segment_bytes image.segments < 2 ^ 31) }
    ensures refused { (line : ℕ) (code : AsmFault) → result ≡ Err (Fault line code) →
        assembled_program text.now size ≡ Err (record { line = line; code = code }) }
{
    let layout = passes::lay_out(alloc, text, size)?;
    let bytes = passes::bytes_of(alloc, text, &layout.labels, layout.address)?;
    let entry = entry_at(size, layout.labels.get(b"_start"))?;
    let segments = Segments::from_zero(alloc, Bytes::from_vec(bytes))?;
    Ok(Image {
        entry,
        size,
        segments,
    })
}

// Where a program begins: where its label stands, and else at 0.
fn entry_at(size: u32, start: Option<Site>) -> Result<u32, AsmError>
    requires { IsMemorySize size }
    ensures entry { IfOk result (λ entry. entry_at size start ≡ Ok entry) }
    ensures begins { IfOk result (IsEntry size) }
    ensures refused { (line : ℕ) (code : AsmFault) → result ≡ Err (Fault line code) →
        entry_at size start ≡ Err (record { line = line; code = code }) }
{
    let Some(site) = start else {
        return Ok(0);
    };
    if !is_entry(size, site.address) {
        return Err(AsmError::Fault {
            line: site.line,
            code: AsmFault::Range,
        });
    }
    Ok(site.address)
}
