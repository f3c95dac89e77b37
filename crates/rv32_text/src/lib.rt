//! Instructions and words as text, in the assembly language of this project (docs/FORMATS.md).
#![tactic(auto)]

ghost use Rattle.rv32_decode.specs.Encoding.{IsInst};
ghost use Rattle.rv32_text.specs.Text.{text_of, text_of_word};
ghost use Rattle.std.specs.Prelude.{IfOk, ◌≡◌};

use rv32_decode::{Inst, decode};
use sec_base::{Bytes, NoMemory};
use std::alloc::Global;

mod mnemonics;
mod registers;
mod style;
mod text;

pub use mnemonics::mnemonic_of;
pub use registers::register_name;
pub use style::{Style, style_of};

/// The text of an instruction that stands at `pc`, such as `addi a0, zero, 7`. Branches and jumps are
/// written with the address that they lead to; FENCE and FENCE.I with other fields than those of `fence`
/// and `fence.i` are written as data, `.word 0x` with eight digits.
pub fn write_inst(alloc: Global, inst: &Inst, pc: u32) -> Result<Bytes, NoMemory>
    requires { IsInst inst.now }
    ensures { IfOk result (λ text. text ≡ text_of inst.now pc) }
{
    let text = text::text_of(alloc, inst, pc)?;
    Ok(Bytes::from_vec(text.into_bytes()))
}

/// The text of a word that stands at `pc`: that of its instruction, or `.word 0x` and eight digits where it
/// has none.
#[tactic(auto, unfolding(crate::specs::Text::text_of_word))]
pub fn write_word(alloc: Global, word: u32, pc: u32) -> Result<Bytes, NoMemory>
    ensures { IfOk result (λ text. text ≡ text_of_word word pc) }
{
    match decode(word) {
        Some(inst) => write_inst(alloc, &inst, pc),
        None => {
            let text = text::data_text(alloc, word)?;
            Ok(Bytes::from_vec(text.into_bytes()))
        }
    }
}
