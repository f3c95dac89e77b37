//! The text of an instruction: its mnemonic, and its operands with a comma and a blank between them.

ghost use Rattle.rv32_decode.specs.Encoding.{IsInst, word_of};
ghost use Rattle.rv32_decode.specs.Target as decode;
ghost use Rattle.rv32_text.specs.Text.{instruction_text, is_unnamed_fence};
ghost use Rattle.rv32_text.specs.Text as spec;
ghost use Rattle.rv32_text.specs.declared.style.Style.TheVariants.{Fence};
ghost use Rattle.sec_base.specs.Hexadecimal.{hex_digits};
ghost use Rattle.std.specs.Prelude.{IfOk, [], if◌then◌else◌, string_bytes, ◌<◌, ◌≡◌, ◌∷◌};

use crate::mnemonics::mnemonic_of;
use crate::registers::register_name;
use crate::style::{Style, style_of};
use rv32_decode::{Inst, encode};
use std::alloc::{AllocError, Global};

// The text of an instruction that stands at `pc`.
#[tactic(auto, unfolding(crate::specs::Text::text_of))]
pub fn text_of(alloc: Global, inst: &Inst, pc: u32) -> Result<String, AllocError>
    requires { IsInst inst.now }
    ensures { IfOk result (λ text. string_bytes text ≡ spec.text_of inst.now pc) }
{
    let mnemonic = mnemonic_of(inst.op);
    let rd = register_name(inst.rd);
    let rs1 = register_name(inst.rs1);
    let rs2 = register_name(inst.rs2);
    match style_of(inst.op) {
        Style::Registers => with_three(alloc, mnemonic, rd, rs1, rs2),
        Style::Immediate => {
            let imm = inst.imm.to_string(alloc)?;
            with_three(alloc, mnemonic, rd, rs1, imm.as_str())
        }
        Style::Offset => {
            let place = memory_operand(alloc, inst)?;
            with_two(alloc, mnemonic, rd, place.as_str())
        }
        Style::Store => {
            let place = memory_operand(alloc, inst)?;
            with_two(alloc, mnemonic, rs2, place.as_str())
        }
        Style::Upper => {
            let bits = upper_text(alloc, inst)?;
            with_two(alloc, mnemonic, rd, bits.as_str())
        }
        Style::Branch => {
            let target = target_text(alloc, inst, pc)?;
            with_three(alloc, mnemonic, rs1, rs2, target.as_str())
        }
        Style::Jump => {
            let target = target_text(alloc, inst, pc)?;
            with_two(alloc, mnemonic, rd, target.as_str())
        }
        Style::Fence => fence_text(alloc, mnemonic, inst),
        Style::Bare => with_none(alloc, mnemonic),
    }
}

// FENCE and FENCE.I have a mnemonic for one word each; other words of theirs are written as data.
fn fence_text(alloc: Global, mnemonic: &str, inst: &Inst) -> Result<String, AllocError>
    requires { IsInst inst.now }
    ensures { IfOk result (λ text. string_bytes text
        ≡ (if is_unnamed_fence Fence (word_of inst.now) then spec.data_text (word_of inst.now) else
        mnemonic.now)) }
{
    let word = encode(inst);
    if word == 0x0ff0_000f || word == 0x0000_100f {
        with_none(alloc, mnemonic)
    } else {
        data_text(alloc, word)
    }
}

// A word as data.
#[tactic(auto, unfolding(crate::specs::Text::data_text))]
pub fn data_text(alloc: Global, word: u32) -> Result<String, AllocError>
    ensures { IfOk result (λ text. string_bytes text ≡ spec.data_text word) }
{
    let digits = eight_digits(alloc, word)?;
    format!(in alloc; ".word 0x{digits}")
}

#[tactic(auto, unfolding(crate::specs::Text::memory_operand))]
fn memory_operand(alloc: Global, inst: &Inst) -> Result<String, AllocError>
    requires { inst.now.rs1 < 32 }
    ensures { IfOk result (λ text. string_bytes text ≡ spec.memory_operand inst.now) }
{
    let base = register_name(inst.rs1);
    let imm = inst.imm;
    format!(in alloc; "{imm}({base})")
}

#[tactic(auto, unfolding(crate::specs::Text::upper_text))]
fn upper_text(alloc: Global, inst: &Inst) -> Result<String, AllocError>
    ensures { IfOk result (λ text. string_bytes text ≡ spec.upper_text inst.now) }
{
    let bits = inst.imm.cast_unsigned() / 4096;
    format!(in alloc; "0x{bits:x}")
}

#[tactic(auto, unfolding(crate::specs::Text::target_text))]
fn target_text(alloc: Global, inst: &Inst, pc: u32) -> Result<String, AllocError>
    ensures { IfOk result (λ text. string_bytes text ≡ spec.target_text inst.now pc) }
{
    let digits = eight_digits(alloc, target_of(inst, pc))?;
    format!(in alloc; "0x{digits}")
}

// The address that a branch or a jump leads to.
fn target_of(inst: &Inst, pc: u32) -> u32
    ensures { result ≡ decode.target_of inst.now pc }
{
    pc.wrapping_add(inst.imm.cast_unsigned())
}

#[tactic(auto, using(sec_base::proofs::Digits::padded_is_hex_8))]
fn eight_digits(alloc: Global, number: u32) -> Result<String, AllocError>
    ensures { IfOk result (λ text. string_bytes text ≡ hex_digits 8 number) }
{
    format!(in alloc; "{number:08x}")
}

// A mnemonic with three operands.
fn with_three(
    alloc: Global,
    mnemonic: &str,
    a: &str,
    b: &str,
    c: &str,
) -> Result<String, AllocError>
    ensures { IfOk result (λ text. string_bytes text
        ≡ instruction_text mnemonic.now (a.now ∷ b.now ∷ c.now ∷ [])) }
{
    format!(in alloc; "{mnemonic} {a}, {b}, {c}")
}

// A mnemonic with two operands.
fn with_two(alloc: Global, mnemonic: &str, a: &str, b: &str) -> Result<String, AllocError>
    ensures { IfOk result (λ text. string_bytes text
        ≡ instruction_text mnemonic.now (a.now ∷ b.now ∷ [])) }
{
    format!(in alloc; "{mnemonic} {a}, {b}")
}

// A mnemonic alone.
fn with_none(alloc: Global, mnemonic: &str) -> Result<String, AllocError>
    ensures { IfOk result (λ text. string_bytes text ≡ instruction_text mnemonic.now []) }
{
    String::from_str(alloc, mnemonic)
}
