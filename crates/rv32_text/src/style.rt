//! How the operands of an instruction are written.

ghost use Rattle.rv32_text.specs.Style as spec;
ghost use Rattle.std.specs.Prelude.{◌≡◌};

use rv32_decode::{Format, Op, format_of};

/// How an instruction's operands are written.
#[derive(Clone, Copy, Debug, PartialEq, Eq)]
pub enum Style {
    /// Three registers, as `add a0, a1, a2`.
    Registers,
    /// Two registers and an immediate, as `addi a0, zero, 7`.
    Immediate,
    /// The register that is written and a memory operand, as `lw a0, 4(sp)`.
    Offset,
    /// The register that is stored and a memory operand, as `sw a0, 4(sp)`.
    Store,
    /// A register and the upper 20 bits of an immediate, as `lui t0, 0x12345`.
    Upper,
    /// Two registers and the address that a branch leads to, as `bne a0, zero, 0x00000ffd`.
    Branch,
    /// A register and the address that a jump leads to, as `jal ra, 0x00000010`.
    Jump,
    /// No operands; with other fields than those of `fence` and `fence.i` the word is written as data.
    Fence,
    /// No operands, as `ecall`.
    Bare,
}

/// How the operands of a row's instructions are written.
#[tactic(auto, unfolding(crate::specs::Style::style_of))]
pub fn style_of(op: Op) -> Style
    ensures { result ≡ spec.style_of op }
{
    match op {
        Op::Jalr | Op::Lb | Op::Lh | Op::Lw | Op::Lbu | Op::Lhu => Style::Offset,
        Op::Fence | Op::FenceI => Style::Fence,
        _ => style_in(format_of(op)),
    }
}

// The style of a format's instructions.
fn style_in(format: Format) -> Style
    ensures { result ≡ spec.style_in format }
{
    match format {
        Format::R => Style::Registers,
        Format::I | Format::Shift => Style::Immediate,
        Format::S => Style::Store,
        Format::B => Style::Branch,
        Format::U => Style::Upper,
        Format::J => Style::Jump,
        Format::Fieldless => Style::Bare,
    }
}
