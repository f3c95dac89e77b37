//! The fields of a word, read and put into their places.

ghost use Rattle.rv32_decode.specs.Encoding.{field_bits as field_bits_of};
ghost use Rattle.rv32_decode.specs.Fields as spec;
ghost use Rattle.rv32_decode.specs.Words.{field, signed_number};
ghost use Rattle.std.specs.Prelude.{◌*◌, ◌+◌, ◌<◌, ◌≡◌, ◌≤◌, ◌^◌};

use crate::table::Format;
use crate::{Inst, Op};

// The instruction that a word spells in a row's format.
#[inline(always)]
#[tactic(auto, unfolding(crate::specs::Fields::instruction_in))]
pub fn instruction_in(format: Format, op: Op, word: u32) -> Inst
    ensures { result ≡ spec.instruction_in format op word }
{
    let rd = register(word, 7);
    let rs1 = register(word, 15);
    let rs2 = register(word, 20);
    match format {
        Format::R => inst(op, rd, rs1, rs2, 0),
        Format::I => inst(op, rd, rs1, 0, imm_i(word)),
        Format::S => inst(op, 0, rs1, rs2, imm_s(word)),
        Format::B => inst(op, 0, rs1, rs2, imm_b(word)),
        Format::U => inst(op, rd, 0, 0, imm_u(word)),
        Format::J => inst(op, rd, 0, 0, imm_j(word)),
        Format::Shift => inst(op, rd, rs1, 0, shift(word)),
        Format::Fieldless => inst(op, 0, 0, 0, 0),
    }
}

#[inline(always)]
fn inst(op: Op, rd: u8, rs1: u8, rs2: u8, imm: i32) -> Inst
    ensures { result ≡ record { op = op; rd = rd; rs1 = rs1; rs2 = rs2; imm = imm } }
{
    Inst {
        op,
        rd,
        rs1,
        rs2,
        imm,
    }
}

#[inline(always)]
fn register(word: u32, low: u32) -> u8
    requires { low < 32 }
    ensures { result ≡ field word low 5 }
{
    bits(word, low, 5) as u8
}

// The immediates, section 2.3 of the manual.

#[inline(always)]
fn imm_i(word: u32) -> i32
    ensures { result ≡ spec.imm_i word }
{
    extend(bits(word, 20, 12), 12)
}

#[inline(always)]
fn imm_s(word: u32) -> i32
    ensures { result ≡ spec.imm_s word }
{
    extend(bits(word, 25, 7) * 0x20 + bits(word, 7, 5), 12)
}

#[inline(always)]
fn imm_b(word: u32) -> i32
    ensures { result ≡ spec.imm_b word }
{
    let high = bits(word, 31, 1) * 0x1000 + bits(word, 7, 1) * 0x800;
    extend(high + bits(word, 25, 6) * 0x20 + bits(word, 8, 4) * 2, 13)
}

#[inline(always)]
fn imm_u(word: u32) -> i32
    ensures { result ≡ spec.imm_u word }
{
    (bits(word, 12, 20) * 0x1000).cast_signed()
}

#[inline(always)]
fn imm_j(word: u32) -> i32
    ensures { result ≡ spec.imm_j word }
{
    let high = bits(word, 31, 1) * 0x10_0000 + bits(word, 12, 8) * 0x1000;
    extend(
        high + bits(word, 20, 1) * 0x800 + bits(word, 21, 10) * 2,
        21,
    )
}

#[inline(always)]
fn shift(word: u32) -> i32
    ensures { result ≡ spec.shift_of word }
{
    bits(word, 20, 5) as i32
}

// A number of `count` bits, read in two's complement.
#[inline(always)]
fn extend(number: u32, count: u32) -> i32
    requires count { (1 ≤ count) × (count ≤ 30) }
    requires number { number < 2 ^ count }
    ensures { result ≡ signed_number count number }
{
    let size: u32 = 1 << count;
    if number < size / 2 {
        number as i32
    } else {
        -((size - number) as i32)
    }
}

// The bits of an instruction's fields, in their places in a word.
#[tactic(auto, unfolding(crate::specs::Encoding::field_bits))]
pub fn field_bits(format: Format, inst: &Inst) -> u32
    requires rd { inst.now.rd < 32 }
    requires rs1 { inst.now.rs1 < 32 }
    requires rs2 { inst.now.rs2 < 32 }
    ensures { result ≡ field_bits_of format inst.now }
{
    let rd = inst.rd as u32 * 0x80;
    let rs1 = inst.rs1 as u32 * 0x8000;
    let rs2 = inst.rs2 as u32 * 0x10_0000;
    let imm = inst.imm.cast_unsigned();
    match format {
        Format::R => rd + rs1 + rs2,
        Format::I => rd + rs1 + bits(imm, 0, 12) * 0x10_0000,
        Format::S => imm_bits_s(imm) + rs1 + rs2,
        Format::B => imm_bits_b(imm) + rs1 + rs2,
        Format::U => rd + bits(imm, 12, 20) * 0x1000,
        Format::J => rd + imm_bits_j(imm),
        Format::Shift => rd + rs1 + bits(imm, 0, 5) * 0x10_0000,
        Format::Fieldless => 0,
    }
}

// The bits of a store's immediate, in their places in a word.
fn imm_bits_s(imm: u32) -> u32
    ensures { result ≡ field imm 0 5 * 2 ^ 7 + field imm 5 7 * 2 ^ 25 }
{
    bits(imm, 0, 5) * 0x80 + bits(imm, 5, 7) * 0x200_0000
}

// The bits of a branch's distance, in their places in a word.
fn imm_bits_b(imm: u32) -> u32
    ensures { result
        ≡ field imm 11 1 * 2 ^ 7 + field imm 1 4 * 2 ^ 8 + field imm 5 6 * 2 ^ 25 + field imm 12 1 *
        2 ^ 31 }
{
    let low = bits(imm, 11, 1) * 0x80 + bits(imm, 1, 4) * 0x100;
    low + bits(imm, 5, 6) * 0x200_0000 + bits(imm, 12, 1) * 0x8000_0000
}

// The bits of a jump's distance, in their places in a word.
fn imm_bits_j(imm: u32) -> u32
    ensures { result
        ≡ field imm 12 8 * 2 ^ 12 + field imm 11 1 * 2 ^ 20 + field imm 1 10 * 2 ^ 21 + field imm 20
        1 * 2 ^ 31 }
{
    let low = bits(imm, 12, 8) * 0x1000 + bits(imm, 11, 1) * 0x10_0000;
    low + bits(imm, 1, 10) * 0x20_0000 + bits(imm, 20, 1) * 0x8000_0000
}

// The `count` bits of a word from bit `low` on.
#[inline(always)]
pub fn bits(word: u32, low: u32, count: u32) -> u32
    requires low { low < 32 }
    requires count { count < 32 }
    ensures { result ≡ field word low count }
{
    (word >> low) % (1 << count)
}
