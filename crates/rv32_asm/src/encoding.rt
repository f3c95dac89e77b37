// The words of instructions.

ghost use Rattle.rv32_asm.specs.Encoding as spec;
ghost use Rattle.rv32_asm.specs.Fields.{immediate_in, own_fields};
ghost use Rattle.rv32_asm_syntax.specs.Numbers as numbers;
ghost use Rattle.rv32_asm_syntax.specs.Seen.{seen_instruction};
ghost use Rattle.rv32_decode.specs.Encoding.{word_of};
ghost use Rattle.rv32_decode.specs.Table.{row_of};
ghost use Rattle.std.specs.Prelude.{None, Some, if◌then◌else◌, neg_ℤ, pos, ◌&&◌, ◌^◌, ◌≡◌, ◌≤ℤ◌};

use crate::labels::Labels;
use crate::values;
use rv32_asm_syntax::Instruction;
use rv32_decode::{Format, Inst, Op, encode, format_of};

/// The word of an instruction at an address, where its value is in its range.
pub fn word_at(labels: &Labels, address: u32, instruction: &Instruction) -> Option<u32>
    ensures { let i = seen_instruction instruction.now in
        result ≡ if spec.fits_at labels.now address i then Some
        (word_of (spec.encoded_at labels.now address i)) else None }
{
    let value = values::immediate_value(labels, &instruction.immediate);
    let imm = immediate_of(instruction.op, address, value)?;
    Some(encode(&with_immediate(instruction, imm)))
}

// The immediate of a value at an address, where it is in its range.
fn immediate_of(op: Op, address: u32, value: i64) -> Option<i32>
    requires least { neg_ℤ (pos (2 ^ 33)) ≤ℤ value }
    requires most { value ≤ℤ pos (2 ^ 33) }
    ensures { result ≡ immediate_in (row_of op).format address value }
{
    match format_of(op) {
        Format::R | Format::Fieldless => Some(0),
        Format::I | Format::S => number_between(-2048, 2047, value),
        Format::Shift => number_between(0, 31, value),
        Format::U => upper(value),
        Format::B => distance_between(address, value, -4096, 4094),
        Format::J => distance_between(address, value, -0x10_0000, 0xf_fffe),
    }
}

// The number with these upper twenty bits, where they are no more.
fn upper(value: i64) -> Option<i32>
    ensures { result ≡ immediate_in Format.U 0 value }
{
    if (0..=0xf_ffff).contains(&value) {
        Some(((value as u32) << 12).cast_signed())
    } else {
        None
    }
}

// The distance to a target, where it is even and in a range.
fn distance_between(address: u32, target: i64, low: i32, high: i32) -> Option<i32>
    requires least { neg_ℤ (pos (2 ^ 33)) ≤ℤ target }
    requires most { target ≤ℤ pos (2 ^ 33) }
    ensures { let far = spec.distance address target in
        result ≡ if spec.is_even far && numbers.is_between low high far then Some far else None }
{
    let far = distance(address, target);
    if is_even(far) {
        number_between(low, high, i64::from(far))
    } else {
        None
    }
}

// How far it is from an address to a target, modulo 2^32, from -2^31 on.
fn distance(address: u32, target: i64) -> i32
    requires least { neg_ℤ (pos (2 ^ 33)) ≤ℤ target }
    requires most { target ≤ℤ pos (2 ^ 33) }
    ensures { result ≡ spec.distance address target }
{
    values::word_of(target - i64::from(address)).cast_signed()
}

fn is_even(number: i32) -> bool
    ensures { result ≡ spec.is_even number }
{
    number.rem_euclid(2) == 0
}

// A number, where it is in a range.
fn number_between(low: i32, high: i32, number: i64) -> Option<i32>
    ensures { result ≡ if numbers.is_between low high number then Some number else None }
{
    if i64::from(low) <= number && number <= i64::from(high) {
        Some(number as i32)
    } else {
        None
    }
}

// An instruction with an immediate, and of the registers those that its format has.
fn with_immediate(instruction: &Instruction, imm: i32) -> Inst
    ensures { result ≡ own_fields (row_of instruction.now.op).format (record {
      op = instruction.now.op;
      rd = instruction.now.rd;
      rs1 = instruction.now.rs1;
      rs2 = instruction.now.rs2;
      imm = imm;
    }) }
{
    let Instruction {
        op,
        rd,
        rs1,
        rs2,
        ..
    } = *instruction;
    let (rd, rs1, rs2) = match format_of(op) {
        Format::R => (rd, rs1, rs2),
        Format::I | Format::Shift => (rd, rs1, 0),
        Format::S | Format::B => (0, rs1, rs2),
        Format::U | Format::J => (rd, 0, 0),
        Format::Fieldless => (0, 0, 0),
    };
    Inst {
        op,
        rd,
        rs1,
        rs2,
        imm,
    }
}
