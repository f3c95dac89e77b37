//! The row of a word, found by the fields that its format fixes.
#![tactic(auto, unfolding(crate::specs::Table::ops, crate::specs::Table::rows, crate::specs::Table::row_of, crate::specs::Search::row_at, crate::specs::Search::op_at))]

ghost use Rattle.rv32_decode.specs.Decoding.{instruction_of};
ghost use Rattle.rv32_decode.specs.Search.{instruction_named, op_at};
ghost use Rattle.std.specs.Prelude.{option_map, Some, ◌≡◌, ◌≢◌, ◌⊎◌};

use crate::fields::{bits, instruction_in};
use crate::table::format_of;
use crate::{Inst, Op};

// The instruction of a word, or None where no row matches it.
#[inline(always)]
pub fn inst_of(word: u32) -> Option<Inst>
    ensures { result ≡ instruction_of word }
{
    inst_with(word % 128, bits(word, 12, 3), bits(word, 25, 7), word)
}

#[inline(always)]
fn inst_with(opcode: u32, funct3: u32, funct7: u32, word: u32) -> Option<Inst>
    ensures { result ≡ option_map (instruction_named word) (op_at opcode funct3 funct7 word) }
{
    match opcode {
        0x37 => row(Op::Lui, word),
        0x17 => row(Op::Auipc, word),
        0x6f => row(Op::Jal, word),
        0x67 => jump(funct3, word),
        0x63 => branch(funct3, word),
        0x03 => load(funct3, word),
        0x23 => store(funct3, word),
        0x13 => match funct3 {
            1 | 5 => shift(funct3, funct7, word),
            _ => immediate(funct3, funct7, word),
        },
        0x33 => register(funct3, funct7, word),
        0x0f => fence(funct3, word),
        0x73 => system(word),
        _ => None,
    }
}

#[inline(always)]
fn jump(funct3: u32, word: u32) -> Option<Inst>
    ensures { result ≡ option_map (instruction_named word) (op_at 0x67 funct3 0 0) }
{
    match funct3 {
        0 => row(Op::Jalr, word),
        _ => None,
    }
}

#[inline(always)]
fn branch(funct3: u32, word: u32) -> Option<Inst>
    ensures { result ≡ option_map (instruction_named word) (op_at 0x63 funct3 0 0) }
{
    match funct3 {
        0 => row(Op::Beq, word),
        1 => row(Op::Bne, word),
        4 => row(Op::Blt, word),
        5 => row(Op::Bge, word),
        6 => row(Op::Bltu, word),
        7 => row(Op::Bgeu, word),
        _ => None,
    }
}

#[inline(always)]
fn load(funct3: u32, word: u32) -> Option<Inst>
    ensures { result ≡ option_map (instruction_named word) (op_at 0x03 funct3 0 0) }
{
    match funct3 {
        0 => row(Op::Lb, word),
        1 => row(Op::Lh, word),
        2 => row(Op::Lw, word),
        4 => row(Op::Lbu, word),
        5 => row(Op::Lhu, word),
        _ => None,
    }
}

#[inline(always)]
fn store(funct3: u32, word: u32) -> Option<Inst>
    ensures { result ≡ option_map (instruction_named word) (op_at 0x23 funct3 0 0) }
{
    match funct3 {
        0 => row(Op::Sb, word),
        1 => row(Op::Sh, word),
        2 => row(Op::Sw, word),
        _ => None,
    }
}

#[inline(always)]
fn immediate(funct3: u32, funct7: u32, word: u32) -> Option<Inst>
    requires { (funct3 ≢ 1) × (funct3 ≢ 5) }
    ensures { result ≡ option_map (instruction_named word) (op_at 0x13 funct3 funct7 0) }
{
    match funct3 {
        0 => row(Op::Addi, word),
        2 => row(Op::Slti, word),
        3 => row(Op::Sltiu, word),
        4 => row(Op::Xori, word),
        6 => row(Op::Ori, word),
        7 => row(Op::Andi, word),
        _ => None,
    }
}

#[inline(always)]
fn shift(funct3: u32, funct7: u32, word: u32) -> Option<Inst>
    requires { (funct3 ≡ 1) ⊎ (funct3 ≡ 5) }
    ensures { result ≡ option_map (instruction_named word) (op_at 0x13 funct3 funct7 0) }
{
    match (funct3, funct7) {
        (1, 0x00) => row(Op::Slli, word),
        (5, 0x00) => row(Op::Srli, word),
        (5, 0x20) => row(Op::Srai, word),
        _ => None,
    }
}

#[inline(always)]
fn register(funct3: u32, funct7: u32, word: u32) -> Option<Inst>
    ensures { result ≡ option_map (instruction_named word) (op_at 0x33 funct3 funct7 0) }
{
    match funct7 {
        0x00 => plain(funct3, word),
        0x20 => inverse(funct3, word),
        0x01 => multiply(funct3, word),
        _ => None,
    }
}

#[inline(always)]
fn plain(funct3: u32, word: u32) -> Option<Inst>
    ensures { result ≡ option_map (instruction_named word) (op_at 0x33 funct3 0x00 0) }
{
    match funct3 {
        0 => row(Op::Add, word),
        1 => row(Op::Sll, word),
        2 => row(Op::Slt, word),
        3 => row(Op::Sltu, word),
        4 => row(Op::Xor, word),
        5 => row(Op::Srl, word),
        6 => row(Op::Or, word),
        7 => row(Op::And, word),
        _ => None,
    }
}

#[inline(always)]
fn inverse(funct3: u32, word: u32) -> Option<Inst>
    ensures { result ≡ option_map (instruction_named word) (op_at 0x33 funct3 0x20 0) }
{
    match funct3 {
        0 => row(Op::Sub, word),
        5 => row(Op::Sra, word),
        _ => None,
    }
}

#[inline(always)]
fn multiply(funct3: u32, word: u32) -> Option<Inst>
    ensures { result ≡ option_map (instruction_named word) (op_at 0x33 funct3 0x01 0) }
{
    match funct3 {
        0 => row(Op::Mul, word),
        1 => row(Op::Mulh, word),
        2 => row(Op::Mulhsu, word),
        3 => row(Op::Mulhu, word),
        4 => row(Op::Div, word),
        5 => row(Op::Divu, word),
        6 => row(Op::Rem, word),
        7 => row(Op::Remu, word),
        _ => None,
    }
}

#[inline(always)]
fn fence(funct3: u32, word: u32) -> Option<Inst>
    ensures { result ≡ option_map (instruction_named word) (op_at 0x0f funct3 0 0) }
{
    match funct3 {
        0 => row(Op::Fence, word),
        1 => row(Op::FenceI, word),
        _ => None,
    }
}

#[inline(always)]
fn system(word: u32) -> Option<Inst>
    ensures { result ≡ option_map (instruction_named word) (op_at 0x73 0 0 word) }
{
    match word {
        0x0000_0073 => row(Op::Ecall, word),
        0x0010_0073 => row(Op::Ebreak, word),
        _ => None,
    }
}

// The instruction of a word in the row of a name.
#[inline]
fn row(op: Op, word: u32) -> Option<Inst>
    ensures { result ≡ Some (instruction_named word op) }
{
    Some(instruction_in(format_of(op), op, word))
}
