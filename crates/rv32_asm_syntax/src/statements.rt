// What a statement is, apart from how it is spelled.

ghost use Rattle.std.specs.Prelude.{neg_ℤ, pos, ◌<◌, ◌^◌, ◌≤ℤ◌};

use arrayvec::ArrayVec;
use rv32_decode::Op;
use sec_base::Width;

/// A number, or the address of a label and a number that is added to it.
#[derive(Clone, Copy)]
pub struct Expression<'a> {
    /// The label's name.
    pub label: Option<&'a [u8]>,
    /// The number.
    pub number: i64,

    ghost least: { neg_ℤ (pos (2 ^ 32)) ≤ℤ number },
    ghost most: { number ≤ℤ pos (2 ^ 32) },
}

impl<'a> Expression<'a> {
    ghost use Rattle.rv32_asm_syntax.specs.Expressions as spec;
    ghost use Rattle.rv32_asm_syntax.specs.Seen.{seen_expression};
    ghost use Rattle.std.specs.Prelude.{◌≡◌};

    /// A number.
    pub fn number_alone(number: i64) -> Self
        requires least { neg_ℤ (pos (2 ^ 32)) ≤ℤ number }
        requires most { number ≤ℤ pos (2 ^ 32) }
        ensures { seen_expression result ≡ spec.number_alone number }
    {
        Expression {
            label: None,
            number,
        }
    }

    /// The address of a label, and a number that is added.
    pub fn from_label(name: &'a [u8], number: i64) -> Self
        requires least { neg_ℤ (pos (2 ^ 32)) ≤ℤ number }
        requires most { number ≤ℤ pos (2 ^ 32) }
        ensures { seen_expression result ≡ spec.from_label name.now number }
    {
        Expression {
            label: Some(name),
            number,
        }
    }
}

/// What stands for an instruction's immediate: an expression, or the upper part or the lower part of its value, which LUI
/// and ADDI put together again.
#[derive(Clone, Copy)]
pub enum Immediate<'a> {
    Whole(Expression<'a>),
    Upper(Expression<'a>),
    Lower(Expression<'a>),
}

/// An instruction whose immediate is yet to be worked out.
#[derive(Clone, Copy)]
pub struct Instruction<'a> {
    pub op: Op,
    pub rd: u8,
    pub rs1: u8,
    pub rs2: u8,
    pub immediate: Immediate<'a>,

    ghost rd_is_register: { rd < 32 },
    ghost rs1_is_register: { rs1 < 32 },
    ghost rs2_is_register: { rs2 < 32 },
}

impl<'a> Instruction<'a> {
    ghost use Rattle.rv32_asm_syntax.specs.Seen.{seen_instruction};
    ghost use Rattle.rv32_asm_syntax.specs.Statements as meant;
    ghost use Rattle.std.specs.Prelude.{◌≡◌};

    /// An instruction with a number as its immediate.
    pub fn with_number(op: Op, rd: u8, rs1: u8, rs2: u8, number: i64) -> Self
        requires rd { rd < 32 }
        requires rs1 { rs1 < 32 }
        requires rs2 { rs2 < 32 }
        requires least { neg_ℤ (pos (2 ^ 32)) ≤ℤ number }
        requires most { number ≤ℤ pos (2 ^ 32) }
        ensures { seen_instruction result ≡ meant.instruction op rd rs1 rs2 number }
    {
        let immediate = Immediate::Whole(Expression::number_alone(number));
        Instruction {
            op,
            rd,
            rs1,
            rs2,
            immediate,
        }
    }
}

impl<'a> Default for Instruction<'a> {
    ghost use Rattle.rv32_asm_syntax.specs.Seen.{seen_instruction};
    ghost use Rattle.rv32_asm_syntax.specs.Statements as meant;
    ghost use Rattle.rv32_decode.specs.declared.Op.TheVariants.{Addi};
    ghost use Rattle.std.specs.Prelude.{pos, ◌≡◌};

    ghost is_default = { λ each. seen_instruction each ≡ meant.instruction Addi 0 0 0 (pos 0) };

    /// `nop`.
    fn default() -> Self {
        Instruction::with_number(Op::Addi, 0, 0, 0, 0)
    }
}

/// What one line asks for.
#[derive(Drop)]
pub enum Statement<'a> {
    /// One instruction, or two, one after the other.
    Instructions(ArrayVec<Instruction<'a>, 2>),
    /// A number of this width for each value.
    Data(Width, Vec<Expression<'a>>),
    /// These bytes.
    Bytes(Vec<u8>),
    /// So many zeros.
    Zeros(i64),
    /// Zeros up to a multiple of so many bytes.
    Aligned(i64),
    /// No bytes.
    Nothing,
}
