//! The instruction table of RV32I, M and Zifencei: words decoded, and instructions encoded.
//!
//! Sections of the RISC-V unprivileged manual are those of its version 20240411.
#![tactic(auto)]

ghost use Rattle.rv32_decode.specs.Decoding.{instruction_of, is_word_of};
ghost use Rattle.rv32_decode.specs.Encoding.{IsInst, word_of};
ghost use Rattle.rv32_decode.specs.Table.{rows};
ghost use Rattle.rv32_decode.specs.declared.Inst.{Inst};
ghost use Rattle.std.specs.Prelude.{All, IfSome, IsNone, bit_and, filter, length, ◌↔◌, ◌≡◌, ◌≢◌, ◌≤◌};

mod fields;
mod search;
mod table;

pub use table::{Format, Row, format_of, rows};

/// The names of the instruction table's rows, in its order.
#[derive(Clone, Copy, Debug, PartialEq, Eq)]
pub enum Op {
    /// Load upper immediate.
    Lui,
    /// Add upper immediate to pc.
    Auipc,
    /// Jump and link.
    Jal,
    /// Jump and link register.
    Jalr,
    /// Branch if equal.
    Beq,
    /// Branch if not equal.
    Bne,
    /// Branch if less, signed.
    Blt,
    /// Branch if greater or equal, signed.
    Bge,
    /// Branch if less, unsigned.
    Bltu,
    /// Branch if greater or equal, unsigned.
    Bgeu,
    /// Load a byte, sign-extended.
    Lb,
    /// Load a half word, sign-extended.
    Lh,
    /// Load a word.
    Lw,
    /// Load a byte, zero-extended.
    Lbu,
    /// Load a half word, zero-extended.
    Lhu,
    /// Store a byte.
    Sb,
    /// Store a half word.
    Sh,
    /// Store a word.
    Sw,
    /// Add an immediate.
    Addi,
    /// Set if less than an immediate, signed.
    Slti,
    /// Set if less than an immediate, unsigned.
    Sltiu,
    /// Exclusive or with an immediate.
    Xori,
    /// Or with an immediate.
    Ori,
    /// And with an immediate.
    Andi,
    /// Shift left by an immediate.
    Slli,
    /// Shift right by an immediate, zeros coming in.
    Srli,
    /// Shift right by an immediate, copies of the sign coming in.
    Srai,
    /// Add.
    Add,
    /// Subtract.
    Sub,
    /// Shift left.
    Sll,
    /// Set if less, signed.
    Slt,
    /// Set if less, unsigned.
    Sltu,
    /// Exclusive or.
    Xor,
    /// Shift right, zeros coming in.
    Srl,
    /// Shift right, copies of the sign coming in.
    Sra,
    /// Or.
    Or,
    /// And.
    And,
    /// The low word of a product.
    Mul,
    /// The high word of a signed product.
    Mulh,
    /// The high word of a product of a signed and an unsigned number.
    Mulhsu,
    /// The high word of an unsigned product.
    Mulhu,
    /// Divide, signed.
    Div,
    /// Divide, unsigned.
    Divu,
    /// Remainder, signed.
    Rem,
    /// Remainder, unsigned.
    Remu,
    /// Order memory accesses.
    Fence,
    /// Order stores and instruction fetches.
    FenceI,
    /// Call the environment.
    Ecall,
    /// Break into a debugger.
    Ebreak,
}

/// An instruction: the row and its fields. A field that the row's format lacks is 0.
#[derive(Clone, Copy, Debug, PartialEq, Eq)]
pub struct Inst {
    /// The row.
    pub op: Op,
    // Here it keeps the fields apart: eight bytes in a row would be moved as one number, and each step would be slower.
    /// The immediate, sign-extended.
    pub imm: i32,
    /// The number of the register that is written, below 32.
    pub rd: u8,
    /// The number of the first register that is read, below 32.
    pub rs1: u8,
    /// The number of the second register that is read, below 32.
    pub rs2: u8,
}

/// The instruction of a word, or None where no row of the table matches it.
#[inline(always)]
pub fn decode(word: u32) -> Option<Inst>
    ensures row { result ≡ instruction_of word }
    ensures fields { IfSome result IsInst }
    ensures encoded { (i : Inst) → IsInst i → ((result ≡ Some i) ↔ (word_of i ≡ word)) }

    // A word matches one row at most, and none exactly where there is no instruction.
    ensures none { IsNone result ↔ All (λ row. bit_and word row.mask ≢ row.pattern) rows }
    ensures one_row { length (filter (is_word_of word) rows) ≤ 1 }
{
    search::inst_of(word)
}

/// The word of an instruction whose fields are in the ranges of its format.
pub fn encode(inst: &Inst) -> u32
    requires { IsInst inst.now }
    ensures word { result ≡ word_of inst.now }
    ensures decoded { instruction_of result ≡ Some inst.now }
{
    table::pattern_of(inst.op) + fields::field_bits(format_of(inst.op), inst)
}
