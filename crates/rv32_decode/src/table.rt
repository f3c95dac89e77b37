//! The instruction table: RV32I, M and Zifencei.

ghost use Rattle.rv32_decode.specs.Table.{row_of};
ghost use Rattle.rv32_decode.specs.Table as spec;
ghost use Rattle.std.specs.Prelude.{map, ◌≡◌};

use crate::Op;

/// The layouts of a word's fields: R to J of section 2.2 of the manual, and two for what it writes within I.
#[derive(Clone, Copy, Debug, PartialEq, Eq)]
pub enum Format {
    /// Three registers.
    R,
    /// Two registers and an immediate of 12 bits.
    I,
    /// A store: two registers that are read, and an immediate of 12 bits.
    S,
    /// A branch: two registers that are read, and an even distance of 13 bits.
    B,
    /// A register and the upper 20 bits of an immediate.
    U,
    /// A jump: a register and an even distance of 21 bits.
    J,
    /// Two registers and a shift of 5 bits, where I has its immediate.
    Shift,
    /// No fields: one word.
    Fieldless,
}

/// A row of the instruction table.
#[derive(Clone, Copy, Debug, PartialEq, Eq)]
pub struct Row {
    /// The word of the row whose fields are all 0.
    pub pattern: u32,
    /// The layout of the fields.
    pub format: Format,
    /// The name.
    pub op: Op,
}

// A row: the pattern, the format and the name.
macro_rules! row {
    ($pattern:literal, $format:ident, $op:ident) => {
        Row {
            pattern: $pattern,
            format: Format::$format,
            op: Op::$op,
        }
    };
}

static ROWS: [Row; 49] = [
    row!(0x0000_0037, U, Lui),
    row!(0x0000_0017, U, Auipc),
    row!(0x0000_006f, J, Jal),
    row!(0x0000_0067, I, Jalr),
    row!(0x0000_0063, B, Beq),
    row!(0x0000_1063, B, Bne),
    row!(0x0000_4063, B, Blt),
    row!(0x0000_5063, B, Bge),
    row!(0x0000_6063, B, Bltu),
    row!(0x0000_7063, B, Bgeu),
    row!(0x0000_0003, I, Lb),
    row!(0x0000_1003, I, Lh),
    row!(0x0000_2003, I, Lw),
    row!(0x0000_4003, I, Lbu),
    row!(0x0000_5003, I, Lhu),
    row!(0x0000_0023, S, Sb),
    row!(0x0000_1023, S, Sh),
    row!(0x0000_2023, S, Sw),
    row!(0x0000_0013, I, Addi),
    row!(0x0000_2013, I, Slti),
    row!(0x0000_3013, I, Sltiu),
    row!(0x0000_4013, I, Xori),
    row!(0x0000_6013, I, Ori),
    row!(0x0000_7013, I, Andi),
    row!(0x0000_1013, Shift, Slli),
    row!(0x0000_5013, Shift, Srli),
    row!(0x4000_5013, Shift, Srai),
    row!(0x0000_0033, R, Add),
    row!(0x4000_0033, R, Sub),
    row!(0x0000_1033, R, Sll),
    row!(0x0000_2033, R, Slt),
    row!(0x0000_3033, R, Sltu),
    row!(0x0000_4033, R, Xor),
    row!(0x0000_5033, R, Srl),
    row!(0x4000_5033, R, Sra),
    row!(0x0000_6033, R, Or),
    row!(0x0000_7033, R, And),
    row!(0x0200_0033, R, Mul),
    row!(0x0200_1033, R, Mulh),
    row!(0x0200_2033, R, Mulhsu),
    row!(0x0200_3033, R, Mulhu),
    row!(0x0200_4033, R, Div),
    row!(0x0200_5033, R, Divu),
    row!(0x0200_6033, R, Rem),
    row!(0x0200_7033, R, Remu),
    row!(0x0000_000f, I, Fence),
    row!(0x0000_100f, I, FenceI),
    row!(0x0000_0073, Fieldless, Ecall),
    row!(0x0010_0073, Fieldless, Ebreak),
];

/// The instruction table, in the order of `Op`.
#[tactic(auto, unfolding(crate::specs::Table::ops, crate::specs::Table::row_of, crate::specs::Table::rows))]
pub fn rows() -> &'static [Row]
    ensures ops { map (λ row. row.op) result.now ≡ map (λ row. row.op) spec.rows }
    ensures patterns { map (λ row. row.pattern) result.now ≡ map (λ row. row.pattern) spec.rows }
    ensures formats { map (λ row. row.format) result.now ≡ map (λ row. row.format) spec.rows }
{
    &ROWS
}

// The word of a row whose fields are all 0.
pub fn pattern_of(op: Op) -> u32
    ensures { result ≡ (row_of op).pattern }
{
    row_named(op).pattern
}

/// The format of a row. It is a match and no look-up, since decoding knows the name: a compiler folds the match.
#[inline(always)]
#[tactic(auto, unfolding(crate::specs::Table::row_of))]
pub fn format_of(op: Op) -> Format
    ensures { result ≡ (row_of op).format }
{
    match op {
        Op::Add
        | Op::Sub
        | Op::Sll
        | Op::Slt
        | Op::Sltu
        | Op::Xor
        | Op::Srl
        | Op::Sra
        | Op::Or
        | Op::And
        | Op::Mul
        | Op::Mulh
        | Op::Mulhsu
        | Op::Mulhu
        | Op::Div
        | Op::Divu
        | Op::Rem
        | Op::Remu => Format::R,
        Op::Jalr
        | Op::Lb
        | Op::Lh
        | Op::Lw
        | Op::Lbu
        | Op::Lhu
        | Op::Addi
        | Op::Slti
        | Op::Sltiu
        | Op::Xori
        | Op::Ori
        | Op::Andi
        | Op::Fence
        | Op::FenceI => Format::I,
        Op::Sb | Op::Sh | Op::Sw => Format::S,
        Op::Beq | Op::Bne | Op::Blt | Op::Bge | Op::Bltu | Op::Bgeu => Format::B,
        Op::Lui | Op::Auipc => Format::U,
        Op::Jal => Format::J,
        Op::Slli | Op::Srli | Op::Srai => Format::Shift,
        Op::Ecall | Op::Ebreak => Format::Fieldless,
    }
}

// The row of a name.
#[inline(always)]
fn row_named(op: Op) -> Row
    ensures pattern { result.pattern ≡ (row_of op).pattern }
    ensures format { result.format ≡ (row_of op).format }
{
    ROWS[op as usize]
}
