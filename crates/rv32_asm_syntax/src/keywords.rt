// The words that a statement begins with, and which operands stand behind them.

ghost use Rattle.rv32_asm_syntax.specs.Keywords as spec;
ghost use Rattle.rv32_asm_syntax.specs.Seen.{seen_keyword, seen_operand};
ghost use Rattle.rv32_asm_syntax.specs.Tables.{entry, has_registers, keyword_in, pseudoinstruction_entry};
ghost use Rattle.std.specs.List.{list_all};
ghost use Rattle.std.specs.Prelude.{map, option_map, true, ◌≡◌};

use crate::statements::Instruction;
use rv32_decode::{Op, rows};
use rv32_text::{Style, mnemonic_of, style_of};
use sec_base::Width;

/// What an operand is: a register for a field of the instruction, an expression for its immediate, or a memory
/// operand, as `4(sp)`, for its immediate and its first register.
#[derive(Clone, Copy)]
pub enum Operand {
    Rd,
    Rs1,
    Rs2,
    Value,
    Memory,
}

/// What a word at the front of a statement stands for.
#[derive(Clone, Copy)]
pub enum Keyword {
    /// An instruction, or a pseudoinstruction for one: its operands, and the fields that they leave as they are.
    Instruction(&'static [Operand], Instruction<'static>),
    /// The pseudoinstruction `li`.
    LoadImmediate,
    /// The pseudoinstruction `la`.
    LoadAddress,
    /// The directive of values of a width.
    Data(Width),
    Ascii,
    Asciz,
    Space,
    Align,
    Text,
    Globl,
}

/// What a word stands for.
#[tactic(auto, using(crate::proofs::Tables::found_first, crate::proofs::Tables::found_later), unfolding(crate::specs::Keywords::keyword_of, crate::specs::Keywords::keywords))]
pub fn keyword_of(word: &[u8]) -> Option<Keyword>
    ensures { option_map seen_keyword result ≡ spec.keyword_of word.now }
{
    if let Some(keyword) = row_named(word) {
        return Some(keyword);
    }
    if let Some(keyword) = pseudoinstruction_named(word) {
        return Some(keyword);
    }
    if let Some(keyword) = keyword_in(&long_pseudoinstructions(), word) {
        return Some(keyword);
    }
    keyword_in(&directives(), word)
}

#[tactic(auto, using(crate::proofs::Tables::rows_named))]
fn row_named(word: &[u8]) -> Option<Keyword>
    ensures { option_map seen_keyword result ≡ keyword_in spec.row_entries word.now }
{
    for row in rows() {
        if mnemonic_of(row.op).as_bytes() == word {
            return Some(row_keyword(row.op));
        }
    }
    None
}

// The operands and the fields of a row of the instruction table.
fn row_keyword(op: Op) -> Keyword
    ensures { seen_keyword result ≡ spec.row_keyword op }
{
    let immediate = match op {
        Op::Fence => 0x0ff,
        _ => 0,
    };
    Keyword::Instruction(
        operands_in(style_of(op)),
        Instruction::with_number(op, 0, 0, 0, immediate),
    )
}

// The operands of the table's rows.
fn operands_in(style: Style) -> &'static [Operand]
    ensures { map seen_operand result.now ≡ spec.operands_in style }
{
    match style {
        Style::Registers => &[Operand::Rd, Operand::Rs1, Operand::Rs2],
        Style::Immediate => &[Operand::Rd, Operand::Rs1, Operand::Value],
        Style::Offset => &[Operand::Rd, Operand::Memory],
        Style::Store => &[Operand::Rs2, Operand::Memory],
        Style::Upper | Style::Jump => &[Operand::Rd, Operand::Value],
        Style::Branch => &[Operand::Rs1, Operand::Rs2, Operand::Value],
        Style::Fence | Style::Bare => &[],
    }
}

fn pseudoinstruction_named(word: &[u8]) -> Option<Keyword>
    ensures { option_map seen_keyword result ≡ keyword_in spec.pseudoinstructions word.now }
{
    for pseudo in pseudoinstructions() {
        if pseudo.name.as_bytes() == word {
            let Pseudoinstruction {
                operands,
                op,
                rd,
                rs1,
                number,
                ..
            } = *pseudo;
            return Some(Keyword::Instruction(
                operands,
                Instruction::with_number(op, rd, rs1, 0, number),
            ));
        }
    }
    None
}

// A pseudoinstruction for one instruction, whose fields are as here where no operand gives them.
struct Pseudoinstruction {
    name: &'static str,
    operands: &'static [Operand],
    op: Op,
    rd: u8,
    rs1: u8,
    number: i64,
}

// A row of the table: the name and the operands, and op, rd, rs1 and the number of the instruction.
macro_rules! pseudoinstruction {
    ($name:literal, [$($operand:ident),*], $op:ident, $rd:literal, $rs1:literal, $number:expr) => {
        Pseudoinstruction {
            name: $name,
            operands: &[$(Operand::$operand),*],
            op: Op::$op,
            rd: $rd,
            rs1: $rs1,
            number: $number,
        }
    };
}

static PSEUDOINSTRUCTIONS: [Pseudoinstruction; 12] = [
    pseudoinstruction!("nop", [], Addi, 0, 0, 0),
    pseudoinstruction!("mv", [Rd, Rs1], Addi, 0, 0, 0),
    pseudoinstruction!("j", [Value], Jal, 0, 0, 0),
    pseudoinstruction!("call", [Value], Jal, 1, 0, 0),
    pseudoinstruction!("jr", [Rs1], Jalr, 0, 0, 0),
    pseudoinstruction!("ret", [], Jalr, 0, 1, 0),
    pseudoinstruction!("beqz", [Rs1, Value], Beq, 0, 0, 0),
    pseudoinstruction!("bnez", [Rs1, Value], Bne, 0, 0, 0),
    pseudoinstruction!("not", [Rd, Rs1], Xori, 0, 0, -1),
    pseudoinstruction!("neg", [Rd, Rs2], Sub, 0, 0, 0),
    pseudoinstruction!("seqz", [Rd, Rs1], Sltiu, 0, 0, 1),
    pseudoinstruction!("snez", [Rd, Rs2], Sltu, 0, 0, 0),
];

#[tactic(auto, unfolding(crate::specs::Keywords::pseudoinstructions))]
fn pseudoinstructions() -> &'static [Pseudoinstruction]
    ensures same { map pseudoinstruction_entry result.now ≡ spec.pseudoinstructions }
    ensures registers { list_all has_registers result.now ≡ true }
{
    &PSEUDOINSTRUCTIONS
}

// What a word stands for in a table.
fn keyword_in(table: &[(&'static str, Keyword)], word: &[u8]) -> Option<Keyword>
    ensures { option_map seen_keyword result ≡ keyword_in (map entry table.now) word.now }
{
    for &(name, keyword) in table {
        if name.as_bytes() == word {
            return Some(keyword);
        }
    }
    None
}

// The pseudoinstructions for one instruction or two.
#[tactic(auto, unfolding(crate::specs::Keywords::long_pseudoinstructions))]
fn long_pseudoinstructions() -> [(&'static str, Keyword); 2]
    ensures { map entry result ≡ spec.long_pseudoinstructions }
{
    [("li", Keyword::LoadImmediate), ("la", Keyword::LoadAddress)]
}

#[tactic(auto, unfolding(crate::specs::Keywords::directives))]
fn directives() -> [(&'static str, Keyword); 9]
    ensures { map entry result ≡ spec.directives }
{
    [
        (".word", Keyword::Data(Width::Four)),
        (".half", Keyword::Data(Width::Two)),
        (".byte", Keyword::Data(Width::One)),
        (".ascii", Keyword::Ascii),
        (".asciz", Keyword::Asciz),
        (".space", Keyword::Space),
        (".align", Keyword::Align),
        (".text", Keyword::Text),
        (".globl", Keyword::Globl),
    ]
}
