// The statement of a line: its word, and the operands behind it.

ghost use Rattle.rv32_asm_syntax.specs.Keywords.{AlignKeyword, AsciiKeyword, AscizKeyword, InstructionKeyword, SpaceKeyword};
ghost use Rattle.rv32_asm_syntax.specs.Lines as lines;
ghost use Rattle.rv32_asm_syntax.specs.Parts.{front_keyword, takes_memory};
ghost use Rattle.rv32_asm_syntax.specs.Reading as spec;
ghost use Rattle.rv32_asm_syntax.specs.Seen.{seen_expression, seen_instruction, seen_instructions, seen_keyword, seen_operand, seen_statement};
ghost use Rattle.rv32_asm_syntax.specs.Statements.{Nothing};
ghost use Rattle.rv32_asm_syntax.specs.declared.fault.AsmFault.{AsmFault};
ghost use Rattle.rv32_asm_syntax.specs.declared.fault.LineError.TheVariants as cause;
ghost use Rattle.rv32_asm_syntax.specs.declared.fault.LineError.TheVariants.{Fault};
ghost use Rattle.std.specs.Prelude.{Err, IfOk, None, Ok, OnErr, Some, [], if◌then◌else◌, map, neg_ℤ, option_map, pos, true, ◌<◌, ◌^◌, ◌∷◌, ◌≡◌, ◌≤ℤ◌};

use crate::characters::{is_name, skip_blanks, word_len};
use crate::expressions::expression_of;
use crate::fault::{AsmFault, LineError};
use crate::keywords::{Keyword, Operand, keyword_of};
use crate::lines::{has_non_ascii, statement_text, without_comment};
use crate::numbers::number_of;
use crate::operands::{expressions_of, operands_of, two_operands, with_operands};
use crate::registers::register_of;
use crate::statements::{Expression, Immediate, Instruction, Statement};
use crate::strings::string_of;
use arrayvec::ArrayVec;
use rv32_decode::Op;
use sec_base::{NoMemory, Width};
use std::alloc::Global;

/// The statement of a line, which may have labels before it and a comment behind it. `NoMemory` may come at any line of
/// values or of a string, and at no other.
#[tactic(auto, unfolding(crate::specs::Reading::statement_of))]
pub fn statement_of<'a>(alloc: Global, line: &'a [u8]) -> Result<Statement<'a>, LineError>
    ensures read { IfOk result (λ s. spec.statement_of line.now ≡ Ok (seen_statement s)) }
    ensures refused { (fault : AsmFault) → result ≡ Err (Fault fault) →
        spec.statement_of line.now ≡ Err fault }
    ensures memory { result ≡ Err cause.NoMemory →
        takes_memory (front_keyword (lines.statement_text line.now)) ≡ true }
{
    if has_non_ascii(without_comment(line)) {
        return Err(LineError::Fault(AsmFault::Unknown));
    }
    statement_in(alloc, statement_text(line))
}

// The statement that a text is, which begins with its word.
fn statement_in<'a>(alloc: Global, text: &'a [u8]) -> Result<Statement<'a>, LineError>
    ensures read { IfOk result (λ s. spec.statement_in text.now ≡ Ok (seen_statement s)) }
    ensures refused { (fault : AsmFault) → result ≡ Err (Fault fault) →
        spec.statement_in text.now ≡ Err fault }
    ensures memory { result ≡ Err cause.NoMemory → takes_memory (front_keyword text.now) ≡ true }
{
    if text.is_empty() {
        return Ok(Statement::Nothing);
    }
    let len = word_len(text);
    let Some(keyword) = keyword_of(&text[..len]) else {
        return Err(LineError::Fault(AsmFault::Unknown));
    };
    match statement_with(alloc, keyword, skip_blanks(&text[len..]))? {
        Some(read) => Ok(read),
        None => Err(LineError::Fault(AsmFault::Operand)),
    }
}

// The statement of a word with the text behind it, where that has its form.
#[tactic(auto, using(crate::proofs::Commas::empty_test), unfolding(crate::specs::Reading::statement_with))]
fn statement_with<'a>(
    alloc: Global,
    keyword: Keyword,
    text: &'a [u8],
) -> Result<Option<Statement<'a>>, NoMemory>
    ensures read { IfOk result (λ s. option_map seen_statement s
        ≡ spec.statement_with (seen_keyword keyword) text.now) }
    ensures memory { OnErr result (takes_memory (Some (seen_keyword keyword)) ≡ true) }
{
    match keyword {
        Keyword::Instruction(operands, instruction) => {
            Ok(one_instruction(operands, instruction, text))
        }
        Keyword::LoadImmediate => Ok(li_of(text)),
        Keyword::LoadAddress => Ok(la_of(text)),
        Keyword::Data(width) => data_of(alloc, width, text),
        Keyword::Ascii => ascii_of(alloc, text),
        Keyword::Asciz => asciz_of(alloc, text),
        Keyword::Space => Ok(zeros_of(text)),
        Keyword::Align => Ok(aligned_of(text)),
        Keyword::Text => Ok(nothing_where(text.is_empty())),
        Keyword::Globl => Ok(nothing_where(is_name(text))),
    }
}

// An instruction alone, with the fields that its operands give.
#[tactic(auto, unfolding(crate::specs::Reading::statement_with))]
fn one_instruction<'a>(
    operands: &[Operand],
    instruction: Instruction<'a>,
    text: &'a [u8],
) -> Option<Statement<'a>>
    ensures { option_map seen_statement result
        ≡ spec.statement_with (InstructionKeyword (map seen_operand operands.now)
        (seen_instruction instruction.entry)) text.now }
{
    let given = with_operands(operands, operands_of(text), instruction)?;
    Some(Statement::Instructions(alone(given)))
}

// A register and a number.
#[tactic(auto, using(crate::proofs::Commas::li_other))]
fn li_of(text: &[u8]) -> Option<Statement<'_>>
    ensures { option_map seen_statement result ≡ spec.li_of (spec.operands_of text.now) }
{
    let (register, number) = two_operands(text)?;
    let rd = register_of(register)?;
    let number = number_of(number)?;
    Some(Statement::Instructions(number_load(rd, number)))
}

// A number put into a register, by one instruction where ADDI can.
fn number_load(rd: u8, number: i64) -> ArrayVec<Instruction<'static>, 2>
    requires register { rd < 32 }
    requires least { neg_ℤ (pos (2 ^ 32)) ≤ℤ number }
    requires most { number ≤ℤ pos (2 ^ 32) }
    ensures { seen_instructions result.items ≡ spec.number_load rd number }
{
    if (-2048..=2047).contains(&number) {
        return alone(Instruction::with_number(Op::Addi, rd, 0, 0, number));
    }
    pair(rd, Expression::number_alone(number))
}

fn alone(instruction: Instruction<'_>) -> ArrayVec<Instruction<'_>, 2>
    ensures { result.items ≡ instruction.entry ∷ [] }
{
    let mut instructions = ArrayVec::new();
    instructions.push(instruction);
    instructions
}

// A register and an expression.
#[tactic(auto, using(crate::proofs::Commas::la_other))]
fn la_of(text: &[u8]) -> Option<Statement<'_>>
    ensures { option_map seen_statement result ≡ spec.la_of (spec.operands_of text.now) }
{
    let (register, value) = two_operands(text)?;
    let rd = register_of(register)?;
    let value = expression_of(value)?;
    Some(Statement::Instructions(pair(rd, value)))
}

// The value put into a register by its upper and its lower part.
fn pair<'a>(rd: u8, value: Expression<'a>) -> ArrayVec<Instruction<'a>, 2>
    requires { rd < 32 }
    ensures { seen_instructions result.items ≡ spec.pair rd (seen_expression value.entry) }
{
    let upper = Instruction {
        op: Op::Lui,
        rd,
        rs1: 0,
        rs2: 0,
        immediate: Immediate::Upper(value),
    };
    let lower = Instruction {
        op: Op::Addi,
        rd,
        rs1: rd,
        rs2: 0,
        immediate: Immediate::Lower(value),
    };
    ArrayVec::from([upper, lower])
}

// One or more values.
#[tactic(auto, using(crate::proofs::Commas::no_data, crate::proofs::Commas::some_data))]
fn data_of<'a>(
    alloc: Global,
    width: Width,
    text: &'a [u8],
) -> Result<Option<Statement<'a>>, NoMemory>
    ensures { IfOk result (λ s. option_map seen_statement s
        ≡ spec.data_of width (spec.operands_of text.now)) }
{
    if text.is_empty() {
        return Ok(None);
    }
    match expressions_of(alloc, operands_of(text))? {
        Some(values) => Ok(Some(Statement::Data(width, values))),
        None => Ok(None),
    }
}

// A string.
#[tactic(auto, unfolding(crate::specs::Reading::statement_with))]
fn ascii_of<'a>(alloc: Global, text: &'a [u8]) -> Result<Option<Statement<'a>>, NoMemory>
    ensures { IfOk result (λ s. option_map seen_statement s
        ≡ spec.statement_with AsciiKeyword text.now) }
{
    match string_of(alloc, text)? {
        Some(bytes) => Ok(Some(Statement::Bytes(bytes))),
        None => Ok(None),
    }
}

// A string and a zero byte.
#[tactic(auto, unfolding(crate::specs::Reading::statement_with))]
fn asciz_of<'a>(alloc: Global, text: &'a [u8]) -> Result<Option<Statement<'a>>, NoMemory>
    ensures { IfOk result (λ s. option_map seen_statement s
        ≡ spec.statement_with AscizKeyword text.now) }
{
    let Some(mut bytes) = string_of(alloc, text)? else {
        return Ok(None);
    };
    bytes.push(0)?;
    Ok(Some(Statement::Bytes(bytes)))
}

#[tactic(auto, unfolding(crate::specs::Reading::statement_with))]
fn zeros_of<'a>(text: &[u8]) -> Option<Statement<'a>>
    ensures { option_map seen_statement result ≡ spec.statement_with SpaceKeyword text.now }
{
    Some(Statement::Zeros(number_of(text)?))
}

#[tactic(auto, unfolding(crate::specs::Reading::statement_with))]
fn aligned_of<'a>(text: &[u8]) -> Option<Statement<'a>>
    ensures { option_map seen_statement result ≡ spec.statement_with AlignKeyword text.now }
{
    Some(Statement::Aligned(number_of(text)?))
}

// No bytes, where the text behind the word has its form.
fn nothing_where<'a>(formed: bool) -> Option<Statement<'a>>
    ensures { option_map seen_statement result ≡ (if formed then Some Nothing else None) }
{
    if formed {
        Some(Statement::Nothing)
    } else {
        None
    }
}
