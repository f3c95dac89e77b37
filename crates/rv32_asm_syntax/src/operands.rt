// Operands: the texts between commas, and what they give an instruction.

ghost use Rattle.rv32_asm_syntax.specs.Parts.{comma_parts, operands_left, two};
ghost use Rattle.rv32_asm_syntax.specs.Reading as spec;
ghost use Rattle.rv32_asm_syntax.specs.Seen.{seen_expression, seen_expressions, seen_instruction, seen_memory_operand, seen_operand};
ghost use Rattle.std.specs.Prelude.{IfOk, IfSome, map, option_map, ◌<◌, ◌∷◌, ◌≡◌};

use crate::characters::{len_before, trim_blanks};
use crate::expressions::expression_of;
use crate::keywords::Operand;
use crate::registers::register_of;
use crate::statements::{Expression, Immediate, Instruction};
use sec_base::NoMemory;
use std::alloc::Global;

/// The two operands that a text has.
#[tactic(auto, using(crate::proofs::Commas::too_many))]
pub fn two_operands(text: &[u8]) -> Option<(&[u8], &[u8])>
    ensures { option_map (λ both. (both.0.now, both.1.now)) result
        ≡ two (spec.operands_of text.now) }
{
    let (first, rest) = first_operand(operands_of(text)?);
    let (second, rest) = first_operand(rest?);
    match rest {
        Some(_) => None,
        None => Some((first, second)),
    }
}

/// The text of the operands, where there are some.
#[tactic(auto, using(crate::proofs::Commas::none_there, crate::proofs::Commas::some_there))]
pub fn operands_of(text: &[u8]) -> Option<&[u8]>
    ensures { operands_left result ≡ spec.operands_of text.now }
{
    if text.is_empty() { None } else { Some(text) }
}

/// An instruction with the fields that the texts of its operands give, of which there are as many as it takes.
#[tactic(auto, using(crate::proofs::Commas::too_few_given, crate::proofs::Commas::too_many_given))]
pub fn with_operands<'a>(
    operands: &[Operand],
    texts: Option<&'a [u8]>,
    instruction: Instruction<'a>,
) -> Option<Instruction<'a>>
    ensures { option_map seen_instruction result
        ≡ spec.with_operands (map seen_operand operands.now) (operands_left texts.entry)
        (seen_instruction instruction.entry) }
{
    let mut left = texts;
    let mut given = instruction;
    for operand in operands {
        let (text, rest) = first_operand(left?);
        given = with_operand(*operand, text, given)?;
        left = rest;
    }
    match left {
        Some(_) => None,
        None => Some(given),
    }
}

// An instruction with the field that the text of an operand gives.
fn with_operand<'a>(
    operand: Operand,
    text: &'a [u8],
    instruction: Instruction<'a>,
) -> Option<Instruction<'a>>
    ensures { option_map seen_instruction result
        ≡ spec.with_operand (seen_operand operand) text.now (seen_instruction instruction.entry) }
{
    let mut given = instruction;
    match operand {
        Operand::Rd => given.rd = register_of(text)?,
        Operand::Rs1 => given.rs1 = register_of(text)?,
        Operand::Rs2 => given.rs2 = register_of(text)?,
        Operand::Value => given.immediate = Immediate::Whole(expression_of(text)?),
        Operand::Memory => {
            let (offset, base) = memory_operand_of(text)?;
            given.immediate = Immediate::Whole(offset);
            given.rs1 = base;
        }
    }
    Some(given)
}

/// A memory operand: an offset, and a register in parentheses.
pub fn memory_operand_of(text: &[u8]) -> Option<(Expression<'_>, u8)>
    ensures value { option_map seen_memory_operand result ≡ spec.memory_operand_of text.now }
    ensures register { IfSome result (λ given. given.1 < 32) }
{
    let len = len_before(b'(', text);
    if len == text.len() {
        return None;
    }
    let offset = offset_of(trim_blanks(&text[..len]))?;
    let base = enclosed_register(&text[len + 1..])?;
    Some((offset, base))
}

// What stands before the parentheses of a memory operand, where nothing is 0.
fn offset_of(text: &[u8]) -> Option<Expression<'_>>
    ensures { option_map seen_expression result ≡ spec.offset_of text.now }
{
    if text.is_empty() {
        return Some(Expression::number_alone(0));
    }
    expression_of(text)
}

// The register whose name the right parenthesis ends.
fn enclosed_register(text: &[u8]) -> Option<u8>
    ensures value { result ≡ spec.enclosed_register text.now }
    ensures register { IfSome result (λ number. number < 32) }
{
    register_of(trim_blanks(text.strip_suffix(b")")?))
}

/// The expressions that operands are.
pub fn expressions_of<'a>(
    alloc: Global,
    operands: Option<&'a [u8]>,
) -> Result<Option<Vec<Expression<'a>>>, NoMemory>
    ensures { IfOk result (λ values. option_map (λ each. seen_expressions each.items) values
        ≡ spec.expressions_of (operands_left operands.entry)) }
{
    let mut values = Vec::new(alloc);
    let mut left = operands;
    while let Some(text) = left {
        let (operand, rest) = first_operand(text);
        let Some(value) = expression_of(operand) else {
            return Ok(None);
        };
        values.push(value)?;
        left = rest;
    }
    Ok(Some(values))
}

/// The first operand of a text, and what is left of it behind the comma that ends the operand.
#[tactic(auto, using(std::proofs::lemmas::List::take_rest, crate::proofs::Commas::cut, crate::proofs::Commas::last))]
pub fn first_operand(text: &[u8]) -> (&[u8], Option<&[u8]>)
    ensures { comma_parts text.now ≡ result.0.now ∷ operands_left result.1 }
{
    let len = len_before(b',', text);
    if len < text.len() {
        (trim_blanks(&text[..len]), Some(&text[len + 1..]))
    } else {
        (trim_blanks(text), None)
    }
}
