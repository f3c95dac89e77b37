// The bytes of statements.

ghost use Rattle.rv32_asm.specs.Emission as parts;
ghost use Rattle.rv32_asm.specs.Emission.{with_more};
ghost use Rattle.rv32_asm.specs.Encoding as spec;
ghost use Rattle.rv32_asm.specs.Layout as layout_spec;
ghost use Rattle.rv32_asm.specs.Passes as passes;
ghost use Rattle.rv32_asm.specs.Values as values_spec;
ghost use Rattle.rv32_asm_syntax.specs.Seen.{seen_expressions, seen_instructions, seen_statement};
ghost use Rattle.rv32_asm_syntax.specs.Statements as meant;
ghost use Rattle.rv32_asm_syntax.specs.declared.fault.AsmFault.{AsmFault};
ghost use Rattle.rv32_asm_syntax.specs.declared.fault.LineError.TheVariants.{Fault};
ghost use Rattle.std.specs.Int.{to_le_bytes, w32};
ghost use Rattle.std.specs.List.{list_any};
ghost use Rattle.std.specs.Prelude.{Err, Ok, OnOk, false, length, replicate, ◌*◌, ◌++◌, ◌+◌, ◌<◌, ◌^◌, ◌≡◌};

use crate::labels::Labels;
use crate::{encoding, layout, values};
use rv32_asm_syntax::{AsmFault, Expression, Instruction, LineError, Statement};
use sec_base::{NoMemory, Width};

/// Adds the bytes of a statement that may stand where the bytes end.
pub fn emit(bytes: &mut Vec<u8>, labels: &Labels, statement: &Statement) -> Result<(), LineError>
    requires placed { layout_spec.is_misplaced (length bytes.old.items)
        (seen_statement statement.now) ≡ false }
    requires room { length bytes.old.items + layout_spec.size_at (length bytes.old.items)
        (seen_statement statement.now) < 2 ^ 32 }
    ensures ok { OnOk result (with_more bytes.old.items
        (passes.statement_bytes labels.now (length bytes.old.items) (seen_statement statement.now))
        ≡ Ok bytes.new.items) }
    ensures refused { (fault : AsmFault) → result ≡ Err (Fault fault) →
        passes.statement_bytes labels.now (length bytes.old.items) (seen_statement statement.now)
        ≡ Err fault }
{
    if misses_label(labels, statement) {
        return Err(LineError::Fault(AsmFault::Missing));
    }
    put_statement(bytes, labels, statement)
}

// Whether a statement names a label that isn't there.
#[tactic(auto, unfolding(crate::specs::Encoding::misses_label))]
fn misses_label(labels: &Labels, statement: &Statement) -> bool
    ensures { result ≡ spec.misses_label labels.now (seen_statement statement.now) }
{
    match statement {
        Statement::Instructions(instructions) => code_misses_label(labels, instructions),
        Statement::Data(_, values) => data_misses_label(labels, values),
        _ => false,
    }
}

// Whether one of the instructions names a label that isn't there.
fn code_misses_label(labels: &Labels, instructions: &[Instruction]) -> bool
    ensures { let statement = meant.Instructions (seen_instructions instructions.now) in
        result ≡ list_any (values_spec.is_missing labels.now) (spec.expressions_in statement) }
{
    for instruction in instructions {
        if values::is_missing(labels, &values::expression_in(&instruction.immediate)) {
            return true;
        }
    }
    false
}

// Whether one of the expressions names a label that isn't there.
fn data_misses_label(labels: &Labels, expressions: &[Expression]) -> bool
    ensures { result ≡ list_any (values_spec.is_missing labels.now)
        (seen_expressions expressions.now) }
{
    for expression in expressions {
        if values::is_missing(labels, expression) {
            return true;
        }
    }
    false
}

// Adds the bytes of a statement whose labels are there, as long as its values are in their ranges.
#[tactic(auto, unfolding(crate::specs::Emission::ranged_bytes, crate::specs::Emission::ranged_code, crate::specs::Emission::ranged_data, crate::specs::Encoding::is_in_range, crate::specs::Encoding::encoded_bytes, crate::specs::Layout::size_at, crate::specs::Layout::is_misplaced))]
fn put_statement(
    bytes: &mut Vec<u8>,
    labels: &Labels,
    statement: &Statement,
) -> Result<(), LineError>
    requires placed { layout_spec.is_misplaced (length bytes.old.items)
        (seen_statement statement.now) ≡ false }
    requires room { length bytes.old.items + layout_spec.size_at (length bytes.old.items)
        (seen_statement statement.now) < 2 ^ 32 }
    ensures ok { OnOk result (with_more bytes.old.items
        (parts.ranged_bytes labels.now (length bytes.old.items) (seen_statement statement.now))
        ≡ Ok bytes.new.items) }
    ensures refused { (fault : AsmFault) → result ≡ Err (Fault fault) →
        parts.ranged_bytes labels.now (length bytes.old.items) (seen_statement statement.now)
        ≡ Err fault }
{
    match statement {
        Statement::Instructions(instructions) => put_code(bytes, labels, instructions)?,
        Statement::Data(width, values) => put_data(bytes, labels, *width, values)?,
        Statement::Bytes(more) => put_bytes(bytes, more)?,
        Statement::Zeros(number) => put_zeros(bytes, number.unsigned_abs() as usize)?,
        Statement::Aligned(number) => {
            let address = bytes.len() as u32;
            let count = layout::padding(address, number.unsigned_abs());
            put_zeros(bytes, count as usize)?
        }
        Statement::Nothing => {}
    }
    Ok(())
}

// Adds the bytes of instructions, as long as their values are in their ranges.
fn put_code(
    bytes: &mut Vec<u8>,
    labels: &Labels,
    instructions: &[Instruction],
) -> Result<(), LineError>
    requires { length bytes.old.items + 4 * length instructions.now < 2 ^ 32 }
    ensures ok { OnOk result (with_more bytes.old.items
        (parts.ranged_code labels.now (length bytes.old.items) (seen_instructions instructions.now))
        ≡ Ok bytes.new.items) }
    ensures refused { (fault : AsmFault) → result ≡ Err (Fault fault) →
        parts.ranged_code labels.now (length bytes.old.items) (seen_instructions instructions.now)
        ≡ Err fault }
{
    for instruction in instructions {
        match encoding::word_at(labels, bytes.len() as u32, instruction) {
            Some(word) => put_word(bytes, word)?,
            None => return Err(LineError::Fault(AsmFault::Range)),
        }
    }
    Ok(())
}

// Adds the bytes of values, as long as they are in their range.
fn put_data(
    bytes: &mut Vec<u8>,
    labels: &Labels,
    width: Width,
    expressions: &[Expression],
) -> Result<(), LineError>
    ensures ok { OnOk result (with_more bytes.old.items
        (parts.ranged_data labels.now width (seen_expressions expressions.now))
        ≡ Ok bytes.new.items) }
    ensures refused { (fault : AsmFault) → result ≡ Err (Fault fault) →
        parts.ranged_data labels.now width (seen_expressions expressions.now) ≡ Err fault }
{
    for expression in expressions {
        let value = values::value_of(labels, expression);
        if !fits_width(width, value) {
            return Err(LineError::Fault(AsmFault::Range));
        }
        put_number(bytes, width, value)?;
    }
    Ok(())
}

// Whether a value has a number of this width, with or without a sign.
fn fits_width(width: Width, value: i64) -> bool
    ensures { result ≡ spec.fits_width width value }
{
    match width {
        Width::One => (-128..=255).contains(&value),
        Width::Two => (-0x8000..=0xffff).contains(&value),
        Width::Four => (-0x8000_0000..=0xffff_ffff).contains(&value),
    }
}

// Adds the bytes of a number, the lowest first.
fn put_number(bytes: &mut Vec<u8>, width: Width, value: i64) -> Result<(), NoMemory>
    ensures { OnOk result (bytes.new.items ≡ bytes.old.items ++ spec.value_bytes width value) }
{
    match width {
        Width::One => bytes.push(value.rem_euclid(1 << 8) as u8)?,
        Width::Two => {
            let half = value.rem_euclid(1 << 16) as u16;
            bytes.extend_from_slice(&half.to_le_bytes())?
        }
        Width::Four => put_word(bytes, values::word_of(value))?,
    }
    Ok(())
}

// Adds the bytes of a word.
fn put_word(bytes: &mut Vec<u8>, word: u32) -> Result<(), NoMemory>
    ensures { OnOk result (bytes.new.items ≡ bytes.old.items ++ to_le_bytes w32 word) }
{
    bytes.extend_from_slice(&word.to_le_bytes())?;
    Ok(())
}

// Adds bytes.
fn put_bytes(bytes: &mut Vec<u8>, more: &[u8]) -> Result<(), NoMemory>
    ensures { OnOk result (bytes.new.items ≡ bytes.old.items ++ more.now) }
{
    bytes.extend_from_slice(more)?;
    Ok(())
}

// Adds so many zeros.
fn put_zeros(bytes: &mut Vec<u8>, count: usize) -> Result<(), NoMemory>
    requires { length bytes.old.items + count < 2 ^ 32 }
    ensures { OnOk result (bytes.new.items ≡ bytes.old.items ++ replicate count 0) }
{
    bytes.resize(bytes.len() + count, 0)?;
    Ok(())
}
