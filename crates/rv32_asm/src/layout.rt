// Where statements may stand, and how many bytes they take there.

ghost use Rattle.rv32_asm.specs.Layout as spec;
ghost use Rattle.rv32_asm.specs.Passes as passes;
ghost use Rattle.rv32_asm_syntax.specs.Parts.{as_word};
ghost use Rattle.rv32_asm_syntax.specs.Seen.{seen_statement};
ghost use Rattle.std.specs.Prelude.{false, ◌*◌, ◌<◌, ◌≡◌};

use rv32_asm_syntax::{AsmFault, Statement};

/// The address behind a statement in a memory of a size, or what is wrong with its place.
pub fn address_after(size: u32, address: u32, statement: &Statement) -> Result<u32, AsmFault>
    ensures { result ≡ passes.address_after size address (seen_statement statement.now) }
{
    if is_misplaced(address, statement) {
        return Err(AsmFault::Range);
    }
    let Some(statement_size) = size_at(address, statement) else {
        return Err(AsmFault::Large);
    };
    let after = u64::from(address) + u64::from(statement_size);
    if after > u64::from(size) {
        return Err(AsmFault::Large);
    }
    Ok(after as u32)
}

/// Whether a statement may not stand at an address: its number is out of range, or it has instructions and the address
/// is no multiple of 4.
#[tactic(auto, unfolding(crate::specs::Layout::is_misplaced))]
pub fn is_misplaced(address: u32, statement: &Statement) -> bool
    ensures { result ≡ spec.is_misplaced address (seen_statement statement.now) }
{
    match statement {
        Statement::Instructions(_) => address % 4 != 0,
        Statement::Zeros(number) => !is_space(*number),
        Statement::Aligned(number) => !is_alignment(*number),
        _ => false,
    }
}

// Whether so many zeros can be asked for.
fn is_space(number: i64) -> bool
    ensures { result ≡ spec.is_space number }
{
    (0..=0x100_0000).contains(&number)
}

// Whether a number is a power of two from 1 to 4096.
fn is_alignment(number: i64) -> bool
    ensures { result ≡ spec.is_alignment number }
{
    (1..=4096).contains(&number) && number.unsigned_abs().is_power_of_two()
}

// How many bytes a statement takes at an address where it may stand, where 32 bits hold it.
#[tactic(auto, unfolding(crate::specs::Layout::is_misplaced, crate::specs::Layout::size_at))]
fn size_at(address: u32, statement: &Statement) -> Option<u32>
    requires { spec.is_misplaced address (seen_statement statement.now) ≡ false }
    ensures { result ≡ as_word (spec.size_at address (seen_statement statement.now)) }
{
    match statement {
        Statement::Instructions(instructions) => bytes_of(4, instructions.len()),
        Statement::Data(width, values) => bytes_of(width.bytes(), values.len()),
        Statement::Bytes(bytes) => bytes_of(1, bytes.len()),
        Statement::Zeros(number) => word_of(number.unsigned_abs()),
        Statement::Aligned(number) => word_of(padding(address, number.unsigned_abs())),
        Statement::Nothing => Some(0),
    }
}

// How many bytes so many parts have, where 32 bits hold it.
#[tactic(auto, using(crate::proofs::Sizes::too_many, crate::proofs::Sizes::told))]
fn bytes_of(part_bytes: u32, count: usize) -> Option<u32>
    requires { 0 < part_bytes }
    ensures { result ≡ as_word (part_bytes * count) }
{
    let count = u32::try_from(count).ok()?;
    part_bytes.checked_mul(count)
}

// A number of bytes, where 32 bits hold it.
fn word_of(number: u64) -> Option<u32>
    ensures { result ≡ as_word number }
{
    u32::try_from(number).ok()
}

/// How far it is to the next multiple of so many bytes.
pub fn padding(address: u32, alignment: u64) -> u64
    requires { 0 < alignment }
    ensures { result ≡ spec.padding address alignment }
{
    (alignment - u64::from(address) % alignment) % alignment
}
