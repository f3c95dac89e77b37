// The values of expressions, and of the immediates that stand for them.

ghost use Rattle.rv32_asm.specs.Values as spec;
ghost use Rattle.rv32_asm_syntax.specs.Seen.{seen_expression, seen_immediate, seen_name};
ghost use Rattle.std.specs.Prelude.{neg_ℤ, pos, ◌^◌, ◌≡◌, ◌≤ℤ◌};

use crate::labels::Labels;
use rv32_asm_syntax::{Expression, Immediate};

/// Whether an expression names a label that isn't there.
pub fn is_missing(labels: &Labels, value: &Expression) -> bool
    ensures { result ≡ spec.is_missing labels.now (seen_expression value.now) }
{
    match value.label {
        Some(name) => labels.get(name).is_none(),
        None => false,
    }
}

/// The value that stands for an immediate.
#[tactic(auto, unfolding(crate::specs::Values::immediate_value))]
pub fn immediate_value(labels: &Labels, immediate: &Immediate) -> i64
    ensures value { result ≡ spec.immediate_value labels.now (seen_immediate immediate.now) }
    ensures least { neg_ℤ (pos (2 ^ 33)) ≤ℤ result }
    ensures most { result ≤ℤ pos (2 ^ 33) }
{
    match immediate {
        Immediate::Whole(value) => value_of(labels, value),
        Immediate::Upper(value) => i64::from(upper_part(word_of(value_of(labels, value)))),
        Immediate::Lower(value) => lower_part(word_of(value_of(labels, value))),
    }
}

/// The value of an expression, where a label that isn't there counts 0.
#[tactic(auto, unfolding(crate::specs::Values::value_of))]
pub fn value_of(labels: &Labels, value: &Expression) -> i64
    ensures value { result ≡ spec.value_of labels.now (seen_expression value.now) }
    ensures least { neg_ℤ (pos (2 ^ 33)) ≤ℤ result }
    ensures most { result ≤ℤ pos (2 ^ 33) }
{
    i64::from(address_of(labels, value.label)) + value.number
}

// Where a label is, or 0 without one.
fn address_of(labels: &Labels, name: Option<&[u8]>) -> u32
    ensures { result ≡ spec.address_of labels.now (seen_name name.entry) }
{
    match name {
        Some(name) => match labels.get(name) {
            Some(site) => site.address,
            None => 0,
        },
        None => 0,
    }
}

// The upper twenty bits of a word, to which the lower part is added.
fn upper_part(word: u32) -> u32
    ensures { result ≡ spec.upper_part word }
{
    word.wrapping_add(0x800) >> 12
}

/// A value modulo 2^32.
pub fn word_of(value: i64) -> u32
    ensures { result ≡ spec.modulo 32 value }
{
    value.rem_euclid(1 << 32) as u32
}

// The lower twelve bits of a word, as a number with a sign.
fn lower_part(word: u32) -> i64
    ensures value { result ≡ spec.lower_part word }
    ensures least { neg_ℤ (pos (2 ^ 33)) ≤ℤ result }
    ensures most { result ≤ℤ pos (2 ^ 33) }
{
    let low = i64::from(word % 0x1000);
    if low < 0x800 { low } else { low - 0x1000 }
}

/// The expression whose value, or a part of it, is an immediate.
pub fn expression_in<'a>(immediate: &Immediate<'a>) -> Expression<'a>
    ensures { seen_expression result ≡ spec.expression_in (seen_immediate immediate.now) }
{
    match *immediate {
        Immediate::Whole(value) | Immediate::Upper(value) | Immediate::Lower(value) => value,
    }
}
