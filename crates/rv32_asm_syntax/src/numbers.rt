// Numbers of an assembly text.

ghost use Rattle.rv32_asm_syntax.specs.Numbers as spec;
ghost use Rattle.rv32_asm_syntax.specs.Numbers.{in_range};
ghost use Rattle.rv32_asm_syntax.specs.Parts as parts;
ghost use Rattle.rv32_asm_syntax.specs.Parts.{as_word};
ghost use Rattle.std.specs.Prelude.{IfSome, neg_ℤ, option_and_then, option_map, pos, ◌-◌, ◌^◌, ◌≡◌, ◌≤ℤ◌, ◌≤◌};

/// The number that a text is.
#[tactic(auto, unfolding(crate::specs::Numbers::number_of))]
pub fn number_of(text: &[u8]) -> Option<i64>
    ensures value { result ≡ spec.number_of text.now }
    ensures least { IfSome result (λ number. neg_ℤ (pos (2 ^ 31)) ≤ℤ number) }
    ensures most { IfSome result (λ number. number ≤ℤ pos (2 ^ 32 - 1)) }
{
    if let Some(digits) = text.strip_prefix(b"0x") {
        unsigned_number(16, digits)
    } else if let Some(digits) = text.strip_prefix(b"-") {
        negated(digits)
    } else {
        unsigned_number(10, text)
    }
}

// The number that one digit or more write, where it is in the range of numbers.
fn unsigned_number(base: u32, digits: &[u8]) -> Option<i64>
    requires low { 2 ≤ base }
    requires high { base ≤ 16 }
    ensures { result ≡ option_and_then in_range (option_map pos (spec.natural_of base digits.now)) }
{
    match word_from(base, digits) {
        Some(number) => Some(i64::from(number)),
        None => None,
    }
}

// The number below 0 that one digit or more write, where it is in the range of numbers.
#[tactic(auto, using(crate::proofs::Digits::negated_some, crate::proofs::Digits::negated_none, crate::proofs::Digits::negated_large))]
fn negated(digits: &[u8]) -> Option<i64>
    ensures { result ≡ option_and_then in_range
        (option_map (λ n. neg_ℤ (pos n)) (spec.natural_of 10 digits.now)) }
{
    match word_from(10, digits) {
        Some(number) => {
            if number > 1 << 31 {
                None
            } else {
                Some(-i64::from(number))
            }
        }
        None => None,
    }
}

// The number that one digit or more write, where 32 bits hold it.
fn word_from(base: u32, digits: &[u8]) -> Option<u32>
    requires low { 2 ≤ base }
    requires high { base ≤ 16 }
    ensures { result ≡ option_and_then as_word (spec.natural_of base digits.now) }
{
    if digits.is_empty() {
        return None;
    }
    let mut number: u32 = 0;
    for digit in digits {
        match with_digit(base, number, *digit) {
            Some(more) => number = more,
            None => return None,
        }
    }
    Some(number)
}

// The number that one more digit makes, where 32 bits hold it.
fn with_digit(base: u32, number: u32, digit: u8) -> Option<u32>
    requires low { 2 ≤ base }
    requires high { base ≤ 16 }
    ensures { result ≡ parts.with_digit base number digit }
{
    let value = char::from(digit).to_digit(base)?;
    number.checked_mul(base)?.checked_add(value)
}
