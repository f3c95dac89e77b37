// Numbers, which are decimal, and registers.

ghost use Rattle.adversary_script.specs.Parts.{capped, capped_number, with_digit, with_left};
ghost use Rattle.adversary_script.specs.Reading as spec;
ghost use Rattle.rv32_asm_syntax.specs.Numbers.{natural_of};
ghost use Rattle.std.specs.Prelude.{IfOk, IfSome, option_map, ◌<◌, ◌^◌, ◌≡◌, ◌≤◌};

use crate::fault::ScriptFault;
use crate::words::Words;

// 2^64, which stands for itself and for all numbers above.
const CAP: u128 = 1 << 64;

/// A number from 1 to 2^64 - 1.
pub fn ordinal(words: &mut Words) -> Result<u64, ScriptFault>
    ensures { with_left result words.new ≡ spec.ordinal words.old }
{
    match number_below(words, CAP)? {
        0 => Err(ScriptFault::Number),
        number => Ok(number),
    }
}

/// A number below a limit.
pub fn number_below(words: &mut Words, limit: u128) -> Result<u64, ScriptFault>
    requires { limit ≤ 2 ^ 64 }
    ensures value { with_left result words.new ≡ spec.number_below limit words.old }
    ensures below { IfOk result (λ number. number < limit) }
{
    let number = capped_number(words)?;
    if number < limit {
        Ok(number as u64)
    } else {
        Err(ScriptFault::Number)
    }
}

/// The number of a register.
pub fn register(words: &mut Words) -> Result<u8, ScriptFault>
    ensures value { with_left result words.new ≡ spec.register words.old }
    ensures below { IfOk result (λ number. number < 16) }
{
    let number = capped_number(words)?;
    if number < 16 {
        Ok(number as u8)
    } else {
        Err(ScriptFault::Register)
    }
}

// A number, or 2^64 for all above.
fn capped_number(words: &mut Words) -> Result<u128, ScriptFault>
    ensures { with_left result words.new ≡ capped_number words.old }
{
    match number_of(words.word()?) {
        Some(number) => Ok(number),
        None => Err(ScriptFault::Number),
    }
}

// The number that one digit or more write, or 2^64 for all above.
fn number_of(digits: &[u8]) -> Option<u128>
    ensures { result ≡ option_map capped (natural_of 10 digits.now) }
{
    if digits.is_empty() {
        return None;
    }
    let mut number = 0;
    for digit in digits {
        match with_digit(number, *digit) {
            Some(more) => number = more,
            None => return None,
        }
    }
    Some(number)
}

// The number that one more digit makes, or 2^64 for all above.
fn with_digit(number: u128, digit: u8) -> Option<u128>
    requires { number ≤ 2 ^ 64 }
    ensures { result ≡ with_digit number digit }
{
    let value = char::from(digit).to_digit(10)?;
    Some(CAP.min(10 * number + u128::from(value)))
}
