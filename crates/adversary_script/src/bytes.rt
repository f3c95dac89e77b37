// Bytes, which are hexadecimal digits, two each.

ghost use Rattle.adversary_script.specs.Parts.{byte_of, with_left};
ghost use Rattle.adversary_script.specs.Reading as spec;
ghost use Rattle.adversary_script.specs.Reading.{as_array, fitting, hex_bytes};
ghost use Rattle.std.specs.Prelude.{IfOk, IfSome, length, option_and_then, option_map, ◌<◌, ◌≡◌, ◌≤◌};

use crate::fault::ScriptFault;
use crate::script::PlaceBytes;
use crate::words::Words;
use arrayvec::ArrayVec;

/// Bytes, one at least, for which there is room.
pub fn bytes_within(words: &mut Words, room: usize) -> Result<PlaceBytes, ScriptFault>
    requires { room ≤ 80 }
    ensures value { with_left result words.new ≡ spec.bytes_within room words.old }
    ensures inside { IfOk result (λ bytes. (0 < length bytes.items) × (length bytes.items ≤ room)) }
{
    match fitting_bytes(words.word()?, room) {
        Some(bytes) => Ok(bytes),
        None => Err(ScriptFault::Span),
    }
}

/// So many bytes.
pub fn bytes_of_len(words: &mut Words, len: usize) -> Result<PlaceBytes, ScriptFault>
    requires { len ≤ 80 }
    ensures value { with_left result words.new ≡ spec.bytes_of_len len words.old }
    ensures whole { IfOk result (λ bytes. length bytes.items ≡ len) }
{
    let bytes = bytes_within(words, len)?;
    if bytes.len() == len {
        Ok(bytes)
    } else {
        Err(ScriptFault::Span)
    }
}

// The bytes that digits write, one at least, for which there is room.
fn fitting_bytes(digits: &[u8], room: usize) -> Option<PlaceBytes>
    requires { room ≤ 80 }
    ensures value { result
        ≡ option_map as_array (option_and_then (fitting room) (hex_bytes digits.now)) }
    ensures inside { IfSome result (λ bytes. (0 < length bytes.items)
        × (length bytes.items ≤ room)) }
{
    if digits.is_empty() || digits.len() > 2 * room {
        return None;
    }
    bytes_of(digits)
}

// The bytes that digits write, which are no more than a place has.
fn bytes_of(digits: &[u8]) -> Option<PlaceBytes>
    requires { length digits.now ≤ 160 }
    ensures { result ≡ option_map as_array (hex_bytes digits.now) }
{
    let mut bytes = ArrayVec::new();
    let mut at = 0;
    while at + 1 < digits.len() {
        bytes.push(byte_of(digits[at], digits[at + 1])?);
        at += 2;
    }
    if at == digits.len() {
        Some(bytes)
    } else {
        None
    }
}

// The byte that two digits write.
fn byte_of(high: u8, low: u8) -> Option<u8>
    ensures { result ≡ byte_of high low }
{
    let high = char::from(high).to_digit(16)?;
    let low = char::from(low).to_digit(16)?;
    Some((16 * high + low) as u8)
}
