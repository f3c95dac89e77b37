// Reports as texts.
ghost use Rattle.attest_report.specs.Refusal.{digits_refusal};
ghost use Rattle.attest_report.specs.Text.{IsTextOf, without_line_feed};
ghost use Rattle.hex.specs.Hex.{decode_of, encode_lower};
ghost use Rattle.std.specs.Prelude.{IfOk, Ok, ◌≡◌, ◌*◌, ◌<◌, ◌⊎◌, length};
ghost use Rattle.std.specs.Result.{result_err};

use crate::refusal::ReportError;
use hex::FromHex;
use sec_base::{Bytes, NoMemory};
use std::alloc::Global;

/// The text of the bytes of version 1: 316 lower-case digits. Fails only if out of memory.
pub fn write_report(alloc: Global, bytes: &[u8; 158]) -> Result<Bytes, NoMemory>
    ensures digits { IfOk result (λ text. text ≡ encode_lower bytes.now) }
    ensures read_back { IfOk result (λ text. IsTextOf bytes.now text) }
{
    digits_text(alloc, bytes)
}

/// The text of the bytes of version 2: 318 lower-case digits. Fails only if out of memory.
pub fn write_report2(alloc: Global, bytes: &[u8; 159]) -> Result<Bytes, NoMemory>
    ensures digits { IfOk result (λ text. text ≡ encode_lower bytes.now) }
    ensures read_back { IfOk result (λ text. IsTextOf bytes.now text) }
{
    digits_text(alloc, bytes)
}

// The digits of some bytes.
fn digits_text(alloc: Global, bytes: &[u8]) -> Result<Bytes, NoMemory>
    requires { 0 < length bytes.now }
    ensures digits { IfOk result (λ text. text ≡ encode_lower bytes.now) }
    ensures read_back { IfOk result (λ text. IsTextOf bytes.now text) }
{
    let digits = hex::encode(alloc, bytes)?;
    Ok(Bytes::from_vec(digits.into_bytes()))
}

/// A text without the line feed at its end, if there is one.
#[tactic(auto, unfolding(crate::specs::Text::without_line_feed))]
pub(crate) fn without_line_feed(text: &[u8]) -> &[u8]
    ensures { result.now ≡ without_line_feed text.now }
{
    if text.ends_with(b"\n") {
        &text[..text.len() - 1]
    } else {
        text
    }
}

/// The bytes of a report's digits, of either case.
#[tactic(auto, unfolding(crate::specs::Refusal::digits_refusal))]
pub(crate) fn read_digits<const N: usize>(digits: &[u8]) -> Result<[u8; N], ReportError>
    requires report { (N ≡ 158) ⊎ (N ≡ 159) }
    requires long { length digits.now ≡ 2 * N }
    ensures read { IfOk result (λ bytes. decode_of digits.now ≡ Ok bytes) }
    ensures refused { result_err result ≡ digits_refusal digits.now }
{
    <[u8; N] as FromHex>::from_hex(digits).map_err(|_| ReportError::Digit)
}
