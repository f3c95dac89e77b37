// Whether a text is a report that was made under a key.
ghost use Rattle.attest_report.specs.Refusal as spec;
ghost use Rattle.attest_report.specs.Refusal.{bytes_refusal, first_refusal, has_version};
ghost use Rattle.attest_report.specs.Report.{IsReport, bytes_by_version, head_bytes};
ghost use Rattle.attest_report.specs.Text.{IsTextOf};
ghost use Rattle.attest_report.specs.declared.refusal.ReportError.TheVariants.{Version};
ghost use Rattle.attest_report.specs.declared.report.Signed.{Signed};
ghost use Rattle.std.specs.Prelude.{IfOk, IsTrue, None, Some, ◌+◌, ◌++◌, ◌-◌, ◌↔◌, ◌≡◌, ◌≤◌, ◌⊎◌, drop, if◌then◌else◌, length};
ghost use Rattle.std.specs.Result.{result_err};

use crate::refusal::ReportError;
use crate::report::{
    FIELDS_LEN, REPORT_LEN, REPORT2_LEN, Signed, TAG_LEN, VERSION, VERSION2, field, report_of,
};
use crate::text::{read_digits, without_line_feed};
use hmac_tag::hmac;
use sec_base::Layout;

// How many digits a report of version 1 has, and one of version 2.
const DIGITS_LEN: usize = 2 * REPORT_LEN;

const DIGITS2_LEN: usize = 2 * REPORT2_LEN;

/// The report of a text and the layout that it names, which takes no memory: Ok exactly where the text is the digits, of
/// either case, of that report's bytes under the key, with a line feed at the end or without; and else the first refusal
/// that holds. A report of version 1 names no layout.
pub fn verify(text: &[u8], key: &[u8; 32]) -> Result<Signed, ReportError>
    ensures made { IfOk result (λ signed.
        IsReport signed.report
        × IsTextOf (bytes_by_version signed.report signed.layout key.now) text.now) }
    ensures taken { (signed : Signed) → IsReport signed.report →
        IsTextOf (bytes_by_version signed.report signed.layout key.now) text.now →
        result ≡ Ok signed }
    ensures refused { result_err result ≡ first_refusal text.now key.now }
{
    let digits = without_line_feed(text);
    match digits.len() {
        DIGITS_LEN => signed_in(&read_digits::<REPORT_LEN>(digits)?, key),
        DIGITS2_LEN => signed_in(&read_digits::<REPORT2_LEN>(digits)?, key),
        _ => Err(ReportError::Length),
    }
}

// What the bytes of a report say, or their first refusal that holds.
fn signed_in(bytes: &[u8], key: &[u8; 32]) -> Result<Signed, ReportError>
    requires { (length bytes.now ≡ REPORT_LEN) ⊎ (length bytes.now ≡ REPORT2_LEN) }
    ensures made { IfOk result (λ signed.
        IsReport signed.report
        × (bytes.now ≡ bytes_by_version signed.report signed.layout key.now)) }
    ensures refused { result_err result ≡ bytes_refusal bytes.now key.now }
{
    let layout = layout_in(bytes)?;
    if !is_signed(bytes, key) {
        return Err(ReportError::Tag);
    }
    let report = report_of(&field(bytes, bytes.len() - TAG_LEN - FIELDS_LEN));
    Ok(Signed { report, layout })
}

// The layout that the bytes of a report name, by their version.
#[tactic(auto, unfolding(crate::specs::Refusal::has_version))]
fn layout_in(bytes: &[u8]) -> Result<Option<Layout>, ReportError>
    requires { (length bytes.now ≡ REPORT_LEN) ⊎ (length bytes.now ≡ REPORT2_LEN) }
    ensures named { IfOk result (λ layout.
        bytes.now ≡ head_bytes layout ++ drop (length bytes.now - (FIELDS_LEN + TAG_LEN))
        bytes.now) }
    ensures refused { result_err result ≡ (if has_version bytes.now then None else Some Version) }
{
    match (bytes.len(), bytes[0], bytes[1]) {
        (REPORT_LEN, VERSION, _) => Ok(None),
        (REPORT2_LEN, VERSION2, 1) => Ok(Some(Layout::One)),
        (REPORT2_LEN, VERSION2, 2) => Ok(Some(Layout::Two)),
        _ => Err(ReportError::Version),
    }
}

// Whether the last bytes are the HMAC of those before them.
#[tactic(auto, unfolding(crate::specs::Refusal::is_signed))]
fn is_signed(bytes: &[u8], key: &[u8; 32]) -> bool
    requires { TAG_LEN ≤ length bytes.now }
    ensures { result ≡ spec.is_signed bytes.now key.now }
{
    let signed_len = bytes.len() - TAG_LEN;
    is_same(&hmac(key, &bytes[..signed_len]), &field(bytes, signed_len))
}

// Whether two tags are the same. All bytes are compared, also behind one that differs.
fn is_same(tag: &[u8; 32], other: &[u8; 32]) -> bool
    ensures { IsTrue result ↔ (tag.now ≡ other.now) }
{
    let mut same = true;
    for i in 0..32 {
        same &= tag[i] == other[i];
    }
    same
}
