// What a report says, and the bytes that say it.
ghost use Rattle.attest_report.specs.Report as spec;
ghost use Rattle.attest_report.specs.Report.{IsReport, field_bytes, signed_bytes, signed2_bytes};
ghost use Rattle.std.specs.Prelude.{◌≡◌, ◌+◌, ◌≤◌, drop, length, take};

use crate::layout::layout_number;
use hmac_tag::hmac;
use sec_base::{Layout, put};

/// What a run was.
#[derive(Clone, Copy, Debug, PartialEq, Eq)]
pub struct Report {
    /// The SHA-256 of the program's record.
    pub measurement: [u8; 32],
    /// The SHA-256 of the whole input.
    pub input_digest: [u8; 32],
    /// The SHA-256 of the output that the sink took.
    pub output_digest: [u8; 32],
    /// How many instructions were retired.
    pub retired: u64,
    /// The number of its ending, by `ending_and_code`.
    pub ending: u8,
    /// The code of its ending, by `ending_and_code`.
    pub code: u32,
    /// Chosen by the one who asks, so that no earlier report will do.
    pub nonce: [u8; 16],
}

/// A report as it was signed.
#[derive(Clone, Copy, Debug, PartialEq, Eq)]
pub struct Signed {
    /// What the run was.
    pub report: Report,
    /// The layout of the tree's nodes, which version 2 names and version 1 doesn't.
    pub layout: Option<Layout>,
}

/// The first byte of version 1.
pub(crate) const VERSION: u8 = 1;

/// The first byte of version 2.
pub(crate) const VERSION2: u8 = 2;

// Where each field begins, behind the version and the layout.
const MEASUREMENT_AT: usize = 0;

const INPUT_DIGEST_AT: usize = 32;

const OUTPUT_DIGEST_AT: usize = 64;

const RETIRED_AT: usize = 96;

const ENDING_AT: usize = 104;

const CODE_AT: usize = 105;

const NONCE_AT: usize = 109;

/// How many bytes the fields have.
pub(crate) const FIELDS_LEN: usize = 125;

// How many bytes each version signs; their HMAC begins here.
const SIGNED_LEN: usize = 126;

const SIGNED2_LEN: usize = 127;

/// How many bytes an HMAC has.
pub(crate) const TAG_LEN: usize = 32;

/// How many bytes a report of version 1 has.
pub(crate) const REPORT_LEN: usize = 158;

/// How many bytes a report of version 2 has.
pub(crate) const REPORT2_LEN: usize = 159;

/// The bytes of version 1: 01, the three digests, the retired count as u64, the ending, the code as u32, the lowest byte
/// first, the nonce, and the HMAC-SHA-256 of all these under the key.
#[tactic(auto, unfolding(crate::specs::Report::report_bytes))]
pub fn report_bytes(report: &Report, key: &[u8; 32]) -> [u8; 158]
    ensures { result ≡ spec.report_bytes report.now key.now }
{
    let signed = signed_bytes(report);
    let mut bytes = [0; REPORT_LEN];
    put(&mut bytes, 0, &signed);
    put(&mut bytes, SIGNED_LEN, &hmac(key, &signed));
    bytes
}

/// The bytes of version 2: 02, the number of the layout, the fields as in version 1, and the HMAC-SHA-256 of all these
/// under the key.
#[tactic(auto, unfolding(crate::specs::Report::report2_bytes))]
pub fn report2_bytes(report: &Report, layout: Layout, key: &[u8; 32]) -> [u8; 159]
    ensures { result ≡ spec.report2_bytes report.now layout key.now }
{
    let signed = signed2_bytes(report, layout);
    let mut bytes = [0; REPORT2_LEN];
    put(&mut bytes, 0, &signed);
    put(&mut bytes, SIGNED2_LEN, &hmac(key, &signed));
    bytes
}

// The bytes that version 1 signs.
fn signed_bytes(report: &Report) -> [u8; 126]
    ensures { result ≡ signed_bytes report.now }
{
    let mut bytes = [0; SIGNED_LEN];
    put(&mut bytes, 0, &[VERSION]);
    put(&mut bytes, 1, &field_bytes(report));
    bytes
}

// The bytes that version 2 signs.
fn signed2_bytes(report: &Report, layout: Layout) -> [u8; 127]
    ensures { result ≡ signed2_bytes report.now layout }
{
    let mut bytes = [0; SIGNED2_LEN];
    put(&mut bytes, 0, &[VERSION2, layout_number(layout)]);
    put(&mut bytes, 2, &field_bytes(report));
    bytes
}

// The bytes of the fields.
fn field_bytes(report: &Report) -> [u8; 125]
    ensures { result ≡ field_bytes report.now }
{
    let mut bytes = [0; FIELDS_LEN];
    put(&mut bytes, MEASUREMENT_AT, &report.measurement);
    put(&mut bytes, INPUT_DIGEST_AT, &report.input_digest);
    put(&mut bytes, OUTPUT_DIGEST_AT, &report.output_digest);
    put(&mut bytes, RETIRED_AT, &report.retired.to_le_bytes());
    put(&mut bytes, ENDING_AT, &[report.ending]);
    put(&mut bytes, CODE_AT, &report.code.to_le_bytes());
    put(&mut bytes, NONCE_AT, &report.nonce);
    bytes
}

/// The report of these fields.
pub(crate) fn report_of(fields: &[u8; 125]) -> Report
    ensures written_back { field_bytes result ≡ fields.now }
    ensures is_report { IsReport result }
{
    Report {
        measurement: field(fields, MEASUREMENT_AT),
        input_digest: field(fields, INPUT_DIGEST_AT),
        output_digest: field(fields, OUTPUT_DIGEST_AT),
        retired: u64::from_le_bytes(field(fields, RETIRED_AT)),
        ending: fields[ENDING_AT],
        code: u32::from_le_bytes(field(fields, CODE_AT)),
        nonce: field(fields, NONCE_AT),
    }
}

/// The bytes of a field.
pub(crate) fn field<const N: usize>(bytes: &[u8], at: usize) -> [u8; N]
    requires { at + N ≤ length bytes.now }
    ensures { result ≡ take N (drop at bytes.now) }
{
    let mut field = [0; N];
    field.copy_from_slice(&bytes[at..at + N]);
    field
}
