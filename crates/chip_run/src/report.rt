// The report of a run.
ghost use Rattle.std.specs.Prelude.{◌≡◌};
ghost use Rattle.chip_run.specs.Report as told;

use crate::record::Setup;
use attest_report::{Report, ending_and_code, report2_bytes};
use sec_base::Ending;
use sha2::{Digest, Sha256};

// The signed report of a run of a program with this measurement whose output has this digest, that retired so many instructions and ended so, where its
// ending makes one.
pub(crate) fn signed_report(
    measured: [u8; 32],
    input: &[u8],
    setup: &Setup,
    output_digest: [u8; 32],
    retired: u64,
    ending: Ending,
) -> Option<[u8; 159]>
    ensures { result ≡ told.signed_report (record {
      measurement = measured;
      input = input.now;
      nonce = setup.now.nonce;
      layout = setup.now.geometry.layout;
      report_key = setup.now.keys.report_key;
    }) output_digest retired ending }
{
    let (ending, code) = ending_and_code(ending)?;
    let report = Report {
        measurement: measured,
        input_digest: Sha256::digest(input),
        output_digest,
        retired,
        ending,
        code,
        nonce: setup.nonce,
    };
    let layout = setup.geometry.layout();
    Some(report2_bytes(&report, layout, &setup.keys.report_key))
}
