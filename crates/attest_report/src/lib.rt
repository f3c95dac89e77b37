//! Reports: what a run was, signed by the chip. A report is the bytes of its fields and an HMAC of them, and as a text
//! their digits. Version 2 names the layout of the tree's nodes too. `verify` reads such a text of either version, or
//! tells the first refusal of it that holds.
#![tactic(auto)]

mod ending;
mod layout;
mod refusal;
mod report;
mod text;
mod verification;

pub use ending::ending_and_code;
pub use layout::layout_number;
pub use refusal::ReportError;
pub use report::{Report, Signed, report_bytes, report2_bytes};
pub use text::{write_report, write_report2};
pub use verification::verify;
