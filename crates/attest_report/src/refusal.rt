// Why a text is no report.
ghost use Rattle.attest_report.specs.Refusal.{report_error_code, report_error_name};
ghost use Rattle.std.specs.Prelude.{◌≡◌};

use thiserror::Error;

/// Why a text is refused, in the order in which it is tested. Shown as its name.
#[derive(Clone, Copy, Debug, PartialEq, Eq, Error)]
pub enum ReportError {
    /// Without a line feed at its end it has neither 316 bytes nor 318.
    #[error("Length")]
    Length = 1,
    /// One of them is no digit.
    #[error("Digit")]
    Digit = 2,
    /// Of 316 digits the first byte isn't 01, or of 318 the first two aren't 02 and a layout's number.
    #[error("Version")]
    Version = 3,
    /// Its tag isn't the HMAC of the bytes before it under this key.
    #[error("Tag")]
    Tag = 4,
}

impl ReportError {
    /// The number, from 1 to 4.
    pub fn code(self) -> u8
        ensures { result ≡ report_error_code self }
    {
        self as u8
    }

    /// The name, as it is written here.
    pub fn name(self) -> &'static str
        ensures { result.now ≡ report_error_name self }
    {
        match self {
            ReportError::Length => "Length",
            ReportError::Digit => "Digit",
            ReportError::Version => "Version",
            ReportError::Tag => "Tag",
        }
    }
}
