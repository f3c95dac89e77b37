// What a call shows.
use crate::calls::Call;

/// What a call printed and told, without the line of a report at the end, and its status.
#[derive(Clone, Copy, Debug, PartialEq, Eq)]
pub struct Shown<'a> {
    printed: &'a [u8],
    told: &'a [u8],
    status: u8,
}

/// A call that printed and told this, and ended with this status.
pub fn shows<'a>(printed: &'a [u8], told: &'a [u8], status: u8) -> Shown<'a> {
    Shown {
        printed,
        told,
        status,
    }
}

impl Call {
    /// What the call shows.
    pub fn shown(&self) -> Shown<'_> {
        shows(
            self.out.bytes(),
            without_report(self.note.bytes()),
            self.done.status,
        )
    }

    /// Whether its words were no request.
    pub fn is_usage(&self) -> bool {
        let told = self.note.bytes();
        told.starts_with(b"usage\n") && self.out.bytes().is_empty() && self.done.status == 2
    }
}

/// A text without the line of a report at its end, which begins with `report ` and has 318 digits.
pub fn without_report(text: &[u8]) -> &[u8] {
    if text.len() < 326 {
        return text;
    }
    let (before, line) = text.split_at(text.len() - 326);
    if line.starts_with(b"report ") {
        before
    } else {
        text
    }
}
