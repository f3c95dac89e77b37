// The counter that a line is enciphered under.

/// The counter of a line: that of its page, and its own. Both at 0 is that of a line that was never written.
#[derive(Clone, Copy, Debug, PartialEq, Eq)]
pub struct Counter {
    pub page: u64,
    pub line: u8,
}
