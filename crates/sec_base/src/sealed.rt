// A line as it stands outside the chip.

/// The bytes of a tag.
pub const TAG_LEN: usize = 16;

/// A data line as it stands outside the chip: its 64 bytes as they were written there, and their tag.
#[derive(Clone, Copy, Debug, PartialEq, Eq)]
pub struct Sealed {
    pub cipher: [u8; 64],
    pub tag: [u8; 16],
}
