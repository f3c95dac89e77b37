// The entries of a trace.
use sec_base::Sealed;

/// An access of a bus that was answered: a read with the bytes of its answer, or a write with those that were put.
#[derive(Clone, Copy, Debug, PartialEq, Eq)]
pub enum Entry {
    ReadLine {
        line: u32,
        sealed: Sealed,
    },
    WriteLine {
        line: u32,
        sealed: Sealed,
    },
    ReadNode {
        level: u8,
        index: u32,
        block: [u8; 64],
    },
    WriteNode {
        level: u8,
        index: u32,
        block: [u8; 64],
    },
}
