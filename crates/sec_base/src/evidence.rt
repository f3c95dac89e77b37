// What a run returns where tampering passed its check.
use crate::counter::Counter;
use crate::sealed::Sealed;

/// What passed a check of its tag though the tag was never given to it.
#[derive(Clone, Copy, Debug, PartialEq, Eq)]
pub enum Evidence {
    /// `sealed` has the tag of its line, its counter and its 64 bytes, and that message is none of the first
    /// `made_count` that were tagged.
    Forgery {
        line: u32,
        counter: Counter,
        sealed: Sealed,
        made_count: u64,
    },
    /// The block of this node that was tagged at place `made_at` and the block `accepted` differ, and both have
    /// the tag.
    Collision {
        level: u8,
        index: u32,
        made_at: u64,
        accepted: [u8; 64],
        tag: [u8; 16],
    },
}
