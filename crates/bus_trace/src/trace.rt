// What is told of a run.
use crate::entries::Entries;
use sec_base::Bytes;

/// What a run printed, how it ended, and what its bus was asked and answered.
#[derive(Debug, Drop)]
pub struct Trace {
    /// What the run printed.
    pub output: Bytes,
    /// The number of its ending: 0 halted, 1 trapped, 4 out of steps, 5 tampered and 6 spent, as reports have it. No other
    /// ending makes a trace.
    pub ending: u8,
    /// The code of its ending, as reports have it.
    pub code: u32,
    /// How many instructions were retired.
    pub retired: u64,
    /// The accesses of the bus that were answered, in order.
    pub entries: Entries,
}
