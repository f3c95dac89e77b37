// What a judge says of a trace.

/// What of a trace comes first that can't be.
#[derive(Clone, Copy, Debug, PartialEq, Eq)]
pub enum Difference {
    /// The entry of this number, counted from 1, is the first false one, and the run did not end with it as tampered.
    Lie(u64),
    /// The program doesn't retire so many instructions, or they are more than the budget.
    Retired,
    /// The program doesn't print this with this retired count and this ending.
    Output,
    /// The run can't have ended so.
    Ending,
}

/// What a judge says of a trace.
#[derive(Clone, Copy, Debug, PartialEq, Eq)]
pub enum Verdict {
    /// Its reads are true, but for a last one that ended it as tampered, and the plain machine allows the rest.
    Follows,
    /// It differs from that, first so.
    No(Difference),
    /// The emulator itself is out of memory.
    NoMemory,
}
