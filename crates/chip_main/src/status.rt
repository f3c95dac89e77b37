// The status of the process.
ghost use Rattle.std.specs.Prelude.{◌≡◌};
ghost use Rattle.chip_main.specs.Status.{code_of};

/// The status of the process.
#[derive(Clone, Copy, Debug, PartialEq, Eq)]
pub enum Status {
    /// A program halted, or both of two did, a text was written, or a trace follows.
    Done = 0,
    /// A program trapped.
    Trapped = 1,
    /// The words are no request.
    Usage = 2,
    /// A file is too long or doesn't have its form.
    Refused = 3,
    /// The budget of instructions is used up.
    OutOfSteps = 4,
    /// What was read from outside is not what was written there.
    Tampered = 5,
    /// The counters of a page are used up.
    Spent = 6,
    /// There is evidence of a false answer.
    Evidence = 7,
    /// A file could not be read.
    ReadFault = 8,
    /// Something could not be written.
    WriteFault = 9,
    /// Out of memory.
    NoMemory = 10,
    /// A report was not made by this device.
    TagDiffers = 11,
    /// A trace differs.
    JudgedNo = 13,
}

impl Status {
    /// The number, from 0 to 13. No status has 12.
    pub fn code(self) -> u8
        ensures { result ≡ code_of self }
    {
        self as u8
    }
}
