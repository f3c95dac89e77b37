// Why the program times nothing.
use sec_base::{MemStop, NoMemory};
use std::io;

#[derive(Debug, Drop)]
pub(crate) enum Fault {
    /// The argument is no number of rounds, or there are several.
    Usage,
    /// The clock, the words or a stream failed.
    Outside(io::Error),
    /// A call was refused.
    Refused(MemStop),
}

impl From<io::Error> for Fault {
    fn from(error: io::Error) -> Self {
        Fault::Outside(error)
    }
}

impl From<MemStop> for Fault {
    fn from(stop: MemStop) -> Self {
        Fault::Refused(stop)
    }
}

impl From<NoMemory> for Fault {
    fn from(_: NoMemory) -> Self {
        Fault::Refused(MemStop::NoMemory)
    }
}
