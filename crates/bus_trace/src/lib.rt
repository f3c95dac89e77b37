//! Traces: what a bus was asked and what it answered in a run, and how the run ended, as a file; and a judge, which says
//! whether its reads are true and the plain machine allows the rest.
#![tactic(auto)]

mod comparison;
mod entries;
mod entry;
mod falsity;
mod fault;
mod judging;
mod last_writes;
mod reading;
mod record_bus;
mod trace;
mod verdict;
mod writing;

pub use entries::Entries;
pub use entry::Entry;
pub use fault::{TraceError, TraceFault};
pub use judging::judge;
pub use reading::parse;
pub use record_bus::RecordBus;
pub use trace::Trace;
pub use verdict::{Difference, Verdict};
pub use writing::write;
