//! What programs run on: the device over the bus of a run, and the plain machine. One call for each kind of run, on the
//! terms of a request, one for two programs that share the core, and one that judges the trace of a run.
#![tactic(auto)]

mod device;
mod generated;
mod judged;
mod paired;
mod plain;
mod printed;
mod run_bus;
mod traced;

pub use device::run_on_device;
pub use generated::run_generated;
pub use judged::judge_trace;
pub use paired::{RanBeside, SideOnDevice, pair_on_device};
pub use plain::run_plain;
pub use printed::Printed;
pub use run_bus::RunBus;
pub use traced::trace_on_device;
