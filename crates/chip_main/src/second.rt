// The second one of two programs that shared the core.
use chip_device::RunBus;
use chip_run::{RunRecord, SideStop};

/// The second one of two programs that shared the core, and the stops of both.
#[derive(Debug, Drop)]
pub struct Second {
    /// What it came to.
    pub run: RunRecord,
    /// How many answers of its bus were false.
    pub lies: u64,
    /// Its bus, as it stands at the end.
    pub bus: RunBus,
    /// The stop that ended the first one, if its memory or want of memory did.
    pub first_stop: Option<SideStop>,
    /// The stop that ended the second one.
    pub second_stop: Option<SideStop>,
}
