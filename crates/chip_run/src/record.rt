// What a run is given, and what it comes to.
use hmac_tag::Keys;
use sec_base::{Ending, Evidence, Geometry, Messages, Pads};

/// What a run is given beside its program, its input and its bus.
#[derive(Clone, Copy)]
pub struct Setup {
    /// How large the memory is.
    pub geometry: Geometry,
    /// The keys of the device.
    pub keys: Keys,
    /// How many instructions may be retired.
    pub budget: u64,
    /// How high a page counter may rise.
    pub page_limit: u64,
    /// What a report of the run is to answer.
    pub nonce: [u8; 16],
}

/// What a run came to.
#[derive(Debug, Drop)]
pub struct RunRecord {
    /// How many instructions were retired.
    pub retired: u64,
    /// How it ended.
    pub ending: Ending,
    /// What passed a check though it was never tagged, if something did.
    pub evidence: Option<Evidence>,
    /// What was tagged, in order.
    pub made: Messages,
    /// What lines were encrypted under, in order.
    pub used: Pads,
    /// The signed report of the run, if there is one.
    pub report: Option<[u8; 159]>,
}
