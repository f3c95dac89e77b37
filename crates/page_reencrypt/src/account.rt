// What a protected memory hands out at its end.
use sec_base::{Evidence, Messages, Pads};

/// What a protected memory can show where it is given up.
#[derive(Debug, Drop)]
pub struct Account {
    /// What was tagged, in order.
    pub made: Messages,
    /// What lines were encrypted under, in order.
    pub used: Pads,
    /// What passed a check though it was never tagged, if something did.
    pub evidence: Option<Evidence>,
}
