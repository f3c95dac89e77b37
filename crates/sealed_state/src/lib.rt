//! The file that keeps the state of a suspended chip in storage that isn't trusted: the state, enciphered under a number,
//! and an HMAC of it all.
#![tactic(auto)]

mod chip_state;
mod state_fault;
mod state_file;

pub use chip_state::ChipState;
pub use state_fault::StateFault;
pub use state_file::{seal, unseal};
