//! A memory outside the chip that follows an adversary's script.
#![tactic(auto)]

mod adversary;
mod next_access;
mod place_bytes;
mod place_counts;
mod script_bus;
mod stored_places;

pub use script_bus::ScriptBus;
