//! The memory outside the chip, which may answer anything: the bus that the chip reaches it by, an honest bus, and one
//! that is honest but for one answer.
#![tactic(auto)]

mod bus;
mod flip_bus;
mod honest_bus;
mod lies;

pub use bus::Bus;
pub use flip_bus::FlipBus;
pub use honest_bus::HonestBus;
pub use lies::{FalseAnswer, Lies};
