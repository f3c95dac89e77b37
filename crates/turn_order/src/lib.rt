//! Whose turn it is in a pair of runs.
#![tactic(auto)]

mod order_error;
mod side;
mod turn_order;

pub use order_error::{OrderError, check_order};
pub use side::Side;
pub use turn_order::TurnOrder;
