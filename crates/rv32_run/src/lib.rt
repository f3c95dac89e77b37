//! A program in a memory of any kind, run to its end.
#![tactic(auto)]

mod execution;
mod load;

pub use execution::{Execution, ending_of};
pub use load::store_image;
