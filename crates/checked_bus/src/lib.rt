//! The chip's side of the bus. A line or a node is read from its place and checked at once, and is tagged and written;
//! what each call makes of the bus and of the tag engine is said once here, for all that stands above. No call keeps
//! state of its own.
#![tactic(auto)]

mod line;
mod node;

pub use line::{read_line, write_line};
pub use node::{read_node, write_node};
