//! What an adversary does to the memory outside the chip, as a script's text says it (docs/FORMATS.md).
#![tactic(auto)]

mod actions;
mod bytes;
mod fault;
mod lines;
mod numbers;
mod places;
mod script;
mod triggers;
mod words;

pub use fault::{ScriptError, ScriptFault};
pub use lines::parse;
pub use script::{Action, PlaceBytes, Script, ScriptLine, Trigger};
