//! Gives tags to messages and checks them, keeps a list of all that it tagged, and keeps the first message that
//! passed a check though it was never tagged, or a node whose block isn't the last one. The list and that message come
//! out only where the engine is given up, so a chip that uses it can't decide by them.
#![tactic(auto)]

mod last_place;
mod tag_engine;

pub use tag_engine::TagEngine;
