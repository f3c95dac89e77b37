//! Taggers and buses for the tests of the protected memory.
#![tactic(auto)]

mod counting_bus;
mod prefix_tagger;
mod replay_bus;
mod zero_tagger;

pub use counting_bus::{Access, CountingBus};
pub use prefix_tagger::{PrefixTagger, prefix};
pub use replay_bus::{Replay, ReplayBus};
pub use zero_tagger::ZeroTagger;
