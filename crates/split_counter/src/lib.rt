//! The counters that the lines of a page are encrypted under: split counters, after Yan et al. (ISCA 2006). A page has
//! one counter of 64 bits, and each of its 64 lines has one of 7 bits (they say major and minor counter). All of them
//! fit a block of 64 bytes. A write of a line adds one to its line counter. Where that stands at 127, the page counter
//! goes up by one and all line counters begin again at 0, so the whole page is encrypted anew. No call takes memory.
#![tactic(auto)]

mod bumped;
mod counter_block;
mod packing;

pub use bumped::{Bumped, LAST_LINE_COUNTER};
pub use counter_block::{CounterBlock, place_of};
