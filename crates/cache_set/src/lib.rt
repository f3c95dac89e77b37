//! Set-associative caches of two ways: the place of an entry says which set it is in, and the least recently used
//! way of a set is the one that goes out.
#![tactic(auto)]

mod cache;
mod cache_set;
mod way;

pub use cache::Cache;
pub use way::Way;
