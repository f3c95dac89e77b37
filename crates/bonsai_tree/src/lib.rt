//! The tree over the counter blocks (a Bonsai Merkle tree: Rogers et al., MICRO 2007). Its nodes stand outside the chip,
//! each with the tags of its children. A slot of zeros says that the child was never made: it is zeros then, and is not read.
//! Nodes above level 0 are cached on the chip, each level in a cache of its own: a node is read and checked from the top down
//! where it has no copy, and one that was changed is written, and tagged, only when it goes out. The top node never goes out,
//! so it is never made, and the root register, into which its tag would belong, keeps boot's zeros.
#![tactic(auto)]

mod node_cache;
mod slots;
mod tree;

pub use tree::Tree;
