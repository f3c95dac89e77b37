//! The integrity tree, call by call.
#![tactic(auto)]

#[cfg(test)]
mod tests;
