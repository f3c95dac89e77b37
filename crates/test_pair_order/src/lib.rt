//! Tests of the order in which two programs that share the core take turns.
#![tactic(auto)]

#[cfg(test)]
mod order;
