//! Assembly texts, and the programs that they are.
#![tactic(auto)]

#[cfg(test)]
mod tests;
