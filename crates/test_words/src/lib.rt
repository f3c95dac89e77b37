//! The words of the command line: what each asks for, and why others are refused.
#![tactic(auto)]

#[cfg(test)]
mod tests;
