//! Programs from ELF files, and ELF files that are refused.
#![tactic(auto)]

#[cfg(test)]
mod tests;
