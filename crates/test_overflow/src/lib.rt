//! A page that is encrypted anew, over a memory that tells the truth and one that an adversary changes meanwhile.
#![tactic(auto)]

#[cfg(test)]
mod tests;
