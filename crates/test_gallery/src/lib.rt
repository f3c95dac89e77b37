//! The gallery of attacks: each script of examples/attacks.
#![tactic(auto)]

#[cfg(test)]
mod layout_2;
#[cfg(test)]
mod tests;
