//! Values, geometry, endings, sinks and files of the base crate.
#![tactic(auto)]

#[cfg(test)]
mod geometry;
#[cfg(test)]
mod tests;
