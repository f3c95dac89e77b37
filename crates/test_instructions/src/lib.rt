//! Instructions as words, as texts and in listings.
#![tactic(auto)]

#[cfg(test)]
mod decoding;
#[cfg(test)]
mod listings;
#[cfg(test)]
mod texts;
