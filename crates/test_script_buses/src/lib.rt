//! Buses that a script tampers with.
#![tactic(auto)]

#[cfg(test)]
mod last_places;
#[cfg(test)]
mod tests;
