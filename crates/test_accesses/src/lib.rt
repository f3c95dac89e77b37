//! How many accesses the runs of generated programs make.
#![tactic(auto)]

#[cfg(test)]
mod counted_ram;
#[cfg(test)]
mod tests;
#[cfg(test)]
mod watching_bus;
