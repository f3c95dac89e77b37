//! Steps of the core, and runs of the plain machine.
#![tactic(auto)]

#[cfg(test)]
mod plain_runs;
#[cfg(test)]
mod steps;
#[cfg(test)]
mod vectors;
