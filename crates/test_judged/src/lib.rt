//! Runs whose bus is recorded, and verdicts on what was written of them.
#![tactic(auto)]

#[cfg(test)]
mod calls;
#[cfg(test)]
mod faults;
#[cfg(test)]
mod judged;
#[cfg(test)]
mod reads;
#[cfg(test)]
mod recorded;
