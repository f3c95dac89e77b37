//! Traces, buses that are recorded, and verdicts.
#![tactic(auto)]

#[cfg(test)]
mod files;
#[cfg(test)]
mod recorded;
#[cfg(test)]
mod verdicts;
