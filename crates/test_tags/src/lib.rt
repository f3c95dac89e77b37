//! MACs, tags with their messages, and reports.
#![tactic(auto)]

#[cfg(test)]
mod engines;
#[cfg(test)]
mod macs;
#[cfg(test)]
mod marks;
#[cfg(test)]
mod reports;
