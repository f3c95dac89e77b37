//! Two programs that share the core.
#![tactic(auto)]

#[cfg(test)]
mod alone;
#[cfg(test)]
mod calls;
#[cfg(test)]
mod faults;
#[cfg(test)]
mod noted_files;
#[cfg(test)]
mod reads;
#[cfg(test)]
mod shared;
#[cfg(test)]
mod sides;
#[cfg(test)]
mod usage;
