//! Memory that an adversary changes, by tables of attacks and case by case, and files that are refused.
#![tactic(auto)]

#[cfg(test)]
mod attack_table;
#[cfg(test)]
mod attacks;
#[cfg(test)]
mod last_places;
#[cfg(test)]
mod levels;
#[cfg(test)]
mod node_attacks;
#[cfg(test)]
mod refused_files;
#[cfg(test)]
mod scripts;
