//! Assembly texts: lines, statements and whole programs.
#![tactic(auto)]

#[cfg(test)]
mod lines;
#[cfg(test)]
mod programs;
#[cfg(test)]
mod statements;
