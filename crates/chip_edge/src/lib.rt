//! The edge of the program: real files, standard output and standard error, and the words of a process.
#![tactic(auto)]

mod process;
mod real_files;
mod stream;
#[cfg(test)]
mod tests;

pub use process::{answer, answer_read, run_main};
pub use real_files::RealFiles;
pub use stream::Stream;
