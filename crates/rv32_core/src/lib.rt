//! One step of the processor over any memory and any sink: RV32I, M and Zifencei of the unprivileged manual, and the
//! services.
#![tactic(auto)]

mod access;
mod arithmetic;
mod calls;
mod decoded_words;
mod execute;
mod input;
mod operands;
mod print;
mod processor;
mod services;
mod step;
mod taken;
mod transfer;

pub use calls::Calls;
pub use processor::{Core, Processor};
pub use step::{Step, StepStop};
