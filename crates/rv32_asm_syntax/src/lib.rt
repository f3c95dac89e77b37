//! What the lines of an assembly text say, in this project's assembly language (docs/FORMATS.md), which is mostly GNU
//! as's.
#![tactic(auto)]

mod characters;
mod expressions;
mod fault;
mod keywords;
mod lines;
mod numbers;
mod operands;
mod reading;
mod registers;
mod statements;
mod strings;

pub use fault::{AsmFault, LineError};
pub use lines::{first_label, first_line, without_comment};
pub use reading::statement_of;
pub use statements::{Expression, Immediate, Instruction, Statement};
