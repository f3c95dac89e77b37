//! The files of a request: which it needs, in which order, and what each is. They are read one after another, each within
//! its limit, up to the first that is refused.
#![tactic(auto)]

mod pair;
mod program;
mod refusal;
mod stop;
mod taking;

pub use pair::{PairFiles, take_pair};
pub use refusal::Refusal;
pub use stop::Stop;
pub use taking::{take_execution, take_judged, take_program, take_report, take_run};
