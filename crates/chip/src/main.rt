//! The program: it does what the words of its process ask for, over real files, standard output and standard error.
#![tactic(auto)]

use chip_edge::run_main;
use std::process::ExitCode;

fn main(rt: HostRuntime) -> ExitCode {
    run_main(&rt)
}
