//! The program once more, for a second stored run: it has every option, what it prints is its input, and it ends in a
//! trap.
#![tactic(auto)]

use chip_edge::run_main;
use std::process::ExitCode;

fn main(rt: HostRuntime) -> ExitCode {
    run_main(&rt)
}
