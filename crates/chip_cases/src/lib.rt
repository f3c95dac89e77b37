//! Whole calls for the tests of the top call: their words and programs, and what each of them shows.
#![tactic(auto)]

mod attack;
mod calls;
mod case;
mod programs;
mod reports;
mod results;
mod shown;
mod texts;
mod words;

pub use attack::{Attack, attack_files, call_attack, call_attack_under, call_by_script};
pub use calls::{
    Call, call_assembled, call_file, call_program, call_without_files, call_zeros, file, make_call,
    make_short_call, program,
};
pub use case::{Case, edited};
pub use programs::{EXIT_7, EXIT_7_BYTES, EXIT_7_ELF, EXIT_7_TEXT, EXIT_65, PRINT_A};
pub use reports::{REPORT, REPORT_OF_KEY, REPORT_OF_LAYOUT_2, REPORT_OF_VERSION_1, REPORT_TARGET};
pub use results::{DIGEST, FIELDS, LISTING};
pub use shown::{Shown, shows, without_report};
pub use texts::{
    PRINT_TWICE, READ_UNTOUCHED, STORE_200_TIMES, STORE_AND_PRINT, STORE_FAR_APART, STORE_TWICE,
};
pub use words::{
    ASM, DIS, DIS_ELF, MEASURE, MEASURE_ELF, PLAIN, PLAIN_ELF, PLAIN_ON_INPUT, RUN, RUN_BY_ALL,
    RUN_ELF, RUN_ON_INPUT, RUN_SMALL, VERIFY,
};
