//! The words of the command line, what they ask for, and the texts that commands write.
#![tactic(auto)]

ghost use Rattle.std.specs.Prelude.{◌≡◌, ◌≢◌, ◌<◌, ◌^◌, ◌↔◌, [], Ok, IfOk, IfErr, IfSome, IsTrue};
ghost use Rattle.clap.specs.Values.{kind_of};
ghost use Rattle.clap.specs.declared.error.kind.ErrorKind.TheVariants.{OutOfMemory};
ghost use Rattle.clap.specs.Faults.{fault_of};
ghost use Rattle.sec_base.specs.Geometry.{IsGeometry};
ghost use Rattle.chip_words.specs.App.{chip_app};
ghost use Rattle.chip_words.specs.Request.{asked_number, asked_program, is_taken, request_of};
ghost use Rattle.chip_words.specs.Words.{asked, texts, Explains, IfUsage};

mod app;
mod defaults;
mod evidence_lines;
mod fault;
mod lines;
mod note;
mod refusal_lines;
mod report_fields;
mod request;
mod summary;
mod values;
mod verdict_lines;

use clap::Error;
use clap::error::ErrorKind;
pub use defaults::{default_run, side_run};
pub use fault::{ValueFault, WordsError};
pub use lines::write_line;
pub use note::{RunNote, second_line, tell_plain, tell_run};
pub use refusal_lines::{
    asm_fault_line, elf_fault_line, long_file_line, order_fault_line, read_fault_line,
    report_fault_line, script_fault_line, tag_differs_line, tell_usage, trace_fault_line,
    value_fault_line,
};
pub use report_fields::write_fields;
pub use request::{
    Execution, JudgedTrace, PairRun, ProgramFile, ProgramForm, ProtectedRun, ReportFile, Request,
    SideRun, Tags, Terms,
};
use std::alloc::Global;
pub use summary::write_summary;
pub use verdict_lines::{difference_line, follows_line};

/// What the words of the process ask for, the program's name first. A question for help is refused too, and its answer is
/// the text.
#[tactic(auto, using(crate::proofs::Requests::request_is_taken))]
pub fn read_words<'a>(alloc: Global, words: &'a [&'a str]) -> Result<Request<'a>, WordsError>
    ensures taken { IfOk result (λ request. request_of (texts words.now) ≡ Ok (asked request)) }
    ensures refused { IfErr result (λ error. Explains error (request_of (texts words.now))) }
    ensures geometry { IfOk result (λ request.
        IfSome (asked_program (asked request)) (λ file. IsGeometry file.geometry)) }
    ensures numbers { IfOk result (λ request. IfSome (asked_number (asked request))
        (λ number. number < 2 ^ 32)) }

    // Words are taken just where clap has no fault to find in them. Then their values are tested.
    ensures faultless { IsTrue (is_taken (request_of (texts words.now)))
        ↔ (fault_of chip_app (texts words.now) ≡ []) }
{
    let app = app::app(alloc)?;
    match app.try_get_matches_from(words) {
        Ok(matches) => match values::requested(&matches) {
            Ok(request) => Ok(request),
            Err(fault) => Err(WordsError::WrongValue(fault)),
        },
        Err(error) => Err(refusal(alloc, &error)),
    }
}

// Why no matches came, with clap's text for the user.
fn refusal(alloc: Global, error: &Error) -> WordsError
    ensures { IfUsage result (kind_of error.now ≢ OutOfMemory) }
{
    if error.kind() == ErrorKind::OutOfMemory {
        return WordsError::NoMemory;
    }
    match format!(in alloc; "{error}") {
        Ok(text) => WordsError::Usage(text),
        Err(_) => WordsError::NoMemory,
    }
}
