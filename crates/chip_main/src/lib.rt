//! The top call: what the program does with its words, over any files and any sinks.
#![tactic(auto)]

ghost use Rattle.std.specs.Prelude.{◌≡◌, ◌≤◌, ◌↔◌, [], IfSome, IsSome};
ghost use Rattle.chip_words.specs.Request.{request_of};
ghost use Rattle.chip_words.specs.Words.{texts};
ghost use Rattle.chip_files.specs.Causes.{AsksFront};
ghost use Rattle.chip_files.specs.Needs.{needs_of};
ghost use Rattle.chip_device.specs.Buses.{LiesByScript, lies_of, script_followed};
ghost use Rattle.chip_main.specs.Call.{GivesAsked, GivesDue, SaysStatus};
ghost use Rattle.chip_main.specs.Course.{course_bus, course_run, course_second, status_of};
ghost use Rattle.chip_main.specs.Requests.{AsksPair};
ghost use Rattle.chip_main.specs.Status.{code_of};
ghost use Rattle.chip_main.specs.World.{world};

mod course;
mod perform;
mod second;
mod status;
mod telling;
mod writing;

use chip_device::RunBus;
use chip_run::RunRecord;
use course::Course;
use perform::perform;
use sec_base::{Files, Sink, SinkStop};
pub use second::Second;
pub use status::Status;
use std::alloc::Global;
use telling::tell;

/// What a call of the program did.
#[derive(Debug, Drop)]
pub struct Done {
    /// The number of the status of the process.
    pub status: u8,
    /// The run on protected memory, where there was one; of two programs, the first one's.
    pub run: Option<RunRecord>,
    /// How many answers of its bus were false.
    pub lies: u64,
    /// The run's bus, as it stands at the end.
    pub bus: Option<RunBus>,
    /// The second one of two programs that shared the core: run, lies and bus are the first one's.
    pub second: Option<Second>,
}

/// Does what the words of the process ask for, the program's name first, as `clap` reads them.
///
/// - `run FILE` runs a program on protected memory. `--script FILE` names what an adversary does to the memory outside
///   the chip, `--tags T` says how memory is tagged, `hmac` or `xor`, `--page-limit N` how high a page counter may
///   rise, and `--nonce HEX` what the run's report is to answer.
/// - `plain FILE` runs a program on the plain machine.
/// - `asm FILE` makes the ELF file of an assembly text.
/// - `dis FILE` lists a program's instructions.
/// - `measure FILE` tells a program's measurement.
/// - `verify FILE` checks a report, and tells what it says.
/// - `bench NUMBER` runs a generated program on protected memory, on the terms that `run` has by default, and sums up
///   what it printed.
/// - `trace FILE` runs a program as `run` does, and writes down what its bus was asked and answered, unless the run was out
///   of memory.
/// - `judge FILE TRACE` says whether the reads of a trace are true, but for a last one that ended its run as tampered, and
///   the plain machine allows the rest, or how it first differs.
/// - `pair FILE1 FILE2` runs two programs that share the core, turn by turn, each in a memory of its own and on the terms that
///   `run` has by default. `--order FILE` names whose turn it is, a byte 0 or 1 a turn, over and over: of none they take turns,
///   the first one first. `--script FILE` and `--script2 FILE` name what adversaries do to the memories outside the chip, and
///   `--key HEX` and `--key2 HEX` are the keys, which differ. `out` gets what the first one printed and then what the second
///   one did, `note` the record of the first, a line, and that of the second. The status is the first one's, unless that
///   halted, and then the second one's; out of memory goes before.
///
/// But for `asm` and `pair`, a program is an ELF file, or with `--flat` has the program's bytes and nothing else. `--layout N`, 1 or
/// 2, and `--levels L`, 1 to 8 or to 5, say how large the memory is. Of `run`, `plain`, `trace` and `judge`, `--input
/// FILE` names the program's input and `--steps N` how many instructions may be retired. Of `run`, `trace` and `verify`,
/// `--key HEX` is the key of the device. What is printed or made goes to `out`, the rest to `note`: of `trace`, `out`
/// gets the trace, and what the program prints is in it.
pub fn run_words<F: Files, O: Sink, N: Sink>(
    alloc: Global,
    words: &[&str],
    files: &mut F,
    out: &mut O,
    note: &mut N,
) -> Done
    // What each status says, what each command gives, and what is due by what the files tell.
    ensures statuses { SaysStatus (request_of (texts words.now))
        (world (F.state files.old) (O.state out.old) (N.state note.old))
        (world (F.state files.new) (O.state out.new) (N.state note.new)) result }
    ensures commands { GivesAsked (request_of (texts words.now))
        (world (F.state files.old) (O.state out.old) (N.state note.old))
        (world (F.state files.new) (O.state out.new) (N.state note.new)) result }
    ensures due { GivesDue (request_of (texts words.now))
        (world (F.state files.old) (O.state out.old) (N.state note.old))
        (world (F.state files.new) (O.state out.new) (N.state note.new)) result }

    // The bus of a run comes with it. Its false answers come of the script that it follows: there is none where the
    // script has no line, and the first is about a place that a line may change.
    ensures bus { IsSome result.run ↔ IsSome result.bus }
    ensures lies { result.lies ≡ lies_of result.bus }
    ensures by_script { IfSome result.bus LiesByScript }
    ensures honest { script_followed result.bus ≡ [] → result.lies ≡ 0 }

    // There is a second run just where two programs shared the core.
    ensures second { IsSome result.second
        ↔ (IsSome result.run × AsksPair (request_of (texts words.now))) }

    // The first of the request's files were asked for, in order, each once. None changes, and no fault is taken back.
    ensures asked { AsksFront (needs_of (request_of (texts words.now))) (F.state files.old)
        (F.state files.new) }
    ensures held { (F.state files.new).held ≡ (F.state files.old).held }
    ensures files_faults { (F.state files.old).faults ≤ (F.state files.new).faults }
    ensures out_faults { (O.state out.old).faults ≤ (O.state out.new).faults }
    ensures note_faults { (N.state note.old).faults ≤ (N.state note.new).faults }
{
    let course = perform(alloc, words, files, out);
    let told = tell(alloc, &course, note);
    conclude(course, told)
}

// The answer to a course that was told so far.
fn conclude(course: Course, told: Result<(), SinkStop>) -> Done
    ensures status { result.status ≡ code_of (status_of course told) }
    ensures run { result.run ≡ course_run course }
    ensures bus { result.bus ≡ course_bus course }
    ensures lies { result.lies ≡ lies_of (course_bus course) }
    ensures by_script { IfSome (course_bus course) LiesByScript }
    ensures second { result.second ≡ course_second course }
{
    let status = match told {
        Ok(()) => course.status(),
        Err(SinkStop::Failed) => course.untold_status(),
        Err(SinkStop::NoMemory) => Status::NoMemory,
    };
    let status = status.code();
    match course.into_run() {
        Some((run, bus, second)) => Done {
            status,
            run: Some(run),
            lies: bus.lies(),
            bus: Some(bus),
            second,
        },
        None => Done {
            status,
            run: None,
            lies: 0,
            bus: None,
            second: None,
        },
    }
}
