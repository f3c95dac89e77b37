// What a call comes to.
ghost use Rattle.std.specs.Prelude.{◌≡◌};
ghost use Rattle.std.specs.Option.{option_map};
ghost use Rattle.chip_main.specs.Status as spec;

use crate::second::Second;
use crate::status::Status;
use bus_trace::Difference;
use chip_device::RunBus;
use chip_files::{Refusal, Stop};
use chip_run::RunRecord;
use plain_machine::PlainRecord;
use sec_base::{Ending, SinkStop};

/// What a call comes to.
#[derive(Debug, Drop)]
pub enum Course {
    /// Nothing was done, for this reason.
    Refused(Refusal),
    /// Nothing was done: out of memory.
    NoMemory,
    /// A program ran on protected memory, over this bus.
    Ran(RunRecord, RunBus),
    /// A program ran on the plain machine.
    RanPlain(PlainRecord),
    /// A text of a program, or what a report says, was written, as far as this says.
    Written(Result<(), SinkStop>),
    /// A report has another tag than the device gives.
    OtherTag,
    /// A generated program ran on protected memory, over this bus, and its summary was written, as far as this says.
    RanGenerated(RunRecord, RunBus, Result<(), SinkStop>),
    /// A program ran on protected memory, over this bus, and its trace was written, as far as this says, where it has one.
    RanTraced(RunRecord, RunBus, Result<(), SinkStop>),
    /// A trace was judged, which differs first so, where it does, and the verdict was written, as far as this says.
    Judged(Option<Difference>, Result<(), SinkStop>),
    /// Two programs shared the core, the first one over this bus, and what they printed was written, as far as this says.
    RanPair(RunRecord, RunBus, Second, Result<(), SinkStop>),
}

impl Course {
    ghost use Rattle.chip_main.specs.Course.{course_bus, course_run, course_second, course_status, stopped_course, untold_status};

    /// What a call comes to where this stop ended it.
    pub fn stopped(stop: Stop) -> Self
        ensures { result ≡ stopped_course stop }
    {
        match stop {
            Stop::Refused(refusal) => Course::Refused(refusal),
            Stop::NoMemory => Course::NoMemory,
        }
    }

    /// The status, where the course was told whole.
    pub fn status(&self) -> Status
        ensures { result ≡ course_status self.now }
    {
        match self {
            Course::Refused(refusal) => refusal_status(refusal),
            Course::NoMemory => Status::NoMemory,
            Course::Ran(run, _) => run_status(run),
            Course::RanPlain(run) => ending_status(run.ending),
            Course::Written(written) => text_status(*written),
            Course::OtherTag => Status::TagDiffers,
            Course::RanGenerated(run, _, written) | Course::RanTraced(run, _, written) => {
                told_status(run, *written)
            }
            Course::Judged(difference, written) => judged_status(*difference, *written),
            Course::RanPair(run, _, second, written) => {
                told_pair_status(run, &second.run, *written)
            }
        }
    }

    /// The status, where a write of what tells it failed.
    pub fn untold_status(&self) -> Status
        ensures { result ≡ untold_status self.now }
    {
        match self {
            Course::Refused(refusal) => refusal_status(refusal),
            Course::NoMemory => Status::NoMemory,
            Course::Ran(run, _) => untold_ending_status(run.ending),
            Course::RanPlain(run) => untold_ending_status(run.ending),
            Course::Written(written) => text_status(*written),
            Course::OtherTag => Status::WriteFault,
            Course::RanGenerated(run, _, written) => told_status(run, *written),
            Course::RanTraced(run, _, written) => untold_told_status(run, *written),
            Course::Judged(difference, written) => judged_status(*difference, *written),
            Course::RanPair(run, _, second, written) => {
                untold_told_pair_status(run, &second.run, *written)
            }
        }
    }

    /// The run on protected memory and its bus, where there was one; of a pair, with the second one.
    pub fn into_run(self) -> Option<(RunRecord, RunBus, Option<Second>)>
        ensures run { option_map (λ ran. ran.0) result ≡ course_run self }
        ensures bus { option_map (λ ran. ran.1) result ≡ course_bus self }
        ensures second { option_map (λ ran. ran.2) result ≡ option_map (λ _. course_second self) (course_run self) }
    {
        match self {
            Course::Ran(run, bus)
            | Course::RanGenerated(run, bus, _)
            | Course::RanTraced(run, bus, _) => Some((run, bus, None)),
            Course::RanPair(run, bus, second, _) => Some((run, bus, Some(second))),
            Course::Refused(_)
            | Course::NoMemory
            | Course::RanPlain(_)
            | Course::Written(_)
            | Course::OtherTag
            | Course::Judged(..) => None,
        }
    }
}

fn refusal_status(refusal: &Refusal) -> Status
    ensures { result ≡ spec.refusal_status refusal.now }
{
    match refusal {
        Refusal::Usage(_) | Refusal::WrongValue(_) => Status::Usage,
        Refusal::Unread => Status::ReadFault,
        Refusal::TooLong
        | Refusal::Elf(_)
        | Refusal::Asm { .. }
        | Refusal::Script { .. }
        | Refusal::Report(_)
        | Refusal::Trace(_)
        | Refusal::Order(_) => Status::Refused,
    }
}

fn run_status(run: &RunRecord) -> Status
    ensures { result ≡ spec.run_status run.now }
{
    match run.evidence {
        Some(_) => evidence_status(run.ending),
        None => ending_status(run.ending),
    }
}

// The status of a run that is told by a text, as far as it was written.
fn told_status(run: &RunRecord, written: Result<(), SinkStop>) -> Status
    ensures { result ≡ spec.told_status run.now written }
{
    match written {
        Ok(()) => run_status(run),
        Err(SinkStop::Failed) => untold_ending_status(run.ending),
        Err(SinkStop::NoMemory) => Status::NoMemory,
    }
}

// The same, where the run's record could not be told.
fn untold_told_status(run: &RunRecord, written: Result<(), SinkStop>) -> Status
    ensures { result ≡ spec.untold_told_status run.now written }
{
    match written {
        Ok(()) | Err(SinkStop::Failed) => untold_ending_status(run.ending),
        Err(SinkStop::NoMemory) => Status::NoMemory,
    }
}

// The status of two programs that shared the core and whose records are told, by what they printed, as far as it was written.
fn told_pair_status(first: &RunRecord, second: &RunRecord, written: Result<(), SinkStop>) -> Status
    ensures { result ≡ spec.told_pair_status first.now second.now written }
{
    match written {
        Ok(()) => joint_status(run_status(first), run_status(second)),
        Err(SinkStop::Failed) => untold_pair_status(first.ending, second.ending),
        Err(SinkStop::NoMemory) => Status::NoMemory,
    }
}

// The same, where their records could not be told.
fn untold_told_pair_status(
    first: &RunRecord,
    second: &RunRecord,
    written: Result<(), SinkStop>,
) -> Status
    ensures { result ≡ spec.untold_told_pair_status first.now second.now written }
{
    match written {
        Ok(()) | Err(SinkStop::Failed) => untold_pair_status(first.ending, second.ending),
        Err(SinkStop::NoMemory) => Status::NoMemory,
    }
}

// The status of two programs that shared the core, by the endings of both, where something of them could not be written.
fn untold_pair_status(first: Ending, second: Ending) -> Status
    ensures { result ≡ spec.joint_status (spec.untold_ending_status first)
        (spec.untold_ending_status second) }
{
    joint_status(untold_ending_status(first), untold_ending_status(second))
}

// Out of memory where either is; else the first status, unless that is `Done`, and then the second.
fn joint_status(first: Status, second: Status) -> Status
    ensures { result ≡ spec.joint_status first second }
{
    match second {
        Status::NoMemory => Status::NoMemory,
        _ => first_undone(first, second),
    }
}

// The first status, unless that is `Done`: then the second.
fn first_undone(first: Status, second: Status) -> Status
    ensures { result ≡ spec.first_undone first second }
{
    match first {
        Status::Done => second,
        _ => first,
    }
}

fn ending_status(ending: Ending) -> Status
    ensures { result ≡ spec.ending_status ending }
{
    match ending {
        Ending::Halted(_) => Status::Done,
        Ending::Trapped { .. } => Status::Trapped,
        Ending::OutOfSteps => Status::OutOfSteps,
        Ending::Tampered(_) => Status::Tampered,
        Ending::Spent(_) => Status::Spent,
        Ending::WriteFault => Status::WriteFault,
        Ending::NoMemory => Status::NoMemory,
    }
}

// Evidence goes before all endings but a write fault and being out of memory.
fn evidence_status(ending: Ending) -> Status
    ensures { result ≡ spec.evidence_status ending }
{
    match ending {
        Ending::WriteFault => Status::WriteFault,
        Ending::NoMemory => Status::NoMemory,
        Ending::Halted(_)
        | Ending::Trapped { .. }
        | Ending::OutOfSteps
        | Ending::Tampered(_)
        | Ending::Spent(_) => Status::Evidence,
    }
}

fn untold_ending_status(ending: Ending) -> Status
    ensures { result ≡ spec.untold_ending_status ending }
{
    match ending {
        Ending::NoMemory => Status::NoMemory,
        _ => Status::WriteFault,
    }
}

fn text_status(written: Result<(), SinkStop>) -> Status
    ensures { result ≡ spec.text_status written }
{
    match written {
        Ok(()) => Status::Done,
        Err(SinkStop::Failed) => Status::WriteFault,
        Err(SinkStop::NoMemory) => Status::NoMemory,
    }
}

fn judged_status(difference: Option<Difference>, written: Result<(), SinkStop>) -> Status
    ensures { result ≡ spec.judged_status difference written }
{
    match written {
        Ok(()) => found_status(difference),
        Err(SinkStop::Failed) => Status::WriteFault,
        Err(SinkStop::NoMemory) => Status::NoMemory,
    }
}

fn found_status(difference: Option<Difference>) -> Status
    ensures { result ≡ spec.found_status difference }
{
    match difference {
        None => Status::Done,
        Some(_) => Status::JudgedNo,
    }
}
