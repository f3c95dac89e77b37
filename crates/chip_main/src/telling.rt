// What is told of a call.
ghost use Rattle.std.specs.Prelude.{◌≡◌, ◌≤◌, OnOk};
ghost use Rattle.sec_base.specs.Sink.{IsWritten};
ghost use Rattle.chip_main.specs.Course.{TellsCourse};
ghost use Rattle.chip_device.specs.Buses.{run_history};
ghost use Rattle.chip_main.specs.Texts.{pair_text, refusal_text, run_text};

use crate::course::Course;
use crate::second::Second;
use chip_device::RunBus;
use chip_files::Refusal;
use chip_run::RunRecord;
use chip_words::{
    RunNote, asm_fault_line, elf_fault_line, long_file_line, order_fault_line, read_fault_line,
    report_fault_line, script_fault_line, second_line, tag_differs_line, tell_plain, tell_run,
    tell_usage, trace_fault_line, value_fault_line, write_line,
};
use sec_base::{Sink, SinkStop};
use std::alloc::Global;

/// Tells what a call came to, a line at a time. After an error no further line is written.
pub fn tell<N: Sink>(alloc: Global, course: &Course, note: &mut N) -> Result<(), SinkStop>
    ensures told { TellsCourse course.now (N.state note.old) (N.state note.new) result }
    ensures faults { (N.state note.old).faults ≤ (N.state note.new).faults }
    ensures quiet { OnOk result ((N.state note.new).faults ≡ (N.state note.old).faults) }
{
    match course {
        Course::Refused(refusal) => tell_refusal(alloc, refusal, note),
        Course::NoMemory | Course::Written(_) | Course::RanGenerated(..) | Course::Judged(..) => {
            Ok(())
        }
        Course::Ran(run, bus) | Course::RanTraced(run, bus, _) => {
            tell_record(alloc, run, bus.lies(), note)
        }
        Course::RanPlain(run) => tell_plain(alloc, run.ending, run.retired, note),
        Course::OtherTag => write_line(note, tag_differs_line()),
        Course::RanPair(run, bus, second, _) => tell_pair(alloc, run, bus, second, note),
    }
}

fn tell_refusal<N: Sink>(alloc: Global, refusal: &Refusal, note: &mut N) -> Result<(), SinkStop>
    ensures told { IsWritten (refusal_text refusal.now) (N.state note.old) (N.state note.new)
        result }
    ensures faults { (N.state note.old).faults ≤ (N.state note.new).faults }
    ensures quiet { OnOk result ((N.state note.new).faults ≡ (N.state note.old).faults) }
{
    match refusal {
        Refusal::Usage(text) => tell_usage(text.as_str(), note),
        Refusal::WrongValue(fault) => write_line(note, value_fault_line(alloc, *fault)?.as_str()),
        Refusal::Unread => write_line(note, read_fault_line()),
        Refusal::TooLong => write_line(note, long_file_line()),
        Refusal::Elf(fault) => {
            let line = elf_fault_line(alloc, fault.code(), fault.name())?;
            write_line(note, line.as_str())
        }
        Refusal::Asm { line, fault } => {
            let line = asm_fault_line(alloc, *line, fault.code(), fault.name())?;
            write_line(note, line.as_str())
        }
        Refusal::Script { line, fault } => {
            let line = script_fault_line(alloc, *line, fault.code(), fault.name())?;
            write_line(note, line.as_str())
        }
        Refusal::Report(fault) => {
            let line = report_fault_line(alloc, fault.code(), fault.name())?;
            write_line(note, line.as_str())
        }
        Refusal::Trace(fault) => {
            let line = trace_fault_line(alloc, fault.code(), fault.name())?;
            write_line(note, line.as_str())
        }
        Refusal::Order(error) => write_line(note, order_fault_line(alloc, error.place)?.as_str()),
    }
}

// The records of two programs that shared the core, the first one over this bus, with a line between them.
fn tell_pair<N: Sink>(
    alloc: Global,
    run: &RunRecord,
    bus: &RunBus,
    second: &Second,
    note: &mut N,
) -> Result<(), SinkStop>
    ensures told { IsWritten
        (pair_text run.now (run_history bus.now).lies second.now.run second.now.lies)
        (N.state note.old) (N.state note.new) result }
    ensures faults { (N.state note.old).faults ≤ (N.state note.new).faults }
    ensures quiet { OnOk result ((N.state note.new).faults ≡ (N.state note.old).faults) }
{
    tell_record(alloc, run, bus.lies(), note)?;
    write_line(note, second_line())?;
    tell_record(alloc, &second.run, second.lies, note)
}

fn tell_record<N: Sink>(
    alloc: Global,
    run: &RunRecord,
    lies: u64,
    note: &mut N,
) -> Result<(), SinkStop>
    ensures told { IsWritten (run_text run.now lies) (N.state note.old) (N.state note.new) result }
    ensures faults { (N.state note.old).faults ≤ (N.state note.new).faults }
    ensures quiet { OnOk result ((N.state note.new).faults ≡ (N.state note.old).faults) }
{
    let told = RunNote {
        ending: run.ending,
        retired: run.retired,
        lies,
        made: &run.made,
        evidence: run.evidence,
        report: run.report,
    };
    tell_run(alloc, &told, note)
}
