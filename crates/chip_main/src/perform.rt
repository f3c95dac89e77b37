// What words ask for, done.
ghost use Rattle.std.specs.Prelude.{◌≡◌, ◌≤◌, Ok, IfErr, IfOk};
ghost use Rattle.chip_words.specs.Request.{request_of, to_judge, to_pair, to_trace};
ghost use Rattle.chip_words.specs.Words.{judge_asked, pair_asked, run_asked, texts};
ghost use Rattle.chip_device.specs.Buses.{LiesByScript, run_history};
ghost use Rattle.chip_main.specs.Course.{CameAbout, course_status, stopped_course};
ghost use Rattle.chip_main.specs.declared.course.Course.TheVariants.{RanPair};
ghost use Rattle.chip_main.specs.Status.{IsResult, code_of};

use crate::course::Course;
use crate::second::Second;
use crate::writing::{write_both, write_elf_file, write_measurement, write_trace, write_verdict};
use chip_device::{
    RanBeside, SideOnDevice, judge_trace, pair_on_device, run_generated, run_on_device, run_plain,
    trace_on_device,
};
use chip_files::{
    PairFiles, Stop, take_execution, take_judged, take_pair, take_program, take_report, take_run,
};
use chip_words::{
    JudgedTrace, PairRun, ProtectedRun, Request, read_words, write_fields, write_summary,
};
use rv32_listing::write_listing;
use sec_base::{Files, Sink, SinkStop};
use std::alloc::Global;

/// Does what the words ask for, but for telling it.
pub fn perform<F: Files, O: Sink>(
    alloc: Global,
    words: &[&str],
    files: &mut F,
    out: &mut O,
) -> Course
    ensures came { CameAbout result (request_of (texts words.now)) (F.state files.old)
        (F.state files.new) (O.state out.old) (O.state out.new) }
    ensures held { (F.state files.new).held ≡ (F.state files.old).held }
    ensures files_faults { (F.state files.old).faults ≤ (F.state files.new).faults }
    ensures out_faults { (O.state out.old).faults ≤ (O.state out.new).faults }
    ensures quiet { IsResult (code_of (course_status result)) →
        ((F.state files.new).faults ≡ (F.state files.old).faults)
        × ((O.state out.new).faults ≡ (O.state out.old).faults) }
{
    match course_of(alloc, words, files, out) {
        Ok(course) => course,
        Err(stop) => Course::stopped(stop),
    }
}

fn course_of<F: Files, O: Sink>(
    alloc: Global,
    words: &[&str],
    files: &mut F,
    out: &mut O,
) -> Result<Course, Stop>
    ensures came { IfOk result (λ course.
        CameAbout course (request_of (texts words.now)) (F.state files.old) (F.state files.new)
        (O.state out.old) (O.state out.new)) }
    ensures stopped { IfErr result (λ stop.
        CameAbout (stopped_course stop) (request_of (texts words.now)) (F.state files.old)
        (F.state files.new) (O.state out.old) (O.state out.new)) }
    ensures held { (F.state files.new).held ≡ (F.state files.old).held }
    ensures files_faults { (F.state files.old).faults ≤ (F.state files.new).faults }
    ensures out_faults { (O.state out.old).faults ≤ (O.state out.new).faults }
    ensures quiet { IfOk result (λ course. IsResult (code_of (course_status course)) →
        ((F.state files.new).faults ≡ (F.state files.old).faults)
        × ((O.state out.new).faults ≡ (O.state out.old).faults)) }
{
    match read_words(alloc, words)? {
        Request::Run(asked) => {
            let (image, script, input) = take_run(alloc, &asked, files)?;
            let (run, bus) = run_on_device(alloc, &image, script, input.as_slice(), &asked, out)?;
            Ok(Course::Ran(run, bus))
        }
        Request::Plain(execution) => {
            let (image, input) = take_execution(alloc, &execution, files)?;
            let run = run_plain(alloc, &image, input.as_slice(), &execution, out);
            Ok(Course::RanPlain(run))
        }
        Request::Asm(file) => {
            let image = take_program(alloc, &file, files)?;
            Ok(Course::Written(write_elf_file(alloc, &image, out)))
        }
        Request::Dis(file) => {
            let image = take_program(alloc, &file, files)?;
            Ok(Course::Written(write_listing(alloc, &image, out)))
        }
        Request::Measure(file) => {
            let image = take_program(alloc, &file, files)?;
            Ok(Course::Written(write_measurement(alloc, &image, out)))
        }
        Request::Verify(asked) => match take_report(alloc, &asked, files)? {
            Some(signed) => Ok(Course::Written(write_fields(alloc, &signed, out))),
            None => Ok(Course::OtherTag),
        },
        Request::Bench(number) => {
            let (run, bus, printed) = run_generated(alloc, number)?;
            let written = write_summary(
                alloc,
                number,
                run.ending,
                run.retired,
                printed.as_slice(),
                out,
            );
            Ok(Course::RanGenerated(run, bus, written))
        }
        Request::Trace(asked) => trace_course(alloc, &asked, files, out),
        Request::Judge(asked) => judgement_course(alloc, &asked, files, out),
        Request::Pair(asked) => pair_course(alloc, &asked, files, out),
    }
}

// Runs a program over a bus that is recorded, and writes its trace.
fn trace_course<F: Files, O: Sink>(
    alloc: Global,
    asked: &ProtectedRun<'_>,
    files: &mut F,
    out: &mut O,
) -> Result<Course, Stop>
    ensures came { IfOk result (λ course.
        CameAbout course (Ok (to_trace (run_asked asked.now))) (F.state files.old)
        (F.state files.new) (O.state out.old) (O.state out.new)) }
    ensures stopped { IfErr result (λ stop.
        CameAbout (stopped_course stop) (Ok (to_trace (run_asked asked.now))) (F.state files.old)
        (F.state files.new) (O.state out.old) (O.state out.new)) }
    ensures held { (F.state files.new).held ≡ (F.state files.old).held }
    ensures files_faults { (F.state files.old).faults ≤ (F.state files.new).faults }
    ensures out_faults { (O.state out.old).faults ≤ (O.state out.new).faults }
    ensures quiet { IfOk result (λ course. IsResult (code_of (course_status course)) →
        ((F.state files.new).faults ≡ (F.state files.old).faults)
        × ((O.state out.new).faults ≡ (O.state out.old).faults)) }
{
    let (image, script, input) = take_run(alloc, asked, files)?;
    let (run, bus, trace) = trace_on_device(alloc, &image, script, input.as_slice(), asked)?;
    let written = write_trace(alloc, &trace, out);
    Ok(Course::RanTraced(run, bus, written))
}

// Judges a trace, and writes the verdict.
fn judgement_course<F: Files, O: Sink>(
    alloc: Global,
    asked: &JudgedTrace<'_>,
    files: &mut F,
    out: &mut O,
) -> Result<Course, Stop>
    ensures came { IfOk result (λ course.
        CameAbout course (Ok (to_judge (judge_asked asked.now))) (F.state files.old)
        (F.state files.new) (O.state out.old) (O.state out.new)) }
    ensures stopped { IfErr result (λ stop.
        CameAbout (stopped_course stop) (Ok (to_judge (judge_asked asked.now)))
        (F.state files.old) (F.state files.new) (O.state out.old) (O.state out.new)) }
    ensures held { (F.state files.new).held ≡ (F.state files.old).held }
    ensures files_faults { (F.state files.old).faults ≤ (F.state files.new).faults }
    ensures out_faults { (O.state out.old).faults ≤ (O.state out.new).faults }
    ensures quiet { IfOk result (λ course. IsResult (code_of (course_status course)) →
        ((F.state files.new).faults ≡ (F.state files.old).faults)
        × ((O.state out.new).faults ≡ (O.state out.old).faults)) }
{
    let (image, input, trace) = take_judged(alloc, asked, files)?;
    let difference = judge_trace(alloc, &image, input.as_slice(), &asked.execution, &trace)?;
    let written = write_verdict(alloc, difference, out);
    Ok(Course::Judged(difference, written))
}

// Runs two programs that share the core, and writes what they printed.
fn pair_course<F: Files, O: Sink>(
    alloc: Global,
    asked: &PairRun<'_>,
    files: &mut F,
    out: &mut O,
) -> Result<Course, Stop>
    ensures came { IfOk result (λ course.
        CameAbout course (Ok (to_pair (pair_asked asked.now))) (F.state files.old)
        (F.state files.new) (O.state out.old) (O.state out.new)) }
    ensures stopped { IfErr result (λ stop.
        CameAbout (stopped_course stop) (Ok (to_pair (pair_asked asked.now)))
        (F.state files.old) (F.state files.new) (O.state out.old) (O.state out.new)) }
    ensures held { (F.state files.new).held ≡ (F.state files.old).held }
    ensures files_faults { (F.state files.old).faults ≤ (F.state files.new).faults }
    ensures out_faults { (O.state out.old).faults ≤ (O.state out.new).faults }
    ensures quiet { IfOk result (λ course. IsResult (code_of (course_status course)) →
        ((F.state files.new).faults ≡ (F.state files.old).faults)
        × ((O.state out.new).faults ≡ (O.state out.old).faults)) }
{
    let PairFiles {
        first,
        second,
        order,
        first_script,
        second_script,
    } = take_pair(alloc, asked, files)?;
    let first = SideOnDevice {
        image: &first,
        script: first_script,
        asked: &asked.first,
    };
    let second = SideOnDevice {
        image: &second,
        script: second_script,
        asked: &asked.second,
    };
    let (first, second) = pair_on_device(alloc, first, second, order.as_slice())?;
    let written = write_both(first.printed.as_slice(), second.printed.as_slice(), out);
    Ok(pair_ran(first, second, written))
}

// Two programs ran, and what they printed was written, as far as this says.
fn pair_ran(first: RanBeside, second: RanBeside, written: Result<(), SinkStop>) -> Course
    ensures ran { result ≡ RanPair first.run first.bus
        (record {
          run = second.run;
          lies = (run_history second.bus).lies;
          bus = second.bus;
          first_stop = first.stop;
          second_stop = second.stop;
        }) written }
    ensures by_script { LiesByScript second.bus }
{
    let lies = second.bus.lies();
    let RanBeside {
        run,
        bus,
        stop: first_stop,
        printed: _,
    } = first;
    let RanBeside {
        run: second_run,
        bus: second_bus,
        stop: second_stop,
        printed: _,
    } = second;
    let beside = Second {
        run: second_run,
        lies,
        bus: second_bus,
        first_stop,
        second_stop,
    };
    Course::RanPair(run, bus, beside, written)
}
