// The files of a request.
ghost use Rattle.std.specs.Prelude.{◌≡◌, ◌<◌, ◌≤◌, ◌^◌, [], ◌∷◌, ◌++◌, List, ℕ, Option, Some, None, length, option_map, IfOk, IfErr, IfSome, OnOk};
ghost use Rattle.adversary_script.specs.Script.{FitScript};
ghost use Rattle.bus_trace.specs.Format.{IsInForm};
ghost use Rattle.sec_base.specs.Files.{HasBytes};
ghost use Rattle.sec_base.specs.Geometry.{memory_size};
ghost use Rattle.sec_base.specs.Program.{IsImageOf, Program};
ghost use Rattle.sec_base.specs.Segment.{segment_bytes};
ghost use Rattle.chip_words.specs.Words.{execution_asked, file_asked, judge_asked, report_asked, run_asked};
ghost use Rattle.chip_files.specs.Causes.{Asks};
ghost use Rattle.chip_files.specs.Needs.{execution_needs, input_needs, judge_needs, program_need, report_need, run_needs, script_needs, trace_need};
ghost use Rattle.chip_files.specs.Stop.{IsStoppedBy};
ghost use Rattle.chip_files.specs.Taken.{IsInput, IsProgram, IsScript, IsTraceFile, ReadsExecution, ReadsJudged, ReadsReport, ReadsRun};
ghost use Rattle.chip_files.specs.Verdict.{IsVerdict, form_fault, verdict_of};
ghost use Rattle.chip_files.specs.declared.refusal.Refusal.{Refusal};
ghost use Rattle.chip_files.specs.declared.stop.Stop.TheVariants.{Refused};

use crate::program::{most_bytes, program_in};
use crate::refusal::Refusal;
use crate::stop::Stop;
use adversary_script::{Script, parse};
use attest_report::{ReportError, Signed, verify};
use bus_trace::Trace;
use chip_words::{Execution, JudgedTrace, ProgramFile, ProtectedRun, ReportFile};
use hmac_tag::derive;
use sec_base::{Bytes, Files, Geometry, Image};
use std::alloc::Global;

/// No script longer than this is read.
const SCRIPT_LIMIT: u64 = 1_048_576;

/// No input longer than this is read.
const INPUT_LIMIT: u64 = 1_048_576;

/// No report longer than this is read.
const REPORT_LIMIT: u64 = 1_048_576;

/// No trace longer than this is read.
const TRACE_LIMIT: u64 = 67_108_864;

/// The program, the script and the input of a run on protected memory.
pub fn take_run<F: Files>(
    alloc: Global,
    asked: &ProtectedRun<'_>,
    files: &mut F,
) -> Result<(Image, Option<Script>, Bytes), Stop>
    ensures taken { IfOk result (λ taken. (program : Program)
        × IsImageOf (memory_size asked.now.execution.file.geometry) program taken.0
        × ReadsRun (run_asked asked.now) (F.state files.old) (F.state files.new) program taken.1
        taken.2) }
    ensures fits { IfOk result
        (λ taken. IfSome taken.1 (FitScript asked.now.execution.file.geometry)) }
    ensures stopped { IfErr result (λ stop.
        IsStoppedBy stop (run_needs (run_asked asked.now)) (F.state files.old)
        (F.state files.new)) }
    ensures held { (F.state files.new).held ≡ (F.state files.old).held }
    ensures quiet { OnOk result ((F.state files.new).faults ≡ (F.state files.old).faults) }
    ensures faults { (F.state files.old).faults ≤ (F.state files.new).faults }
{
    let file = &asked.execution.file;
    let image = take_program(alloc, file, files)?;
    let script = take_script(alloc, asked.script, file.geometry, files)?;
    let input = take_input(alloc, asked.execution.input, files)?;
    Ok((image, script, input))
}

/// The program and the input of an execution.
pub fn take_execution<F: Files>(
    alloc: Global,
    execution: &Execution<'_>,
    files: &mut F,
) -> Result<(Image, Bytes), Stop>
    ensures taken { IfOk result (λ taken. (program : Program)
        × IsImageOf (memory_size execution.now.file.geometry) program taken.0
        × ReadsExecution (execution_asked execution.now) (F.state files.old) (F.state files.new)
        program taken.1) }
    ensures stopped { IfErr result (λ stop.
        IsStoppedBy stop (execution_needs (execution_asked execution.now)) (F.state files.old)
        (F.state files.new)) }
    ensures held { (F.state files.new).held ≡ (F.state files.old).held }
    ensures quiet { OnOk result ((F.state files.new).faults ≡ (F.state files.old).faults) }
    ensures faults { (F.state files.old).faults ≤ (F.state files.new).faults }
    ensures bytes_taken { (F.state files.old).taken ≤ (F.state files.new).taken }
{
    let image = take_program(alloc, &execution.file, files)?;
    let input = take_input(alloc, execution.input, files)?;
    Ok((image, input))
}

/// The program and the input of an execution, and the trace that is judged.
pub fn take_judged<F: Files>(
    alloc: Global,
    asked: &JudgedTrace<'_>,
    files: &mut F,
) -> Result<(Image, Bytes, Trace), Stop>
    ensures taken { IfOk result (λ taken. (program : Program)
        × IsImageOf (memory_size asked.now.execution.file.geometry) program taken.0
        × ReadsJudged (judge_asked asked.now) (F.state files.old) (F.state files.new) program
        taken.1 taken.2) }
    ensures form { IfOk result (λ taken. IsInForm asked.now.execution.file.geometry taken.2) }
    ensures stopped { IfErr result (λ stop.
        IsStoppedBy stop (judge_needs (judge_asked asked.now)) (F.state files.old)
        (F.state files.new)) }
    ensures held { (F.state files.new).held ≡ (F.state files.old).held }
    ensures quiet { OnOk result ((F.state files.new).faults ≡ (F.state files.old).faults) }
    ensures faults { (F.state files.old).faults ≤ (F.state files.new).faults }
{
    let (image, input) = take_execution(alloc, &asked.execution, files)?;
    let trace = take_trace(alloc, asked.trace, asked.execution.file.geometry, files)?;
    Ok((image, input, trace))
}

/// The program of a file, which has to be one for the memory.
pub fn take_program<F: Files>(
    alloc: Global,
    file: &ProgramFile<'_>,
    files: &mut F,
) -> Result<Image, Stop>
    ensures taken { IfOk result (λ image. (program : Program)
        × IsImageOf (memory_size file.now.geometry) program image
        × IsProgram (F.state files.old) (file_asked file.now) program) }
    ensures small { IfOk result (λ image. segment_bytes image.segments < 2 ^ 31) }
    ensures asked { OnOk result (Asks (program_need (file_asked file.now) ∷ []) (F.state files.old)
        (F.state files.new)) }
    ensures stopped { IfErr result (λ stop.
        IsStoppedBy stop (program_need (file_asked file.now) ∷ []) (F.state files.old)
        (F.state files.new)) }
    ensures held { (F.state files.new).held ≡ (F.state files.old).held }
    ensures quiet { OnOk result ((F.state files.new).faults ≡ (F.state files.old).faults) }
    ensures faults { (F.state files.old).faults ≤ (F.state files.new).faults }
    ensures bytes_taken { (F.state files.old).taken ≤ (F.state files.new).taken }
{
    let bytes = read_file(alloc, file.name, most_bytes(file.form), files)?;
    program_in(alloc, file.form, bytes.as_slice(), file.geometry.size())
}

/// The report of a file, or None where its tag is another than the device of the key gives.
pub fn take_report<F: Files>(
    alloc: Global,
    asked: &ReportFile<'_>,
    files: &mut F,
) -> Result<Option<Signed>, Stop>
    ensures taken { IfOk result (λ signed. (text : List ℕ)
        × ReadsReport (report_asked asked.now) (F.state files.old) (F.state files.new) text
        × IsVerdict asked.now.device_key text signed) }
    ensures stopped { IfErr result (λ stop.
        IsStoppedBy stop (report_need (report_asked asked.now) ∷ []) (F.state files.old)
        (F.state files.new)) }
    ensures held { (F.state files.new).held ≡ (F.state files.old).held }
    ensures quiet { OnOk result ((F.state files.new).faults ≡ (F.state files.old).faults) }
    ensures faults { (F.state files.old).faults ≤ (F.state files.new).faults }
{
    let text = read_file(alloc, asked.name, REPORT_LIMIT, files)?;
    report_in(text.as_slice(), &asked.device_key)
}

// The report that a text is, or None where its tag is another than the device of the key gives.
fn report_in(text: &[u8], device_key: &[u8; 32]) -> Result<Option<Signed>, Stop>
    ensures verdict { IfOk result (IsVerdict device_key.now text.now) }
    ensures formed { OnOk result (form_fault (verdict_of device_key.now text.now) ≡ None) }
    ensures refused { IfErr result (λ stop. (refusal : Refusal) × (stop ≡ Refused refusal)
        × (form_fault (verdict_of device_key.now text.now) ≡ Some refusal)) }
{
    let key = derive(device_key).report_key;
    match verify(text, &key) {
        Ok(signed) => Ok(Some(signed)),
        Err(fault) => match fault {
            ReportError::Tag => Ok(None),
            _ => Err(Stop::Refused(Refusal::Report(fault))),
        },
    }
}

// The script of the adversary, where one is named. It has to fit the memory.
pub(crate) fn take_script<F: Files>(
    alloc: Global,
    name: Option<&str>,
    geometry: Geometry,
    files: &mut F,
) -> Result<Option<Script>, Stop>
    ensures taken { IfOk result
        (IsScript (F.state files.old) geometry (option_map (λ n. n.now) name.entry)) }
    ensures fits { IfOk result (λ script. IfSome script (FitScript geometry)) }
    ensures asked { OnOk result
        (Asks (script_needs geometry (option_map (λ n. n.now) name.entry)) (F.state files.old)
        (F.state files.new)) }
    ensures stopped { IfErr result (λ stop.
        IsStoppedBy stop (script_needs geometry (option_map (λ n. n.now) name.entry))
        (F.state files.old) (F.state files.new)) }
    ensures held { (F.state files.new).held ≡ (F.state files.old).held }
    ensures quiet { OnOk result ((F.state files.new).faults ≡ (F.state files.old).faults) }
    ensures faults { (F.state files.old).faults ≤ (F.state files.new).faults }
    ensures bytes_taken { (F.state files.old).taken ≤ (F.state files.new).taken }
{
    let Some(name) = name else {
        return Ok(None);
    };
    let text = read_file(alloc, name, SCRIPT_LIMIT, files)?;
    Ok(Some(parse(alloc, text.as_slice(), geometry)?))
}

// The bytes of the input's file, where one is named.
fn take_input<F: Files>(alloc: Global, name: Option<&str>, files: &mut F) -> Result<Bytes, Stop>
    ensures taken { IfOk result (IsInput (F.state files.old) (option_map (λ n. n.now) name.entry)) }
    ensures asked { OnOk result
        (Asks (input_needs (option_map (λ n. n.now) name.entry)) (F.state files.old)
        (F.state files.new)) }
    ensures stopped { IfErr result (λ stop.
        IsStoppedBy stop (input_needs (option_map (λ n. n.now) name.entry)) (F.state files.old)
        (F.state files.new)) }
    ensures held { (F.state files.new).held ≡ (F.state files.old).held }
    ensures quiet { OnOk result ((F.state files.new).faults ≡ (F.state files.old).faults) }
    ensures faults { (F.state files.old).faults ≤ (F.state files.new).faults }
    ensures bytes_taken { (F.state files.old).taken ≤ (F.state files.new).taken }
{
    let Some(name) = name else {
        return Ok(Bytes::new(alloc));
    };
    read_file(alloc, name, INPUT_LIMIT, files)
}

// The trace of a file, which has to be one of a memory of this shape.
fn take_trace<F: Files>(
    alloc: Global,
    name: &str,
    geometry: Geometry,
    files: &mut F,
) -> Result<Trace, Stop>
    ensures taken { IfOk result (IsTraceFile (F.state files.old) geometry name.now) }
    ensures form { IfOk result (IsInForm geometry) }
    ensures asked { OnOk result (Asks (trace_need geometry name.now ∷ []) (F.state files.old)
        (F.state files.new)) }
    ensures stopped { IfErr result (λ stop.
        IsStoppedBy stop (trace_need geometry name.now ∷ []) (F.state files.old)
        (F.state files.new)) }
    ensures held { (F.state files.new).held ≡ (F.state files.old).held }
    ensures quiet { OnOk result ((F.state files.new).faults ≡ (F.state files.old).faults) }
    ensures faults { (F.state files.old).faults ≤ (F.state files.new).faults }
{
    let bytes = read_file(alloc, name, TRACE_LIMIT, files)?;
    Ok(bus_trace::parse(alloc, bytes.as_slice(), geometry)?)
}

// A file's bytes, which are within the limit.
pub(crate) fn read_file<F: Files>(
    alloc: Global,
    name: &str,
    limit: u64,
    files: &mut F,
) -> Result<Bytes, Stop>
    ensures bytes { IfOk result (HasBytes (F.state files.old).held name.now) }
    ensures within { IfOk result (λ bytes. length bytes ≤ limit) }
    ensures asked { OnOk result ((F.state files.new).asked
        ≡ (F.state files.old).asked ++ name.now ∷ []) }
    ensures stopped { IfErr result (λ stop. (fault : List ℕ → Option Refusal) → IsStoppedBy stop
        (record { name = name.now; limit = limit; fault = fault } ∷ []) (F.state files.old)
        (F.state files.new)) }
    ensures held { (F.state files.new).held ≡ (F.state files.old).held }
    ensures quiet { OnOk result ((F.state files.new).faults ≡ (F.state files.old).faults) }
    ensures faults { (F.state files.old).faults ≤ (F.state files.new).faults }
    ensures bytes_taken { (F.state files.old).taken ≤ (F.state files.new).taken }
{
    Ok(files.read(alloc, name, limit)?)
}
