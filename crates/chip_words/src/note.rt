// What is told of a run.
ghost use Rattle.std.specs.Prelude.{◌≡◌, ◌≤◌, [], ◌∷◌, map, IfOk, string_bytes, OnOk};
ghost use Rattle.std.specs.List.{concat};
ghost use Rattle.sec_base.specs.Sink.{IsWritten};
ghost use Rattle.chip_words.specs.Texts as spec;

use crate::evidence_lines::evidence_lines;
use crate::lines::{ending_line, hex_line, retired_line, write_lines};
use sec_base::{Ending, Evidence, Messages, Sink, SinkStop};
use std::alloc::{AllocError, Global};

/// What is told of a run on protected memory.
#[derive(Debug, Drop)]
pub struct RunNote<'a> {
    /// How it ended.
    pub ending: Ending,
    /// How many instructions were retired.
    pub retired: u64,
    /// How many answers of the bus were false.
    pub lies: u64,
    /// What was tagged, in order.
    pub made: &'a Messages,
    /// What passed a check though it was never tagged, if something did.
    pub evidence: Option<Evidence>,
    /// The signed report of the run, if there is one.
    pub report: Option<[u8; 159]>,
}

/// Tells of a run on the plain machine, a line at a time: how it ended, and how many instructions were retired.
pub fn tell_plain<N: Sink>(
    alloc: Global,
    ending: Ending,
    retired: u64,
    note: &mut N,
) -> Result<(), SinkStop>
    ensures told { IsWritten (spec.plain_text ending retired) (N.state note.old) (N.state note.new)
        result }
    ensures faults { (N.state note.old).faults ≤ (N.state note.new).faults }
    ensures quiet { OnOk result ((N.state note.new).faults ≡ (N.state note.old).faults) }
{
    let lines = plain_lines(alloc, ending, retired)?;
    write_lines(note, &lines)
}

fn plain_lines(alloc: Global, ending: Ending, retired: u64) -> Result<[String; 2], AllocError>
    ensures { IfOk result (λ lines. concat (map string_bytes lines)
        ≡ spec.plain_text ending retired) }
{
    Ok([ending_line(alloc, ending)?, retired_line(alloc, retired)?])
}

/// Tells of a run on protected memory, a line at a time. After an error no further line is written.
pub fn tell_run<N: Sink>(alloc: Global, run: &RunNote<'_>, note: &mut N) -> Result<(), SinkStop>
    ensures told { IsWritten
        (spec.record_text run.now.ending run.now.retired run.now.lies run.now.made.now
        run.now.evidence run.now.report)
        (N.state note.old) (N.state note.new) result }
    ensures faults { (N.state note.old).faults ≤ (N.state note.new).faults }
    ensures quiet { OnOk result ((N.state note.new).faults ≡ (N.state note.old).faults) }
{
    let lines = run_lines(alloc, run)?;
    write_lines(note, &lines)?;
    tell_evidence(alloc, run.made, &run.evidence, note)?;
    tell_report(alloc, &run.report, note)
}

// How the run ended, how many instructions were retired, and how many answers were false.
fn run_lines(alloc: Global, run: &RunNote<'_>) -> Result<[String; 3], AllocError>
    ensures { IfOk result (λ lines. map string_bytes lines
        ≡ spec.ending_line run.now.ending ∷ spec.retired_line run.now.retired ∷ spec.lies_line
        run.now.lies ∷ []) }
{
    Ok([
        ending_line(alloc, run.ending)?,
        retired_line(alloc, run.retired)?,
        lies_line(alloc, run.lies)?,
    ])
}

// The evidence of a false answer, where there is any.
fn tell_evidence<N: Sink>(
    alloc: Global,
    made: &Messages,
    evidence: &Option<Evidence>,
    note: &mut N,
) -> Result<(), SinkStop>
    ensures told { IsWritten (concat (spec.shown_lines made.now evidence.now)) (N.state note.old)
        (N.state note.new) result }
    ensures faults { (N.state note.old).faults ≤ (N.state note.new).faults }
    ensures quiet { OnOk result ((N.state note.new).faults ≡ (N.state note.old).faults) }
{
    match evidence {
        Some(evidence) => {
            let lines = evidence_lines(alloc, made, evidence)?;
            write_lines(note, &lines)
        }
        None => Ok(()),
    }
}

// The report of the run, where it has one.
fn tell_report<N: Sink>(
    alloc: Global,
    report: &Option<[u8; 159]>,
    note: &mut N,
) -> Result<(), SinkStop>
    ensures told { IsWritten (concat (spec.report_lines report.now)) (N.state note.old)
        (N.state note.new) result }
    ensures faults { (N.state note.old).faults ≤ (N.state note.new).faults }
    ensures quiet { OnOk result ((N.state note.new).faults ≡ (N.state note.old).faults) }
{
    match report {
        Some(report) => write_lines(note, &[hex_line(alloc, "report", report)?]),
        None => Ok(()),
    }
}

/// The line between the texts of two programs that shared the core.
pub fn second_line() -> &'static str
    ensures { result.now ≡ spec.second_line }
{
    "second\n"
}

fn lies_line(alloc: Global, lies: u64) -> Result<String, AllocError>
    ensures { IfOk result (λ line. string_bytes line ≡ spec.lies_line lies) }
{
    format!(in alloc; "lies {lies}\n")
}
