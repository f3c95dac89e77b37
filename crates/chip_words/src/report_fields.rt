// What a report says, as lines.
ghost use Rattle.std.specs.Prelude.{◌≡◌, ◌≤◌, map, string_bytes, IfOk, OnOk};
ghost use Rattle.std.specs.List.{concat};
ghost use Rattle.sec_base.specs.Sink.{IsWritten};
ghost use Rattle.chip_words.specs.Texts as spec;

use crate::lines::{hex_line, retired_line, write_lines};
use attest_report::{Report, Signed, layout_number};
use sec_base::{Layout, Sink, SinkStop};
use std::alloc::{AllocError, Global};

/// Writes what a report says, a line at a time. After an error no further line is written.
pub fn write_fields<O: Sink>(alloc: Global, signed: &Signed, out: &mut O) -> Result<(), SinkStop>
    ensures told { IsWritten (spec.report_text signed.now) (O.state out.old) (O.state out.new)
        result }
    ensures faults { (O.state out.old).faults ≤ (O.state out.new).faults }
    ensures quiet { OnOk result ((O.state out.new).faults ≡ (O.state out.old).faults) }
{
    let lines = field_lines(alloc, &signed.report)?;
    write_lines(out, &lines)?;
    write_layout(alloc, &signed.layout, out)
}

// The layout, where the report names one.
fn write_layout<O: Sink>(
    alloc: Global,
    layout: &Option<Layout>,
    out: &mut O,
) -> Result<(), SinkStop>
    ensures told { IsWritten (concat (spec.layout_lines layout.now)) (O.state out.old)
        (O.state out.new) result }
    ensures faults { (O.state out.old).faults ≤ (O.state out.new).faults }
    ensures quiet { OnOk result ((O.state out.new).faults ≡ (O.state out.old).faults) }
{
    match layout {
        Some(layout) => write_lines(out, &[layout_line(alloc, *layout)?]),
        None => Ok(()),
    }
}

fn layout_line(alloc: Global, layout: Layout) -> Result<String, AllocError>
    ensures { IfOk result (λ line. string_bytes line ≡ spec.layout_line layout) }
{
    let number = layout_number(layout);
    format!(in alloc; "layout {number}\n")
}

fn field_lines(alloc: Global, report: &Report) -> Result<[String; 6], AllocError>
    ensures { IfOk result (λ lines. map string_bytes lines ≡ spec.field_lines report.now) }
{
    Ok([
        hex_line(alloc, "measurement", &report.measurement)?,
        hex_line(alloc, "input", &report.input_digest)?,
        hex_line(alloc, "output", &report.output_digest)?,
        retired_line(alloc, report.retired)?,
        told_ending_line(alloc, report)?,
        hex_line(alloc, "nonce", &report.nonce)?,
    ])
}

fn told_ending_line(alloc: Global, report: &Report) -> Result<String, AllocError>
    ensures { IfOk result (λ line. string_bytes line ≡ spec.told_ending_line report.now) }
{
    let ending = report.ending;
    let code = report.code;
    format!(in alloc; "ending {ending} code {code}\n")
}
