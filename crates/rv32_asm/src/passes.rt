// The two passes over the lines of a text: the first finds where the labels stand, the second makes the bytes.

ghost use Rattle.rv32_asm.specs.Emission.{with_more};
ghost use Rattle.rv32_asm.specs.PassSteps.{Gives, IsNextLine, LeadsTo, behind_line, end_of, error_in_line};
ghost use Rattle.rv32_asm.specs.Passes as spec;
ghost use Rattle.rv32_asm.specs.declared.fault.AsmError.TheVariants as error;
ghost use Rattle.rv32_asm_syntax.specs.Lines.{labels_in, lines_of};
ghost use Rattle.rv32_asm_syntax.specs.Parts.{parts};
ghost use Rattle.rv32_asm_syntax.specs.declared.fault.AsmFault.{AsmFault};
ghost use Rattle.rv32_asm_syntax.specs.declared.fault.LineError.TheVariants.{Fault};
ghost use Rattle.std.specs.Prelude.{Err, IfOk, IfSome, IsOkAnd, None, Ok, OnOk, [], length, ℕ, ◌+◌, ◌<◌, ◌^◌, ◌≡◌, ◌≤◌};

use crate::fault::AsmError;
use crate::labels::{Labels, Site};
use crate::{emission, layout};
use rv32_asm_syntax::{LineError, first_label, first_line, statement_of, without_comment};
use std::alloc::Global;

/// How far the first pass came: the address that it reached, and the labels on the way.
#[derive(Drop)]
pub struct Progress<'a> {
    pub address: u32,
    pub labels: Labels<'a>,
}

/// Where the labels of a text stand, and the address where its bytes end, or its first fault.
pub fn lay_out<'a>(alloc: Global, text: &'a [u8], size: u32) -> Result<Progress<'a>, AsmError>
    requires short { length text.now < 2 ^ 32 }
    ensures reached { IfOk result (λ progress. LeadsTo
        (spec.first_pass size 1 spec.start (lines_of text.now))
        progress.address
        progress.labels) }
    ensures inside { IfOk result (λ progress. progress.address ≤ size) }
    ensures refused { (line : ℕ) (code : AsmFault) → result ≡ Err (error.Fault line code) →
        spec.first_pass size 1 spec.start (lines_of text.now)
        ≡ Err (record { line = line; code = code }) }
{
    let mut progress = Progress {
        address: 0,
        labels: Labels::new(alloc),
    };
    let mut lines = NumberedLines::new(text);
    while let Some((number, line)) = lines.next() {
        match after_line(alloc, size, number, progress, line) {
            Ok(after) => progress = after,
            Err(error) => return Err(in_line(number, error)),
        }
    }
    Ok(progress)
}

// What a line leaves.
fn after_line<'a>(
    alloc: Global,
    size: u32,
    number: u32,
    progress: Progress<'a>,
    line: &'a [u8],
) -> Result<Progress<'a>, LineError>
    ensures after { IfOk result (λ after. LeadsTo
        (spec.after_line size number
        (record { address = progress.entry.address; labels = progress.entry.labels }) line.now)
        after.address
        after.labels) }
    ensures inside { IfOk result (λ after. after.address ≤ size) }
    ensures refused { (fault : AsmFault) → result ≡ Err (Fault fault) →
        spec.after_line size number
        (record { address = progress.entry.address; labels = progress.entry.labels }) line.now
        ≡ Err fault }
{
    let Progress {
        address,
        mut labels,
    } = progress;
    let site = Site {
        address,
        line: number,
    };
    add_labels(&mut labels, without_comment(line), site)?;
    let statement = statement_of(alloc, line)?;
    match layout::address_after(size, address, &statement) {
        Ok(address) => Ok(Progress { address, labels }),
        Err(fault) => Err(LineError::Fault(fault)),
    }
}

// Adds the labels of a line without its comment.
fn add_labels<'a>(labels: &mut Labels<'a>, text: &'a [u8], site: Site) -> Result<(), LineError>
    ensures added { OnOk result (Gives
        (spec.with_names site.address site.line (labels_in (parts text.now)) labels.old)
        labels.new) }
    ensures refused { (fault : AsmFault) → result ≡ Err (Fault fault) →
        spec.with_names site.address site.line (labels_in (parts text.now)) labels.old ≡ Err fault }
{
    let mut rest = text;
    while let Some((name, behind)) = first_label(rest) {
        labels.add(name, site)?;
        rest = behind;
    }
    Ok(())
}

/// The bytes of a text whose labels are known, and which ends at an address, or its first fault.
pub fn bytes_of(alloc: Global, text: &[u8], labels: &Labels, end: u32) -> Result<Vec<u8>, AsmError>
    requires short { length text.now < 2 ^ 32 }
    requires end { end_of 0 (lines_of text.now) ≡ Ok end }
    ensures bytes { IfOk result (λ bytes. spec.second_pass labels.now 1 [] (lines_of text.now)
        ≡ Ok bytes.items) }
    ensures length { IfOk result (λ bytes. length bytes.items ≡ end) }
    ensures refused { (line : ℕ) (code : AsmFault) → result ≡ Err (error.Fault line code) →
        spec.second_pass labels.now 1 [] (lines_of text.now)
        ≡ Err (record { line = line; code = code }) }
{
    let mut bytes = Vec::with_capacity(alloc, end as usize)?;
    let mut lines = NumberedLines::new(text);
    while let Some((number, line)) = lines.next() {
        if let Err(error) = put_line(alloc, &mut bytes, labels, line) {
            return Err(in_line(number, error));
        }
    }
    Ok(bytes)
}

// Adds the bytes of a line that ends inside the memory.
fn put_line(
    alloc: Global,
    bytes: &mut Vec<u8>,
    labels: &Labels,
    line: &[u8],
) -> Result<(), LineError>
    requires { IsOkAnd (behind_line (length bytes.old.items) line.now) (λ next. next < 2 ^ 32) }
    ensures ok { OnOk result
        (with_more bytes.old.items (spec.line_bytes labels.now (length bytes.old.items) line.now)
        ≡ Ok bytes.new.items) }
    ensures length { OnOk result (behind_line (length bytes.old.items) line.now
        ≡ Ok (length bytes.new.items)) }
    ensures refused { (fault : AsmFault) → result ≡ Err (Fault fault) →
        spec.line_bytes labels.now (length bytes.old.items) line.now ≡ Err fault }
{
    let statement = statement_of(alloc, line)?;
    emission::emit(bytes, labels, &statement)
}

// An error in the line of a number.
fn in_line(number: u32, error: LineError) -> AsmError
    ensures { result ≡ error_in_line number error }
{
    match error {
        LineError::Fault(code) => AsmError::Fault { line: number, code },
        LineError::NoMemory => AsmError::NoMemory,
    }
}

// The lines of a text that are left, and how many came before them.
#[derive(Drop)]
struct NumberedLines<'a> {
    rest: &'a [u8],
    number: u32,
}

impl<'a> NumberedLines<'a> {
    // All lines of a text.
    fn new(text: &'a [u8]) -> Self
        ensures rest { result.rest.now ≡ text.now }
        ensures number { result.number ≡ 0 }
    {
        NumberedLines {
            rest: text,
            number: 0,
        }
    }

    // The next line and its number, counted from 1, where there is one.
    fn next(&mut self) -> Option<(u32, &'a [u8])>
        requires { self.old.number + length self.old.rest.now < 2 ^ 32 }
        ensures line { IfSome result (λ next. IsNextLine self.old.rest.now next.1.now
            self.new.rest.now) }
        ensures number { IfSome result (λ next. next.0 ≡ self.old.number + 1) }
        ensures counted { IfSome result (λ next. self.new.number ≡ next.0) }
        ensures shorter { IfSome result (λ next. length self.new.rest.now
            < length self.old.rest.now) }
        ensures none { result ≡ None → length self.old.rest.now ≡ 0 }
    {
        if self.rest.is_empty() {
            return None;
        }
        let (line, rest) = first_line(self.rest);
        self.rest = rest.unwrap_or(&[]);
        self.number += 1;
        Some((self.number, line))
    }
}
