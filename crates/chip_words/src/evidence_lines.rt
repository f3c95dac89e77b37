// The lines that tell of evidence.
ghost use Rattle.std.specs.Prelude.{◌≡◌, codes, map, string_bytes, IfOk};
ghost use Rattle.chip_words.specs.Texts as spec;

use crate::lines::hex_line;
use sec_base::{Counter, Evidence, Message, Messages, Place};
use std::alloc::{AllocError, Global};

/// The lines of evidence, by the messages that were made.
pub(crate) fn evidence_lines(
    alloc: Global,
    made: &Messages,
    evidence: &Evidence,
) -> Result<[String; 4], AllocError>
    ensures { IfOk result (λ lines. map string_bytes lines
        ≡ spec.evidence_lines made.now evidence.now) }
{
    match evidence {
        Evidence::Forgery {
            line,
            counter,
            sealed,
            ..
        } => Ok([
            forgery_line(alloc, *line)?,
            counter_line(alloc, *counter)?,
            hex_line(alloc, "cipher", &sealed.cipher)?,
            hex_line(alloc, "tag", &sealed.tag)?,
        ]),
        Evidence::Collision {
            level,
            index,
            made_at,
            accepted,
            tag,
        } => Ok([
            collision_line(alloc, *level, *index)?,
            made_line(alloc, made.get(*made_at))?,
            hex_line(alloc, "accepted", accepted)?,
            hex_line(alloc, "tag", tag)?,
        ]),
    }
}

fn forgery_line(alloc: Global, line: u32) -> Result<String, AllocError>
    ensures { IfOk result (λ text. string_bytes text ≡ spec.forgery_line line) }
{
    let place = Place::Line(line);
    format!(in alloc; "evidence forgery {place}\n")
}

fn collision_line(alloc: Global, level: u8, index: u32) -> Result<String, AllocError>
    ensures { IfOk result (λ text. string_bytes text ≡ spec.collision_line level index) }
{
    let place = Place::Node { level, index };
    format!(in alloc; "evidence collision {place}\n")
}

fn counter_line(alloc: Global, counter: Counter) -> Result<String, AllocError>
    ensures { IfOk result (λ text. string_bytes text ≡ spec.counter_line counter) }
{
    let Counter { page, line } = counter;
    format!(in alloc; "counter {page} {line}\n")
}

// The block of a node's message.
fn made_line(alloc: Global, message: Option<Message>) -> Result<String, AllocError>
    ensures { IfOk result (λ text. string_bytes text
        ≡ spec.hex_line (codes "made") (spec.block_in message)) }
{
    match message {
        Some(Message::Node { block, .. }) => hex_line(alloc, "made", &block),
        Some(Message::Line { .. }) | None => hex_line(alloc, "made", &[]),
    }
}
