ghost use Rattle.std.specs.Prelude.{◌≡◌, ◌+◌, ◌≤◌, ℕ, List, [], All, length, if◌then◌else◌};
ghost use Rattle.sha2.specs.Hashers.{Holds256};
ghost use Rattle.sha2.specs.Sha256.{sha256};
ghost use Rattle.sec_base.specs.Count.{more_by};
ghost use Rattle.sec_base.specs.Segment.{IsSegment};
ghost use Rattle.sec_base.specs.Opening.{first_break as break_after, segments_end as end_of};

use crate::taken::Taken;
use sec_base::{Image, Segment};
use std::marker::Model;

/// What the services know of a run: its input, how much of it was read, and the program's break. With it goes what the
/// sink took.
#[derive(Drop)]
pub struct Calls<'a> {
    input: &'a [u8],
    position: usize,
    first_break: u32,
    brk: u32,
    taken: Taken,
}

impl<'a> Model for Calls<'a> {
    ghost use Rattle.std.specs.Prelude.{◌≤◌, length};
    ghost use Rattle.rv32_core.specs.State.{CallsView};

    ghost Value = { CallsView };

    ghost view = { λ calls. record {
      services = record {
        input = calls.input.now;
        position = calls.position;
        first_break = calls.first_break;
        brk = calls.brk;
      };
      taken = calls.taken;
    } };

    ghost invariant = { λ calls. calls.position ≤ length calls.input.now };
}

impl<'a> Calls<'a> {
    ghost use Rattle.rv32_core.specs.Machine.{opening_calls};
    ghost use Rattle.rv32_core.specs.Printing.{Digests, HoldsTaken};
    ghost use Rattle.rv32_core.specs.Services.{next_input, with_position, is_break, with_break};

    /// The services of a program that begins with this input. The sink took nothing yet.
    pub fn new(input: &'a [u8], image: &Image) -> Calls<'a>
        ensures services { result.services ≡ opening_calls image.now.segments input.now }
        ensures nothing_taken { HoldsTaken result.taken [] }
    {
        let first_break = first_break(image);
        Calls {
            input,
            position: 0,
            first_break,
            brk: first_break,
            taken: Taken::new(),
        }
    }

    /// The SHA-256 of what the sink took.
    pub fn finish(self) -> [u8; 32]
        ensures { (bytes : List ℕ) → Holds256 self.entry.taken.digest bytes →
            result ≡ sha256 bytes }
    {
        let Calls {
            input: _,
            position: _,
            first_break: _,
            brk: _,
            taken,
        } = self;
        taken.finish()
    }

    /// How many bytes the sink took. The count stands still at 2^64 - 1.
    pub fn printed(&self) -> u64
        ensures { (bytes : List ℕ) → HoldsTaken self.now.taken bytes →
            result ≡ more_by (length bytes) 0 }
    {
        self.taken.count()
    }

    /// The sink took these bytes.
    pub(crate) fn digest(&mut self, bytes: &[u8])
        ensures services { self.new.services ≡ self.old.services }
        ensures digest { Digests self.old.taken bytes.now self.new.taken }
    {
        self.taken.add(bytes);
    }

    /// The next bytes of the input, at most so many.
    pub(crate) fn next_bytes(&self, count: u32) -> &[u8]
        ensures bytes { result.now ≡ next_input self.now.services count }
        ensures left { self.now.services.position + length result.now
            ≤ length self.now.services.input }
    {
        let rest = &self.input[self.position..];
        &rest[..rest.len().min(count as usize)]
    }

    /// So many bytes of the input were read.
    pub(crate) fn advance(&mut self, count: usize)
        requires { self.old.services.position + count ≤ length self.old.services.input }
        ensures services { self.new.services
            ≡ with_position self.old.services (self.old.services.position + count) }
        ensures taken { self.new.taken ≡ self.old.taken }
    {
        self.position += count;
    }

    /// Moves the break to an address where it may stand, and returns the break.
    pub(crate) fn move_break(&mut self, address: u32, size: u32) -> u32
        ensures answer { result
            ≡ (if is_break self.old.services size address then address else self.old.services.brk) }
        ensures moved { self.new.services ≡ with_break self.old.services result }
        ensures taken { self.new.taken ≡ self.old.taken }
    {
        if self.first_break <= address && u64::from(address) + 4096 <= u64::from(size) {
            self.brk = address;
        }
        self.brk
    }
}

// Where the program's break is at first: the greatest end of a segment, rounded up to a multiple of 16.
#[tactic(auto, unfolding(sec_base::specs::Opening::first_break))]
fn first_break(image: &Image) -> u32
    ensures { result ≡ break_after image.now.segments }
{
    (segments_end(image.segments.as_slice(), image.size) + 15) / 16 * 16
}

// The greatest end of a segment.
fn segments_end(segments: &[Segment], size: u32) -> u32
    requires { All (IsSegment size) segments.now }
    ensures end { result ≡ end_of segments.now }
    ensures inside { result ≤ size }
{
    let mut end = 0;
    for segment in segments {
        end = end.max(segment.addr + segment.length);
    }
    end
}
