// The counters of a page.
ghost use Rattle.std.specs.Prelude.{◌≡◌, ◌≢◌, ◌↔◌, ℕ, ◌+◌, ◌^◌, ◌<◌, ◌≤◌, replicate, slice_index};
ghost use Rattle.sec_base.specs.declared.counter.Counter.{Counter};
ghost use Rattle.split_counter.specs.declared.bumped.Bumped.TheVariants.{Line, Page, Spent};
ghost use Rattle.split_counter.specs.CounterBlock.{IsCounterBlock, HasLineBits, after_bump, block_bytes, block_of, bumped, counter_number, counter_of, new_block, place_of};

use crate::bumped::Bumped;
use crate::packing::{bytes_of, line_counters, page_counter};
use sec_base::{Counter, LINES_PER_PAGE};
use std::marker::Model;

/// The counters of a page: a page counter of 64 bits, and a line counter of 7 bits for each of its 64 lines, by their
/// places in the page.
#[derive(Clone, Copy, Debug, PartialEq, Eq)]
pub struct CounterBlock {
    page: u64,
    lines: [u8; 64],
}

impl Model for CounterBlock {
    ghost use Rattle.split_counter.specs.CounterBlock.{CounterBlockView, IsCounterBlock};

    ghost Value = { CounterBlockView };

    ghost view = { λ block. record { page = block.page; lines = block.lines } };

    ghost invariant = { λ block. IsCounterBlock (record { page = block.page; lines = block.lines }) };

    ghost inverse = { λ seen. record { page = seen.page; lines = seen.lines } };
}

impl CounterBlock {
    /// The counters of a page that no line of was written: all of them are 0.
    pub fn new() -> CounterBlock
        ensures counters { result ≡ new_block }
        ensures bytes { block_bytes result ≡ replicate 64 0 }
    {
        CounterBlock::unwritten(0)
    }

    /// The counters that 64 bytes spell. Bytes 0 to 7 are the page counter, the lowest byte first. The line counter of
    /// place i takes bits 7 i to 7 i + 6 of bytes 8 to 63, where bit k stands in byte 8 + k / 8 at binary place k % 8,
    /// and its lowest bit comes first. Any 64 bytes spell a block, and no others spell the same one.
    pub fn from_bytes(bytes: &[u8; 64]) -> CounterBlock
        ensures counters { result ≡ block_of bytes.now }
        ensures line_bits { HasLineBits bytes.now result.lines }
        ensures written_back { block_bytes result ≡ bytes.now }
        ensures is_block { IsCounterBlock result }
    {
        CounterBlock {
            page: page_counter(bytes),
            lines: line_counters(bytes),
        }
    }

    /// The 64 bytes that spell the counters, as `from_bytes` reads them.
    pub fn to_bytes(&self) -> [u8; 64]
        ensures bytes { result ≡ block_bytes self.now }
        ensures line_bits { HasLineBits result self.now.lines }
        ensures read_back { block_of result ≡ self.now }
    {
        bytes_of(self.page, &self.lines)
    }

    /// The counter of the line at a place: the page counter, and its own line counter.
    pub fn get(&self, place: u8) -> Counter
        requires { place < 64 }
        ensures counter { result ≡ counter_of place self.now }
        ensures page { result.page < 2 ^ 64 }
        ensures fits { result.line < 128 }
        ensures is_block { IsCounterBlock self.now }
    {
        Counter {
            page: self.page,
            line: self.lines[place as usize],
        }
    }

    /// Counts a write of the line at a place. A line counter that stands at 127 raises the page counter in place of
    /// itself, and all line counters begin again at 0. Where the page counter has reached the limit, the line is spent
    /// and nothing changes. `Bumped::of` tells beforehand what it comes to.
    #[tactic(auto, using(crate::proofs::Zeros::line_of_zeros), unfolding(crate::specs::CounterBlock::after_bump))]
    pub fn bump(&mut self, place: u8, limit: u64) -> Bumped
        requires { place < 64 }
        ensures outcome { result ≡ bumped limit (counter_of place self.old) }
        ensures counters { self.new ≡ (after_bump place limit self.old).1 }
        ensures is_block { IsCounterBlock self.new }

        // An ordinary write changes the line counter of that place alone.
        ensures line { (counter : Counter) → result ≡ Line counter →
            counter ≡ counter_of place self.new }
        ensures page_stays { (counter : Counter) → result ≡ Line counter →
            self.new.page ≡ self.old.page }
        ensures others_stay { (counter : Counter) (other : ℕ) → result ≡ Line counter →
            other ≢ place →
            slice_index self.new.lines other ≡ slice_index self.old.lines other }

        ensures overflow { (page : ℕ) → result ≡ Page page → (page ≡ self.old.page + 1)
            × (self.new ≡ record { page = page; lines = replicate 64 0 }) }

        ensures spent { (result ≡ Spent) ↔
            ((slice_index self.old.lines place ≡ 127) × (limit ≤ self.old.page)) }
        ensures spent_stays { result ≡ Spent → self.new ≡ self.old }

        // The line's counter, page and line counter as one number, goes up by one.
        ensures next { result ≢ Spent →
            counter_number (counter_of place self.new)
            ≡ counter_number (counter_of place self.old) + 1 }
    {
        let outcome = Bumped::of(self.get(place), limit);
        match outcome {
            Bumped::Line(counter) => self.lines[place as usize] = counter.line,
            Bumped::Page(page) => *self = CounterBlock::unwritten(page),
            Bumped::Spent => {}
        }
        outcome
    }

    // A page counter under which no line was written.
    fn unwritten(page: u64) -> CounterBlock
        ensures counters { result ≡ record { page = page; lines = replicate 64 0 } }
        ensures is_block { IsCounterBlock result }
    {
        CounterBlock {
            page,
            lines: [0; 64],
        }
    }
}

/// The place of a line in its page.
pub fn place_of(line: u32) -> u8
    ensures place { result ≡ place_of line }
    ensures inside { result < 64 }
{
    (line % LINES_PER_PAGE) as u8
}
