// The lines of the protected memory: they stand outside the chip, encrypted, each with a tag beside it. Their counters
// stand outside too, below a tree whose root the chip keeps, and it keeps copies of those that were used last.
ghost use Rattle.std.specs.Prelude.{◌≡◌, ◌≢◌, ◌+◌, ◌^◌, ◌<◌, ◌≤◌, ◌⊎◌, ℕ, None, Some, Ok, Err, IfOk, IfErr, OnOk, OnErr, IfSome, Contains, length};
ghost use Rattle.std.specs.Result.{result_err};
ghost use Rattle.sec_base.specs.Evidence.{IsEvidence};
ghost use Rattle.sec_base.specs.Geometry.{line_count, page_of};
ghost use Rattle.sec_base.specs.Lines.{line_at, with_line};
ghost use Rattle.sec_base.specs.declared.counter.Counter.{Counter};
ghost use Rattle.sec_base.specs.declared.place.Place.TheVariants.{Line as line_place};
ghost use Rattle.sec_base.specs.declared.stop.MemStop.{MemStop};
ghost use Rattle.sec_base.specs.declared.stop.MemStop.TheVariants.{Tampered, Spent};
ghost use Rattle.bus_model.specs.BusHistory.{NothingWritten};
ghost use Rattle.tag_engine.specs.TagEngine.{tags_of};
ghost use Rattle.pad_stream.specs.PadBlocks.{ShareNoBlock};
ghost use Rattle.split_counter.specs.CounterBlock.{next_counter, place_of};
ghost use Rattle.counter_cache.specs.Counters.{cached_pages};
ghost use Rattle.page_reencrypt.specs.Contents.{counter_in};
ghost use Rattle.page_reencrypt.specs.Outside.{Accepts, AreConsistent, CountersFit, CountersSay, HasCounter, HaveLast, HaveLastNodes, HaveRisen, IsLineRead, IsWrite, terms_of};
ghost use Rattle.page_reencrypt.specs.LineMoves.{ReadMoved, WriteMoved, write_accesses, overflow_accesses};
ghost use Rattle.page_reencrypt.specs.SealedLines.{AreNew, AreOfPages, AreProtected, IsAcceptedInWrite, IsQuiet, LinesFit, contents, enc_key, evidence, geometry, lines_of, made, tag_in, used};
ghost use Rattle.page_reencrypt.specs.Stops.{lasting_stop};
ghost use Rattle.page_reencrypt.specs.UnderCounters.{ReadUnderCounters, WrittenUnderCounters};

use crate::account::Account;
use crate::outside::Outside;
use bus_model::Bus;
use counter_cache::Counters;
use pad_stream::PadEngine;
use sec_base::{Counter, Geometry, LineStore, MemStop, NoMemoryWith, Tagger, page_of};
use split_counter::{Bumped, place_of};
use std::alloc::Global;
use std::marker::Model;
use tag_engine::TagEngine;

/// A memory of lines that stand outside the chip, each encrypted under a counter of its own. The counters of a page are a
/// block that stands outside too, below the tree. The chip keeps copies of the blocks and of the nodes above them that were
/// used last: a line whose page has one is read and written without a read of its counters.
#[derive(Drop)]
pub struct SealedLines<B: Bus, T: Tagger> {
    outside: Outside<B, T>,
    counters: Counters,
    geometry: Geometry,
    page_limit: u64,
    stopped: Option<MemStop>,
}

impl<B: Bus, T: Tagger> Model for SealedLines<B, T> {
    ghost use Rattle.std.specs.Prelude.{◌≡◌};
    ghost use Rattle.page_reencrypt.specs.SealedLines.{AreProtected, SealedLinesView};

    ghost Value = { SealedLinesView B T };

    ghost use Rattle.page_reencrypt.specs.SealedLinesInside.{sealed_lines_view};

    ghost view = { sealed_lines_view };

    ghost invariant = { λ lines. (lines.geometry ≡ lines.outside.engine.geometry)
        × AreProtected T.data_tag_of T.node_tag_of B.history (sealed_lines_view lines) };
}

impl<B: Bus, T: Tagger> SealedLines<B, T> {
    /// A memory that was never written, over a bus to which nothing was written. It makes no access of the bus. Out of
    /// memory, the tagger is dropped, and the bus comes back.
    pub fn boot(
        alloc: Global,
        bus: B,
        tagger: T,
        enc_key: &[u8; 16],
        geometry: Geometry,
        page_limit: u64,
    ) -> Result<SealedLines<B, T>, NoMemoryWith<B>>
        requires geometry { (B.history bus).geometry ≡ geometry }
        requires nothing_written { NothingWritten (B.history bus) }

        ensures new { IfOk result (AreNew bus tagger enc_key.now geometry page_limit) }
        ensures fits { IfOk result (LinesFit T.data_tag_of T.node_tag_of B.history) }
        ensures refused { IfErr result (λ refusal. refusal.0 ≡ bus) }
    {
        let Ok(mut tags) = TagEngine::new(alloc, tagger, geometry) else {
            return Err(NoMemoryWith(bus));
        };
        let Ok(pads) = PadEngine::new(alloc, enc_key) else {
            return Err(NoMemoryWith(bus));
        };
        let mut bus = bus;
        let Ok(counters) = Counters::boot(alloc, geometry, &mut bus, &mut tags) else {
            return Err(NoMemoryWith(bus));
        };
        Ok(SealedLines {
            outside: Outside { bus, tags, pads },
            counters,
            geometry,
            page_limit,
            stopped: None,
        })
    }

    /// The stop that it answered last, if it did.
    pub fn stopped(&self) -> Option<MemStop>
        ensures { result ≡ self.now.stopped }
    {
        self.stopped
    }

    /// Drops the tagger, and returns what can be shown, and the bus.
    pub fn finish(self) -> (Account, B)
        ensures made { result.0.made ≡ made self }
        ensures used { result.0.used ≡ used self }
        ensures few { length result.0.used < 2 ^ 64 }
        ensures evidence { result.0.evidence ≡ evidence self }
        ensures bus { result.1 ≡ self.bus }

        // Where there is no evidence, no line and counter repeats, so no block of all their pads does.
        ensures apart { IsQuiet self → ShareNoBlock (enc_key self) result.0.used }

        // Evidence is what it says, and what holds between calls held to the end.
        ensures genuine { IfSome result.0.evidence
            (IsEvidence (tag_in T.data_tag_of T.node_tag_of self) result.0.made) }
        ensures protected { AreProtected T.data_tag_of T.node_tag_of B.history self }
    {
        let SealedLines {
            outside,
            counters: _counters,
            geometry: _,
            page_limit: _,
            stopped: _,
        } = self;
        let Outside { bus, tags, pads } = outside;
        let (made, evidence) = tags.finish();
        let account = Account {
            made,
            used: pads.finish(),
            evidence,
        };
        (account, bus)
    }
}

impl<B: Bus, T: Tagger> LineStore for SealedLines<B, T> {
    ghost use Rattle.page_reencrypt.specs.LineLengths.{length-contents_of};

    ghost contents = { λ lines. contents lines };

    ghost extent = { λ lines. lines_of lines };

    ghost sound = { λ lines. IsQuiet lines };

    ghost stopped = { λ lines. lines.stopped };

    ghost read_moved = { λ before line answer after.
        ReadMoved B.history B.moved (tags_of T.data_tag_of T.node_tag_of) before line answer after };

    ghost write_moved = { λ before line bytes answer after.
        WriteMoved B.history B.moved (tags_of T.data_tag_of T.node_tag_of) before line bytes answer after };

    fn lines(&self) -> u32 {
        self.geometry.lines()
    }

    // A line that was never written is zeros, without an access to its place.
    fn read_line(&mut self, line: u32) -> Result<[u8; 64], MemStop>
        requires inside { line < lines_of self.old }

        ensures value { lasting_stop self.old.stopped ≡ None → IsQuiet self.new →
            IfOk result (λ bytes. bytes ≡ line_at (contents self.old) line) }
        ensures contents { contents self.new ≡ contents self.old }

        ensures goes_on { OnOk result (self.new.stopped ≡ self.old.stopped) }
        ensures stops { IfErr result (λ stop. self.new.stopped ≡ Some stop) }

        ensures extent { lines_of self.new ≡ lines_of self.old }
        ensures lost { IsQuiet self.new → IsQuiet self.old }

        // What it made of bus, tag engine, counters and caches, and what was answered with evidence too.
        ensures moved { ReadMoved B.history B.moved (tags_of T.data_tag_of T.node_tag_of) self.old
            line result self.new }

        // A lasting stop is answered again, and nothing is done.
        ensures kept { (stop : MemStop) → lasting_stop self.old.stopped ≡ Some stop →
            (result ≡ Err stop) × (self.new ≡ self.old) }
    {
        if let Some(stop) = lasting(self.stopped) {
            return Err(stop);
        }
        let read = read_at(&mut self.outside, &mut self.counters, line);
        self.stopped = read.err().or(self.stopped);
        read
    }

    fn write_line(&mut self, line: u32, bytes: &[u8; 64]) -> Result<(), MemStop>
        requires inside { line < lines_of self.old }

        ensures stored { lasting_stop self.old.stopped ≡ None → IsQuiet self.new →
            OnOk result (contents self.new ≡ with_line (contents self.old) line bytes.now) }
        ensures refused { lasting_stop self.old.stopped ≡ None → IsQuiet self.new → OnErr result (
            (contents self.new ≡ contents self.old)
            ⊎ (contents self.new ≡ with_line (contents self.old) line bytes.now)) }

        ensures goes_on { OnOk result (self.new.stopped ≡ self.old.stopped) }
        ensures stops { IfErr result (λ stop. self.new.stopped ≡ Some stop) }

        ensures extent { lines_of self.new ≡ lines_of self.old }
        ensures lost { IsQuiet self.new → IsQuiet self.old }

        // What it made of bus, tag engine, pads, counters and caches. The line is encrypted and tagged once, under its next
        // counter; with an overflow all lines of its page are, in the order of their places, each with the bytes that the
        // memory then holds. Where the write stops, a front part of them was.
        ensures moved { WriteMoved B.history B.moved (tags_of T.data_tag_of T.node_tag_of) self.old
            line bytes.now result self.new }

        // A lasting stop is answered again, and nothing is done.
        ensures kept { (stop : MemStop) → lasting_stop self.old.stopped ≡ Some stop →
            (result ≡ Err stop) × (self.new ≡ self.old) }
    {
        if let Some(stop) = lasting(self.stopped) {
            return Err(stop);
        }
        let written = write_next(
            &mut self.outside,
            &mut self.counters,
            self.page_limit,
            line,
            bytes,
        );
        self.stopped = written.err().or(self.stopped);
        written
    }

    ghost sized = { λ lines. length-contents_of (enc_key lines) (lines_of lines) (made lines) };
}

// The stop that is answered from then on, if there was one.
fn lasting(stopped: Option<MemStop>) -> Option<MemStop>
    ensures { result ≡ lasting_stop stopped }
{
    match stopped {
        None | Some(MemStop::Spent(_)) => None,
        Some(MemStop::Tampered(place)) => Some(MemStop::Tampered(place)),
        Some(MemStop::NoMemory) => Some(MemStop::NoMemory),
    }
}

// Reads a line under its counter, once its page's counters are had. It keeps no stop.
fn read_at<B: Bus, T: Tagger>(
    outside: &mut Outside<B, T>,
    counters: &mut Counters,
    line: u32,
) -> Result<[u8; 64], MemStop>
    requires inside { line < line_count outside.old.engine.geometry }
    requires geometry { counters.old.tree.geometry ≡ outside.old.engine.geometry }
    requires pages { AreOfPages outside.old.engine.geometry counters.old }
    requires consistent { AreConsistent (terms_of B.history B.moved T.data_tag_of T.node_tag_of
        outside.old) outside.old }
    requires holds_last { HaveLast (terms_of B.history B.moved T.data_tag_of T.node_tag_of
        outside.old) outside.old }
    requires nodes_hold_last { HaveLastNodes (terms_of B.history B.moved T.data_tag_of T.node_tag_of
        outside.old) outside.old }
    requires risen { HaveRisen (terms_of B.history B.moved T.data_tag_of T.node_tag_of outside.old)
        outside.old }
    requires fits { CountersFit (terms_of B.history B.moved T.data_tag_of T.node_tag_of outside.old)
        outside.old counters.old }
    requires current { CountersSay (terms_of B.history B.moved T.data_tag_of T.node_tag_of
        outside.old) outside.old counters.old }
    requires started { outside.old.engine.evidence ≡ None → (at : ℕ) →
        HasCounter outside.old.pads.used at (counter_in outside.old.pads.used at) }

    ensures read { IsLineRead (terms_of B.history B.moved T.data_tag_of T.node_tag_of outside.old)
        line
        outside.old counters.old outside.new counters.new result }
    ensures under { ReadUnderCounters B.history B.moved (tags_of T.data_tag_of T.node_tag_of) line
        outside.old counters.old outside.new counters.new result }
    ensures cached { OnOk result (Contains (cached_pages counters.new) (page_of line)) }
    ensures pages { AreOfPages outside.old.engine.geometry counters.new }
{
    let block = outside.get(counters, page_of(line))?;
    outside.read(line, block.get(place_of(line)))
}

// Writes a line under its next counter, where the limit allows one. A line counter that is used up raises its page's
// counter, and the whole page is encrypted anew. Memory is taken before a counter changes. It keeps no stop.
fn write_next<B: Bus, T: Tagger>(
    outside: &mut Outside<B, T>,
    counters: &mut Counters,
    limit: u64,
    line: u32,
    bytes: &[u8; 64],
) -> Result<(), MemStop>
    requires inside { line < line_count outside.old.engine.geometry }
    requires geometry { counters.old.tree.geometry ≡ outside.old.engine.geometry }
    requires pages { AreOfPages outside.old.engine.geometry counters.old }
    requires consistent { AreConsistent (terms_of B.history B.moved T.data_tag_of T.node_tag_of
        outside.old) outside.old }
    requires holds_last { HaveLast (terms_of B.history B.moved T.data_tag_of T.node_tag_of
        outside.old) outside.old }
    requires nodes_hold_last { HaveLastNodes (terms_of B.history B.moved T.data_tag_of T.node_tag_of
        outside.old) outside.old }
    requires risen { HaveRisen (terms_of B.history B.moved T.data_tag_of T.node_tag_of outside.old)
        outside.old }
    requires fits { CountersFit (terms_of B.history B.moved T.data_tag_of T.node_tag_of outside.old)
        outside.old counters.old }
    requires current { CountersSay (terms_of B.history B.moved T.data_tag_of T.node_tag_of
        outside.old) outside.old counters.old }
    requires started { outside.old.engine.evidence ≡ None → (at : ℕ) →
        HasCounter outside.old.pads.used at (counter_in outside.old.pads.used at) }
    requires limited { outside.old.engine.evidence ≡ None →
        (counter_in outside.old.pads.used line).page ≤ limit }

    ensures written { IsWrite (terms_of B.history B.moved T.data_tag_of T.node_tag_of outside.old)
        limit line bytes.now
        outside.old counters.old outside.new counters.new (result_err result) }
    ensures under { WrittenUnderCounters B.history B.moved (tags_of T.data_tag_of T.node_tag_of)
        limit line
        outside.old counters.old outside.new counters.new (result_err result) }
    ensures cached { lasting_stop (result_err result) ≡ None →
        Contains (cached_pages counters.new) (page_of line) }
    ensures pages { AreOfPages outside.old.engine.geometry counters.new }
    ensures accepted { Accepts outside.old outside.new
        (IsAcceptedInWrite line outside.old.pads.used outside.new.pads.used
        outside.new.engine.made) }
    ensures once { outside.new.engine.evidence ≡ None →
        (next_counter (counter_in outside.old.pads.used line)).line ≢ 0 →
        ((B.history outside.new.bus).accesses
        ≤ (B.history outside.old.bus).accesses + write_accesses outside.old.engine.geometry.levels)
        × ((other : ℕ) → (B.history outside.new.bus).reads (line_place other)
        ≡ (B.history outside.old.bus).reads (line_place other)) }
    ensures few { (B.history outside.new.bus).accesses
        ≤ (B.history outside.old.bus).accesses + overflow_accesses
        outside.old.engine.geometry.levels }
    ensures hit { Contains (cached_pages counters.old) (page_of line) →
        outside.new.engine.evidence ≡ None →
        (next_counter (counter_in outside.old.pads.used line)).line ≢ 0 →
        (B.history outside.new.bus).accesses ≤ (B.history outside.old.bus).accesses + 1 }
    ensures hit_overflow { Contains (cached_pages counters.old) (page_of line) →
        (B.history outside.new.bus).accesses ≤ (B.history outside.old.bus).accesses + 127 }
{
    let page = page_of(line);
    let place = place_of(line);
    let block = outside.get(counters, page)?;
    if let Bumped::Spent = Bumped::of(block.get(place), limit) {
        return Err(MemStop::Spent(page));
    }
    outside.reserve()?;
    match counters.count(page, place, limit) {
        Bumped::Line(counter) => {
            outside.seal(line, counter, bytes)?;
            Ok(())
        }
        Bumped::Page(raised) => {
            let counter = Counter {
                page: raised,
                line: 0,
            };
            outside.reencrypt_page(&block, line, counter, bytes)
        }
        Bumped::Spent => Err(MemStop::Spent(page)),
    }
}
