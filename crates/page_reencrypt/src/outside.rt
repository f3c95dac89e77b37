// The memory outside the chip: lines that are encrypted, tagged and checked under counters that are given, and the
// counters themselves.
ghost use Rattle.std.specs.Prelude.{◌≡◌, ◌≢◌, ◌+◌, ◌<◌, ◌≤◌, ◌∷◌, [], ℕ, List, None, IfOk, OnOk, OnErr, length};
ghost use Rattle.std.specs.Result.{result_err};
ghost use Rattle.sec_base.specs.Geometry.{line_count, page_count, page_of};
ghost use Rattle.sec_base.specs.declared.counter.Counter.{Counter};
ghost use Rattle.sec_base.specs.declared.message.Message.TheVariants.{Line};
ghost use Rattle.sec_base.specs.declared.place.Place.TheVariants.{Line as line_place};
ghost use Rattle.bus_model.specs.BusHistory.{after_write};
ghost use Rattle.tag_engine.specs.TagEngine.{after_make, tags_of};
ghost use Rattle.pad_stream.specs.Pad.{cipher_of};
ghost use Rattle.pad_stream.specs.PadEngine.{after_encrypt};
ghost use Rattle.pad_stream.specs.Pads.{IsBefore};
ghost use Rattle.checked_bus.specs.Makes.{MakesAccesses};
ghost use Rattle.checked_bus.specs.SealedLine.{sealed_line};
ghost use Rattle.checked_bus.specs.Steps.{IsAccounted, Moves as StepMoves};
ghost use Rattle.split_counter.specs.CounterBlock.{IsCounterBlock, counter_of, place_of};
ghost use Rattle.bonsai_tree.specs.Tree.{want_of};
ghost use Rattle.counter_cache.specs.Counters.{counters_in};
ghost use Rattle.counter_cache.specs.HadCounters.{HadCounters};
ghost use Rattle.page_reencrypt.specs.Contents.{page_lines};
ghost use Rattle.page_reencrypt.specs.Outside.{Accepts, AreConsistent, AreSealedInOrder, CountersFit, CountersSay, DiffersInRoom, HasCounter, HaveLast, HaveLastNodes, HaveRisen, IsAcceptedBeside, IsNodeStep, IsReadAt, NodesSayStill, terms_of, with_room};
ghost use Rattle.page_reencrypt.specs.SealedLines.{AreOfPages};

use bus_model::Bus;
use checked_bus::{read_line, write_line};
use counter_cache::Counters;
use pad_stream::PadEngine;
use sec_base::{Counter, LINE_LEN, LINES_PER_PAGE, MemStop, NoMemory, Tagger, page_of};
use split_counter::CounterBlock;
use std::marker::Model;
use tag_engine::TagEngine;

// The counter of a line that was never written.
const NEVER_WRITTEN: Counter = Counter { page: 0, line: 0 };

// The memory outside, and what the chip has to encrypt, tag and check its lines.
#[derive(Drop)]
pub(crate) struct Outside<B: Bus, T: Tagger> {
    pub(crate) bus: B,
    pub(crate) tags: TagEngine<T>,
    pub(crate) pads: PadEngine,
}

impl<B: Bus, T: Tagger> Model for Outside<B, T> {
    ghost use Rattle.page_reencrypt.specs.Outside.{OutsideView};

    ghost Value = { OutsideView B T };

    ghost view = { λ outside. record { bus = outside.bus; engine = outside.tags; pads = outside.pads } };
}

impl<B: Bus, T: Tagger> Outside<B, T> {
    // Takes memory for the entries and the messages of all lines of a page.
    pub(crate) fn reserve(&mut self) -> Result<(), NoMemory>
        ensures taken { OnOk result (self.new ≡ with_room 64 64 self.old) }
        ensures refused { OnErr result (DiffersInRoom self.old self.new) }
    {
        self.tags.reserve(u64::from(LINES_PER_PAGE))?;
        self.pads.reserve(u64::from(LINES_PER_PAGE))
    }

    // The counters of a page.
    pub(crate) fn get(
        &mut self,
        counters: &mut Counters,
        page: u32,
    ) -> Result<CounterBlock, MemStop>
        requires inside { page < page_count counters.old.tree.geometry }
        requires geometry { counters.old.tree.geometry ≡ self.old.engine.geometry }
        requires consistent { AreConsistent (terms_of B.history B.moved T.data_tag_of T.node_tag_of
            self.old) self.old }
        requires holds_last { HaveLast (terms_of B.history B.moved T.data_tag_of T.node_tag_of
            self.old) self.old }
        requires nodes_hold_last { HaveLastNodes
            (terms_of B.history B.moved T.data_tag_of T.node_tag_of self.old) self.old }

        ensures step { IsNodeStep (terms_of B.history B.moved T.data_tag_of T.node_tag_of self.old)
            self.old self.new (result_err result) }
        ensures had { HadCounters (tags_of T.data_tag_of T.node_tag_of) counters.old
            (B.history self.old.bus) self.old.engine
            counters.new (B.history self.new.bus) self.new.engine page (result_err result) }
        ensures answer { IfOk result (λ block. block
            ≡ counters_in counters.new self.new.engine.made page) }
        ensures pads { self.new.pads ≡ self.old.pads }
        ensures geometry { counters.new.tree.geometry ≡ counters.old.tree.geometry }
        ensures is_block { IfOk result IsCounterBlock }

        // A counter block that goes out is made with the counters of its page's lines.
        ensures nodes { AreOfPages self.old.engine.geometry counters.old →
            CountersFit (terms_of B.history B.moved T.data_tag_of T.node_tag_of self.old) self.old
            counters.old →
            CountersSay (terms_of B.history B.moved T.data_tag_of T.node_tag_of self.old) self.old
            counters.old →
            NodesSayStill (terms_of B.history B.moved T.data_tag_of T.node_tag_of self.old) self.old
            self.new }
        ensures pages { AreOfPages self.old.engine.geometry counters.new }
    {
        counters.get(&mut self.bus, &mut self.tags, page)
    }

    // The bytes of a line, by its counter: zeros where it was never written, without an access; else what its place
    // holds, checked and decrypted. The counter is the line's last, unless there is evidence.
    pub(crate) fn read(&mut self, line: u32, counter: Counter) -> Result<[u8; 64], MemStop>
        requires inside { line < line_count self.old.engine.geometry }
        requires consistent { AreConsistent (terms_of B.history B.moved T.data_tag_of T.node_tag_of
            self.old) self.old }
        requires holds_last { HaveLast (terms_of B.history B.moved T.data_tag_of T.node_tag_of
            self.old) self.old }
        requires risen { HaveRisen (terms_of B.history B.moved T.data_tag_of T.node_tag_of self.old)
            self.old }
        requires counter { self.old.engine.evidence ≡ None →
            HasCounter self.old.pads.used line counter }

        ensures read { IsReadAt (terms_of B.history B.moved T.data_tag_of T.node_tag_of self.old)
            line counter self.old self.new result }
    {
        if counter == NEVER_WRITTEN {
            return Ok([0; LINE_LEN as usize]);
        }
        let cipher = read_line(&mut self.bus, &mut self.tags, line, counter);
        Ok(self.pads.decrypt(line, counter, &cipher?))
    }

    // Encrypts a line under a counter, tags it and writes it to its place. There is memory for its entry and its message.
    pub(crate) fn seal(
        &mut self,
        line: u32,
        counter: Counter,
        bytes: &[u8; 64],
    ) -> Result<(), NoMemory>
        requires bus { (B.history self.old.bus).geometry ≡ self.old.engine.geometry }
        requires inside { line < line_count self.old.engine.geometry }
        requires room { 0 < self.old.engine.room }
        requires pads_room { 0 < self.old.pads.room }

        ensures used { self.new.pads ≡ after_encrypt line counter self.old.pads }
        ensures made { self.new.engine
            ≡ after_make (Line line counter (cipher_of self.old.pads.key line counter bytes.now))
            self.old.engine }
        ensures undone { cipher_of self.old.pads.key line counter
            (cipher_of self.old.pads.key line counter bytes.now) ≡ bytes.now }
        ensures ok { OnOk result (B.history self.new.bus ≡ after_write (line_place line)
            (sealed_line (tags_of T.data_tag_of T.node_tag_of self.old.engine) line counter
            (cipher_of self.old.pads.key line counter bytes.now))
            (B.history self.old.bus)) }
        ensures err { OnErr result (B.history self.new.bus ≡ B.history self.old.bus) }

        ensures moves { StepMoves (B.history self.old.bus) self.old.engine (B.history self.new.bus)
            self.new.engine }
        ensures accesses { MakesAccesses B.moved
            (tags_of T.data_tag_of T.node_tag_of self.old.engine)
            self.old.bus self.old.engine self.new.bus self.new.engine (want_of result) }

        // No answer was false.
        ensures honest { (used more : List (ℕ × Counter)) →
            IsAccounted (tags_of T.data_tag_of T.node_tag_of self.old.engine) used
            self.old.engine.made (B.history self.old.bus) None self.old.engine.evidence →
            IsAccounted (tags_of T.data_tag_of T.node_tag_of self.old.engine) more
            self.new.engine.made (B.history self.new.bus) None self.new.engine.evidence }
    {
        let cipher = self.pads.encrypt(line, counter, bytes)?;
        write_line(&mut self.bus, &mut self.tags, line, counter, &cipher)
    }

    // Encrypts one of the page's lines anew under the counter of a write: the written line with its new bytes, any other
    // with those that it held under its old counter.
    fn reencrypt_line(
        &mut self,
        at: u32,
        old: Counter,
        line: u32,
        counter: Counter,
        bytes: &[u8; 64],
    ) -> Result<(), MemStop>
        requires inside { at < line_count self.old.engine.geometry }
        requires of_page { page_of at ≡ page_of line }
        requires consistent { AreConsistent (terms_of B.history B.moved T.data_tag_of T.node_tag_of
            self.old) self.old }
        requires holds_last { HaveLast (terms_of B.history B.moved T.data_tag_of T.node_tag_of
            self.old) self.old }
        requires risen { HaveRisen (terms_of B.history B.moved T.data_tag_of T.node_tag_of self.old)
            self.old }
        requires counter { self.old.engine.evidence ≡ None → HasCounter self.old.pads.used at old
            × IsBefore old counter }
        requires room { 0 < self.old.engine.room }
        requires pads_room { 0 < self.old.pads.room }

        ensures sealed { AreSealedInOrder (terms_of B.history B.moved T.data_tag_of T.node_tag_of
            self.old)
            (record { line = line; bytes = bytes.now; counter = counter }) self.old (at ∷ [])
            self.new (result_err result) }
        ensures accepted { Accepts self.old self.new (λ found made_count.
            (found ≡ at) × (at ≢ line) × (made_count ≡ length self.old.engine.made)) }
        ensures once { (B.history self.new.bus).accesses ≤ (B.history self.old.bus).accesses + 2 }
        ensures own { at ≡ line → (B.history self.new.bus).accesses
            ≤ (B.history self.old.bus).accesses + 1 }
    {
        let plain = if at == line {
            *bytes
        } else {
            self.read(at, old)?
        };
        self.seal(at, counter, &plain)?;
        Ok(())
    }

    // Encrypts all lines of a page anew under the counter of a write of one of them, in the order of their places. The
    // block has the counters from before, unless there is evidence. There is memory for the entries and the messages.
    pub(crate) fn reencrypt_page(
        &mut self,
        block: &CounterBlock,
        line: u32,
        counter: Counter,
        bytes: &[u8; 64],
    ) -> Result<(), MemStop>
        requires inside { line < line_count self.old.engine.geometry }
        requires consistent { AreConsistent (terms_of B.history B.moved T.data_tag_of T.node_tag_of
            self.old) self.old }
        requires holds_last { HaveLast (terms_of B.history B.moved T.data_tag_of T.node_tag_of
            self.old) self.old }
        requires risen { HaveRisen (terms_of B.history B.moved T.data_tag_of T.node_tag_of self.old)
            self.old }
        requires counters { self.old.engine.evidence ≡ None → (at : ℕ) → page_of at ≡ page_of line →
            HasCounter self.old.pads.used at (counter_of (place_of at) block.now) }
        requires later { self.old.engine.evidence ≡ None → block.now.page < counter.page }
        requires room { 64 ≤ self.old.engine.room }
        requires pads_room { 64 ≤ self.old.pads.room }

        ensures sealed { AreSealedInOrder (terms_of B.history B.moved T.data_tag_of T.node_tag_of
            self.old)
            (record { line = line; bytes = bytes.now; counter = counter }) self.old
            (page_lines (page_of line)) self.new (result_err result) }
        ensures accepted { Accepts self.old self.new
            (IsAcceptedBeside line (length self.old.engine.made)) }
        ensures once { (B.history self.new.bus).accesses ≤ (B.history self.old.bus).accesses + 127 }
    {
        let first = LINES_PER_PAGE * page_of(line);
        for place in 0..LINES_PER_PAGE as u8 {
            let at = first + u32::from(place);
            self.reencrypt_line(at, block.get(place), line, counter, bytes)?;
        }
        Ok(())
    }
}
