// The memory that the processor sees.
ghost use Rattle.std.specs.Prelude.{◌≡◌, ◌+◌, ◌*◌, ◌%◌, ◌^◌, ◌<◌, ◌≤◌, ◌↔◌, ◌⊎◌, ◌∷◌, [], ℕ, List, None, Some, Err, IfOk, IfErr, IfSome, IsTrue, OnOk, OnErr, Contains, length};
ghost use Rattle.std.specs.Result.{result_err};
ghost use Rattle.sec_base.specs.Evidence.{IsEvidence};
ghost use Rattle.sec_base.specs.Geometry.{line_of};
ghost use Rattle.sec_base.specs.Width.{width_bytes, number_at, with_number};
ghost use Rattle.sec_base.specs.declared.stop.MemStop.{MemStop};
ghost use Rattle.bus_model.specs.BusHistory.{NothingWritten};
ghost use Rattle.tag_engine.specs.TagEngine.{tags_of};
ghost use Rattle.pad_stream.specs.PadBlocks.{ShareNoBlock};
ghost use Rattle.page_reencrypt.specs.LineMoves.{ReadMoved, WriteMoved};
ghost use Rattle.page_reencrypt.specs.SealedLines.{AreNew, AreProtected, LinesFit, enc_key, tag_in};
ghost use Rattle.cache_set.specs.Cache.{AreApart, copy_at, new_cache};
ghost use Rattle.cache_set.specs.Bringing.{brought, leaving, with_changed};
ghost use Rattle.line_cache.specs.LineCache.{IsMissed, IsStoppedMiss, line_sets, most_held};
ghost use Rattle.secure_memory.specs.SecureRam.{IsMoved, IsQuiet, cached_nodes, cached_pages, contents, evidence, held_lines, geometry, lines_of, made, stopped, used};
ghost use Rattle.secure_memory.specs.LineCall.{IsLineCall};

use bus_model::Bus;
use hmac_tag::Keys;
use line_cache::LineCache;
use page_reencrypt::{Account, SealedLines};
use sec_base::{Geometry, MemStop, NoMemoryWith, Ram, Tagger, Width};
use std::alloc::Global;
use std::marker::Model;

/// A memory over lines outside the chip, which holds copies of the most recently used lines: a load or a store of such a
/// line makes no access, and any other line is brought in first. A line that was changed is written when it goes out for
/// another. The memory's first stop is its answer to each later call.
#[derive(Drop)]
pub struct SecureRam<B: Bus, T: Tagger> {
    lines: LineCache<SealedLines<B, T>>,
    // Kept, since each step asks for it.
    size: u32,
}

impl<B: Bus, T: Tagger> Model for SecureRam<B, T> {
    ghost use Rattle.std.specs.Prelude.{◌≡◌, ◌*◌, ◌≤◌, None, length};
    ghost use Rattle.line_cache.specs.LineCache.{most_held};
    ghost use Rattle.page_reencrypt.specs.SealedLines.{LinesFit};
    ghost use Rattle.secure_memory.specs.SecureRam.{SecureRamView, IsQuiet, held_lines, lines_of, stopped};

    ghost Value = { SecureRamView B T };

    ghost view = { λ memory. record { lines = memory.lines.store; ways = memory.lines.lines } };

    ghost invariant = { λ memory. (memory.lines.stop ≡ memory.lines.store.stopped)
        × (length (held_lines (record { lines = memory.lines.store; ways = memory.lines.lines })) ≤ most_held)
        × (memory.lines.store.stopped ≡ None → memory.lines.store.engine.evidence ≡ None →
        LinesFit T.data_tag_of T.node_tag_of B.history memory.lines.store)
        × (memory.size ≡ 64 * lines_of (record { lines = memory.lines.store; ways = memory.lines.lines })) };
}

impl<B: Bus, T: Tagger> SecureRam<B, T> {
    /// A memory of zeros that holds no line, over a bus to which nothing was written. It makes no access of the bus. Out of
    /// memory, the tagger is dropped, and the bus comes back.
    pub fn boot(
        alloc: Global,
        bus: B,
        tagger: T,
        keys: &Keys,
        geometry: Geometry,
        page_limit: u64,
    ) -> Result<SecureRam<B, T>, NoMemoryWith<B>>
        requires geometry { (B.history bus).geometry ≡ geometry }
        requires nothing_written { NothingWritten (B.history bus) }

        ensures new { IfOk result (λ memory. AreNew bus tagger keys.now.enc_key geometry page_limit
            memory.lines) }
        ensures lines_fit { IfOk result (λ memory. LinesFit T.data_tag_of T.node_tag_of B.history
            memory.lines) }
        ensures empty { IfOk result (λ memory. memory.ways ≡ new_cache line_sets) }
        ensures none_held { IfOk result (λ memory. held_lines memory ≡ []) }
        ensures none_cached { IfOk result (λ memory. cached_pages memory ≡ []) }
        ensures no_nodes { IfOk result (λ memory. (level : ℕ) → cached_nodes memory level ≡ []) }
        ensures refused { IfErr result (λ refusal. refusal.0 ≡ bus) }
    {
        let lines = SealedLines::boot(alloc, bus, tagger, &keys.enc_key, geometry, page_limit)?;
        match LineCache::new(alloc, lines) {
            Ok(lines) => {
                let size = lines.size();
                Ok(SecureRam { lines, size })
            }
            Err(NoMemoryWith(lines)) => {
                let (_account, bus) = lines.finish();
                Err(NoMemoryWith(bus))
            }
        }
    }

    /// Whether the chip has a copy of a line.
    pub fn held(&self, line: u32) -> bool
        requires inside { line < lines_of self.now }
        ensures { IsTrue result ↔ Contains (held_lines self.now) line }
    {
        self.lines.held(line)
    }

    /// How many lines the chip has a copy of, at most 128.
    pub fn held_count(&self) -> u32
        ensures count { result ≡ length (held_lines self.now) }
        ensures few { result ≤ most_held }
        ensures apart { AreApart (held_lines self.now) }
    {
        self.lines.held_count()
    }

    /// The first stop that it answered, if it did.
    pub fn stopped(&self) -> Option<MemStop>
        ensures { result ≡ stopped self.now }
    {
        self.lines.stopped()
    }

    /// Drops the tagger, and returns what can be shown, and the bus. Copies that were changed are not written to it.
    pub fn finish(self) -> (Account, B)
        ensures made { result.0.made ≡ made self }
        ensures used { result.0.used ≡ used self }
        ensures few { length result.0.used < 2 ^ 64 }
        ensures few_held { length (held_lines self) ≤ most_held }
        ensures evidence { result.0.evidence ≡ evidence self }
        ensures bus { result.1 ≡ self.lines.bus }

        // Where there is no evidence, no line and counter repeats, so no block of all their pads does.
        ensures apart { IsQuiet self → ShareNoBlock (enc_key self.lines) result.0.used }

        // Evidence is what it says, and what holds between calls held to the end.
        ensures genuine { IfSome result.0.evidence
            (IsEvidence (tag_in T.data_tag_of T.node_tag_of self.lines) result.0.made) }
        ensures protected { AreProtected T.data_tag_of T.node_tag_of B.history self.lines }
    {
        let SecureRam { lines, size: _ } = self;
        lines.finish().finish()
    }
}

impl<B: Bus, T: Tagger> Ram for SecureRam<B, T> {
    ghost use Rattle.line_cache.specs.Moving.{length-contents_over};
    ghost use Rattle.page_reencrypt.specs.SealedLines.{contents as line_contents};
    ghost use Rattle.checked_bus.proofs.Makes.{same_tags};
    ghost use Rattle.secure_memory.specs.Moving.{unmoved, moved_on};

    ghost contents = { λ memory. contents memory };

    ghost extent = { λ memory. 64 * lines_of memory };

    ghost sound = { λ memory. IsQuiet memory };

    ghost stopped = { λ memory. stopped memory };

    ghost moved = { λ before lines after.
        IsMoved B.history B.moved (tags_of T.data_tag_of T.node_tag_of) before lines after };

    fn size(&self) -> u32 {
        self.size
    }

    #[inline(always)]
    fn load(&mut self, addr: u32, width: Width) -> Result<u32, MemStop>
        requires inside { addr + width_bytes width ≤ 64 * lines_of self.old }
        requires aligned { addr % width_bytes width ≡ 0 }

        ensures value { stopped self.old ≡ None → IsQuiet self.new →
            IfOk result (λ n. n ≡ number_at (contents self.old) addr width) }
        ensures fits { IfOk result (λ n. n < 2 ^ (8 * width_bytes width)) }
        ensures contents { stopped self.old ≡ None → IsQuiet self.new →
            contents self.new ≡ contents self.old }

        ensures goes_on { OnOk result (stopped self.new ≡ stopped self.old) }
        ensures stops { IfErr result (λ stop. stopped self.new ≡ Some stop) }

        ensures extent { 64 * lines_of self.new ≡ 64 * lines_of self.old }
        ensures lost { IsQuiet self.new → IsQuiet self.old }
        ensures moved { IsMoved B.history B.moved (tags_of T.data_tag_of T.node_tag_of) self.old
            (line_of addr ∷ []) self.new }

        // The first stop is answered again, and nothing is done.
        ensures latched { (stop : MemStop) → stopped self.old ≡ Some stop → (result ≡ Err stop)
            × (self.new ≡ self.old) }

        // What it costs, reads and encrypts, and when it stops.
        ensures call { stopped self.old ≡ None → IsLineCall B.history self.old (line_of addr)
            (leaving self.old.ways (line_of addr)) (result_err result) self.new }

        // A line that is not held is read, once the changed line that goes out for it was written. With evidence too, it goes by
        // the counters that were had, and a line that passed though it was never tagged is used as it was answered.
        ensures missed { stopped self.old ≡ None → ¬ Contains (held_lines self.old) (line_of addr) →
            IsMissed (ReadMoved B.history B.moved (tags_of T.data_tag_of T.node_tag_of))
            (WriteMoved B.history B.moved (tags_of T.data_tag_of T.node_tag_of))
            self.old.ways self.old.lines (line_of addr) (λ bytes. bytes) (result_err result)
            self.new.ways self.new.lines }

        // The line becomes the most recently used one of its set, and a load marks no line. Where the write of the line that
        // goes out stops, that one stays.
        ensures ways { stopped self.old ≡ None →
            OnOk result ((copy : List ℕ) × (copy_at self.new.ways (line_of addr) ≡ Some copy)
            × (self.new.ways ≡ brought self.old.ways (line_of addr) copy)) }
        ensures ways_left { stopped self.old ≡ None → IfErr result (λ stop. IsStoppedMiss
            (ReadMoved B.history B.moved (tags_of T.data_tag_of T.node_tag_of))
            (WriteMoved B.history B.moved (tags_of T.data_tag_of T.node_tag_of))
            (leaving self.old.ways (line_of addr)) self.old.ways self.old.lines (line_of addr) stop
            self.new.ways self.new.lines) }

        // What stands outside fits what the chip has of it.
        ensures lines_fit { stopped self.new ≡ None → IsQuiet self.new →
            LinesFit T.data_tag_of T.node_tag_of B.history self.new.lines }

        // Sound or not, what is answered stands in the line's copy.
        ensures copy { IfOk result (λ n. (copy : List ℕ) → copy_at self.new.ways (line_of addr)
            ≡ Some copy →
            n ≡ number_at copy (addr % 64) width) }
    {
        if let Some(stop) = self.lines.stopped() {
            return Err(stop);
        }
        self.lines.load(addr, width)
    }

    #[inline(always)]
    fn store(&mut self, addr: u32, width: Width, value: u32) -> Result<(), MemStop>
        requires inside { addr + width_bytes width ≤ 64 * lines_of self.old }
        requires aligned { addr % width_bytes width ≡ 0 }

        ensures stored { stopped self.old ≡ None → IsQuiet self.new →
            OnOk result (contents self.new ≡ with_number (contents self.old) addr width value) }
        ensures refused { stopped self.old ≡ None → IsQuiet self.new → OnErr result (
            (contents self.new ≡ contents self.old)
            ⊎ (contents self.new ≡ with_number (contents self.old) addr width value)) }

        // A store that stops changes no byte.
        ensures unchanged { stopped self.old ≡ None → IsQuiet self.new →
            OnErr result (contents self.new ≡ contents self.old) }

        ensures goes_on { OnOk result (stopped self.new ≡ stopped self.old) }
        ensures stops { IfErr result (λ stop. stopped self.new ≡ Some stop) }

        ensures extent { 64 * lines_of self.new ≡ 64 * lines_of self.old }
        ensures lost { IsQuiet self.new → IsQuiet self.old }
        ensures moved { IsMoved B.history B.moved (tags_of T.data_tag_of T.node_tag_of) self.old
            (line_of addr ∷ []) self.new }

        // The first stop is answered again, and nothing is done.
        ensures latched { (stop : MemStop) → stopped self.old ≡ Some stop → (result ≡ Err stop)
            × (self.new ≡ self.old) }

        // What it costs, reads and encrypts, and when it stops.
        ensures call { stopped self.old ≡ None → IsLineCall B.history self.old (line_of addr)
            (leaving self.old.ways (line_of addr)) (result_err result) self.new }

        // A line that is not held is read, once the changed line that goes out for it was written.
        ensures missed { stopped self.old ≡ None → ¬ Contains (held_lines self.old) (line_of addr) →
            IsMissed (ReadMoved B.history B.moved (tags_of T.data_tag_of T.node_tag_of))
            (WriteMoved B.history B.moved (tags_of T.data_tag_of T.node_tag_of))
            self.old.ways self.old.lines (line_of addr)
            (λ bytes. with_number bytes (addr % 64) width value) (result_err result) self.new.ways
            self.new.lines }

        // The line becomes the most recently used one of its set, and is marked. Where the write of the line that goes out
        // stops, that one stays.
        ensures ways { stopped self.old ≡ None → OnOk result ((copy : List ℕ) × (self.new.ways
            ≡ with_changed (brought self.old.ways (line_of addr) copy) (line_of addr)
            (with_number copy (addr % 64) width value))) }
        ensures ways_left { stopped self.old ≡ None → IfErr result (λ stop. IsStoppedMiss
            (ReadMoved B.history B.moved (tags_of T.data_tag_of T.node_tag_of))
            (WriteMoved B.history B.moved (tags_of T.data_tag_of T.node_tag_of))
            (leaving self.old.ways (line_of addr)) self.old.ways self.old.lines (line_of addr) stop
            self.new.ways self.new.lines) }

        // What stands outside fits what the chip has of it.
        ensures lines_fit { stopped self.new ≡ None → IsQuiet self.new →
            LinesFit T.data_tag_of T.node_tag_of B.history self.new.lines }

        // A line that is held gets the number in its copy.
        ensures held_copy { stopped self.old ≡ None → (copy : List ℕ) →
            copy_at self.old.ways (line_of addr) ≡ Some copy →
            copy_at self.new.ways (line_of addr) ≡ Some (with_number copy (addr % 64) width value) }
    {
        if let Some(stop) = self.lines.stopped() {
            return Err(stop);
        }
        self.lines.store(addr, width, value)
    }

    ghost sized = { λ memory. length-contents_over (line_contents memory.lines) (lines_of memory) memory.ways };

    ghost unmoved = { λ memory.
        unmoved B.history B.moved (tags_of T.data_tag_of T.node_tag_of) B.unmoved memory };

    ghost moved_on = { λ first second third before after a b.
        moved_on B.history B.moved (tags_of T.data_tag_of T.node_tag_of)
        (same_tags T.data_tag_of T.node_tag_of) B.moved_on
        first second third before after a b };
}
