// A write-back cache of lines.
ghost use Rattle.std.specs.Prelude.{true, ◌≡◌, ◌+◌, ◌*◌, ◌%◌, ◌^◌, ◌<◌, ◌≤◌, ◌↔◌, ◌⊎◌, ℕ, List, [], ◌∷◌, Option, None, Some, refl, length, IfOk, IfErr, OnOk, OnErr, IsOk, IsTrue, IsSome, Contains};
ghost use Rattle.std.specs.Option.{option_or};
ghost use Rattle.std.specs.Result.{result_err};
ghost use Rattle.sec_base.specs.Geometry.{line_of};
ghost use Rattle.sec_base.specs.Width.{width_bytes, number_at, with_number};
ghost use Rattle.cache_set.specs.Cache.{AreApart, IsLatest, copy_at, way_at};
ghost use Rattle.cache_set.specs.Bringing.{brought, leaving, with_changed};
ghost use Rattle.line_cache.specs.LineCache.{AreClean, AreCopies, IsMissed, IsMoved, IsStep, IsStoppedMiss, contents, held_lines, most_held, new_lines, stopped};

use crate::fetch::fetch;
use cache_set::Cache;
use sec_base::{LINE_LEN, LineStore, MemStop, NoMemory, NoMemoryWith, Ram, Width};
use std::alloc::Global;
use std::marker::Model;

/// A memory over a store of lines. It holds copies of the most recently used lines, in 64 sets of two ways, and writes a line
/// that was changed to the store only when it goes out.
#[derive(Drop)]
pub struct LineCache<S: LineStore> {
    store: S,
    lines: Cache<64>,
    stop: Option<MemStop>,
}

impl<S: LineStore> Model for LineCache<S> {
    ghost use Rattle.line_cache.specs.LineCache.{LineCacheView, IsLineCache};

    ghost Value = { LineCacheView S };

    ghost view = { λ cache. record { store = cache.store; lines = cache.lines; stop = cache.stop } };

    ghost invariant = { λ cache. IsLineCache S.contents S.extent S.sound S.stopped
        (record { store = cache.store; lines = cache.lines; stop = cache.stop }) };
}

impl<S: LineStore> LineCache<S> {
    /// A cache that holds no line. Out of memory, the store comes back.
    pub fn new(alloc: Global, store: S) -> Result<LineCache<S>, NoMemoryWith<S>>
        ensures new { IfOk result (λ cache. cache ≡ new_lines store) }
        ensures refused { IfErr result (λ refusal. refusal.0 ≡ store) }
    {
        // It is the number of lines of some memory.
        let _lines = store.lines();
        match Cache::new(alloc) {
            Ok(lines) => Ok(LineCache {
                store,
                lines,
                stop: None,
            }),
            Err(NoMemory) => Err(NoMemoryWith(store)),
        }
    }

    /// Whether the cache has a copy of a line.
    pub fn held(&self, line: u32) -> bool
        requires inside { line < S.extent self.now.store }
        ensures { IsTrue result ↔ Contains (held_lines self.now) line }
    {
        self.lines.contains(line)
    }

    /// How many lines the cache has a copy of.
    pub fn held_count(&self) -> u32
        ensures count { result ≡ length (held_lines self.now) }
        ensures few { result ≤ most_held }
        ensures apart { AreApart (held_lines self.now) }
    {
        self.lines.count()
    }

    /// The first stop that a call answered, if one did.
    pub fn stopped(&self) -> Option<MemStop>
        ensures { result ≡ self.now.stop }
    {
        self.stop
    }

    /// The store. Copies that were changed are not written to it.
    pub fn finish(self) -> S
        ensures store { result ≡ self.store }

        // Where no call stopped and the store can be relied on, a copy that was not changed is its line.
        ensures clean { stopped S.stopped self ≡ None → S.sound self.store →
            AreClean (S.contents self.store) self.lines }
    {
        let LineCache {
            store,
            lines: _,
            stop: _,
        } = self;
        store
    }

    // Brings in a line that is not held. The first stop is kept. A call on a held line does without it, and is quick where
    // this stands apart.
    #[inline(never)]
    fn bring(&mut self, line: u32) -> Result<(), MemStop>
        requires inside { line < S.extent self.old.store }
        requires absent { way_at self.old.lines line ≡ None }

        ensures contents { stopped S.stopped self.old ≡ None → S.sound self.new.store →
            contents S.contents S.extent self.new ≡ contents S.contents S.extent self.old }
        ensures latest { OnOk result (IsLatest self.new.lines line) }

        ensures goes_on { OnOk result (stopped S.stopped self.new ≡ stopped S.stopped self.old) }
        ensures stops { stopped S.stopped self.old ≡ None →
            IfErr result (λ stop. stopped S.stopped self.new ≡ Some stop) }
        ensures answered { S.stopped self.old.store ≡ None →
            IfErr result (λ stop. S.stopped self.new.store ≡ Some stop) }

        ensures extent { S.extent self.new.store ≡ S.extent self.old.store }
        ensures lost { S.sound self.new.store → S.sound self.old.store }
        ensures kept { self.new.stop ≡ option_or self.old.stop (result_err result) }
        ensures moved { IsStep S.read_moved S.write_moved self.old line self.new }
        ensures missed { IsMissed S.read_moved S.write_moved self.old.lines self.old.store line
            (λ bytes. bytes)
            (result_err result) self.new.lines self.new.store }

        ensures ways { OnOk result ((copy : List ℕ) → copy_at self.new.lines line ≡ Some copy →
            self.new.lines ≡ brought self.old.lines line copy) }
        ensures ways_left { IfErr result (λ stop. IsStoppedMiss S.read_moved S.write_moved
            (leaving self.old.lines line)
            self.old.lines self.old.store line stop self.new.lines self.new.store) }
    {
        match fetch(&mut self.store, &mut self.lines, line) {
            Ok(()) => Ok(()),
            Err(stop) => {
                self.stop = self.stop.or(Some(stop));
                Err(stop)
            }
        }
    }
}

impl<S: LineStore> Ram for LineCache<S> {
    ghost use Rattle.line_cache.specs.Moving.{length-contents_over, moved_on};

    ghost contents = { λ cache. contents S.contents S.extent cache };

    ghost extent = { λ cache. 64 * S.extent cache.store };

    ghost sound = { λ cache. S.sound cache.store };

    ghost stopped = { λ cache. stopped S.stopped cache };

    ghost moved = { λ before lines after. IsMoved S.read_moved S.write_moved before lines after };

    fn size(&self) -> u32 {
        LINE_LEN * self.store.lines()
    }

    #[inline(always)]
    fn load(&mut self, addr: u32, width: Width) -> Result<u32, MemStop>
        requires inside { addr + width_bytes width ≤ 64 * S.extent self.old.store }
        requires aligned { addr % width_bytes width ≡ 0 }

        ensures value { stopped S.stopped self.old ≡ None → S.sound self.new.store →
            IfOk result (λ n. n ≡ number_at (contents S.contents S.extent self.old) addr width) }
        ensures fits { IfOk result (λ n. n < 2 ^ (8 * width_bytes width)) }
        ensures contents { stopped S.stopped self.old ≡ None → S.sound self.new.store →
            contents S.contents S.extent self.new ≡ contents S.contents S.extent self.old }

        ensures goes_on { OnOk result (stopped S.stopped self.new ≡ stopped S.stopped self.old) }
        ensures stops { stopped S.stopped self.old ≡ None →
            IfErr result (λ stop. stopped S.stopped self.new ≡ Some stop) }

        ensures extent { 64 * S.extent self.new.store ≡ 64 * S.extent self.old.store }
        ensures lost { S.sound self.new.store → S.sound self.old.store }
        ensures moved { IsMoved S.read_moved S.write_moved self.old (line_of addr ∷ []) self.new }
        ensures copies { AreCopies (S.extent self.old.store) self.old.lines }

        // A line that is held is not looked up in the store. A stop is what the store answered.
        ensures hit { Contains (held_lines self.old) (line_of addr) → IsOk result
            × (self.new.store ≡ self.old.store)
            × (way_at self.new.lines (line_of addr) ≡ way_at self.old.lines (line_of addr)) }
        ensures answered { S.stopped self.old.store ≡ None →
            IfErr result (λ stop. S.stopped self.new.store ≡ Some stop) }

        // Any other line is read, once the changed line that goes out for it was written. The first stop is kept.
        ensures missed { ¬ Contains (held_lines self.old) (line_of addr) →
            IsMissed S.read_moved S.write_moved
            self.old.lines self.old.store (line_of addr) (λ bytes. bytes) (result_err result)
            self.new.lines self.new.store }
        ensures kept { self.new.stop ≡ option_or self.old.stop (result_err result) }

        // Sound or not, the number is the one in the copy that the line has after the call.
        ensures copy { IfOk result (λ n. (copy : List ℕ) → copy_at self.new.lines (line_of addr)
            ≡ Some copy →
            n ≡ number_at copy (addr % 64) width) }

        // The line is the most recently used one of its set, and the one that goes out for it is the least recently used. Where
        // the write of that one stops, it stays.
        ensures ways { OnOk result ((copy : List ℕ)
            × (copy_at self.new.lines (line_of addr) ≡ Some copy)
            × (self.new.lines ≡ brought self.old.lines (line_of addr) copy)) }
        ensures ways_left { IfErr result (λ stop. IsStoppedMiss S.read_moved S.write_moved
            (leaving self.old.lines (line_of addr))
            self.old.lines self.old.store (line_of addr) stop self.new.lines self.new.store) }
    {
        let (line, at) = (addr / LINE_LEN, (addr % LINE_LEN) as usize);
        if let Some(value) = self.lines.read(line, at, width) {
            return Ok(value);
        }
        self.bring(line)?;
        Ok(width.read(self.lines.latest(line), at))
    }

    #[inline(always)]
    fn store(&mut self, addr: u32, width: Width, value: u32) -> Result<(), MemStop>
        requires inside { addr + width_bytes width ≤ 64 * S.extent self.old.store }
        requires aligned { addr % width_bytes width ≡ 0 }

        ensures stored { stopped S.stopped self.old ≡ None → S.sound self.new.store →
            OnOk result (contents S.contents S.extent self.new
            ≡ with_number (contents S.contents S.extent self.old) addr width value) }
        ensures refused { stopped S.stopped self.old ≡ None → S.sound self.new.store →
            OnErr result (
            (contents S.contents S.extent self.new ≡ contents S.contents S.extent self.old)
            ⊎ (contents S.contents S.extent self.new
            ≡ with_number (contents S.contents S.extent self.old) addr width value)) }

        ensures goes_on { OnOk result (stopped S.stopped self.new ≡ stopped S.stopped self.old) }
        ensures stops { stopped S.stopped self.old ≡ None →
            IfErr result (λ stop. stopped S.stopped self.new ≡ Some stop) }

        ensures extent { 64 * S.extent self.new.store ≡ 64 * S.extent self.old.store }
        ensures lost { S.sound self.new.store → S.sound self.old.store }
        ensures moved { IsMoved S.read_moved S.write_moved self.old (line_of addr ∷ []) self.new }
        ensures copies { AreCopies (S.extent self.old.store) self.old.lines }

        // A store that stops changes no byte.
        ensures unchanged { stopped S.stopped self.old ≡ None → S.sound self.new.store →
            OnErr result (contents S.contents S.extent self.new
            ≡ contents S.contents S.extent self.old) }

        // A line that is held is not looked up in the store. A stop is what the store answered.
        ensures hit { Contains (held_lines self.old) (line_of addr) → IsOk result
            × (self.new.store ≡ self.old.store)
            × ((copy : List ℕ) → copy_at self.old.lines (line_of addr) ≡ Some copy →
            copy_at self.new.lines (line_of addr)
            ≡ Some (with_number copy (addr % 64) width value)) }
        ensures answered { S.stopped self.old.store ≡ None →
            IfErr result (λ stop. S.stopped self.new.store ≡ Some stop) }

        // Any other line is read, once the changed line that goes out for it was written. The first stop is kept.
        ensures missed { ¬ Contains (held_lines self.old) (line_of addr) →
            IsMissed S.read_moved S.write_moved
            self.old.lines self.old.store (line_of addr)
            (λ bytes. with_number bytes (addr % 64) width value) (result_err result)
            self.new.lines self.new.store }
        ensures kept { self.new.stop ≡ option_or self.old.stop (result_err result) }

        // The line is the most recently used one of its set and marked, with the number in its copy. The one that goes out for
        // it is the least recently used. Where the write of that one stops, it stays.
        ensures ways { OnOk result ((copy : List ℕ)
            × (self.new.lines ≡ with_changed (brought self.old.lines (line_of addr) copy)
            (line_of addr) (with_number copy (addr % 64) width value))) }
        ensures ways_left { IfErr result (λ stop. IsStoppedMiss S.read_moved S.write_moved
            (leaving self.old.lines (line_of addr))
            self.old.lines self.old.store (line_of addr) stop self.new.lines self.new.store) }
    {
        let (line, at) = (addr / LINE_LEN, (addr % LINE_LEN) as usize);
        if self.lines.write(line, at, width, value) {
            return Ok(());
        }
        self.bring(line)?;
        self.lines.write(line, at, width, value);
        Ok(())
    }

    ghost sized = { λ cache. length-contents_over (S.contents cache.store) (S.extent cache.store) cache.lines };

    ghost unmoved = { λ cache. refl };

    ghost moved_on = { λ first second third before after a b.
        moved_on S.read_moved S.write_moved first second third before after a b };
}
