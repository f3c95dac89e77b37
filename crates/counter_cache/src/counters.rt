// The counters of all pages, by the tree over their blocks and copies of these.
ghost use Rattle.std.specs.Prelude.{true, false, ◌≡◌, ◌≢◌, ◌⊎◌, ◌+◌, ◌<◌, ◌≤◌, ◌++◌, ◌∷◌, ℕ, List, [], None, Some, Ok, IfOk, IsOk, OnOk, OnErr, Contains, length};
ghost use Rattle.std.specs.Result.{result_err};
ghost use Rattle.sec_base.specs.Geometry.{page_count};
ghost use Rattle.sec_base.specs.declared.counter.Counter.{Counter};
ghost use Rattle.sec_base.specs.declared.place.Place.TheVariants.{Node as node_place};
ghost use Rattle.bus_model.specs.BusHistory.{NothingWritten};
ghost use Rattle.cache_set.specs.CacheSet.{HasRoom};
ghost use Rattle.cache_set.specs.Bringing.{with_room};
ghost use Rattle.cache_set.specs.Cache.{IsLatest, set_at, way_at};
ghost use Rattle.tag_engine.specs.TagEngine.{tags_of};
ghost use Rattle.checked_bus.specs.Makes.{MakesAccesses};
ghost use Rattle.split_counter.specs.declared.bumped.Bumped.TheVariants.{Line, Page, Spent};
ghost use Rattle.split_counter.specs.CounterBlock.{IsCounterBlock, bumped, new_block};
ghost use Rattle.bonsai_tree.specs.Node.{CachedNode, level_blocks, no_tag, page_block};
ghost use Rattle.bonsai_tree.specs.Tree.{IsNodeFrom, cached_nodes, path_accesses};
ghost use Rattle.counter_cache.specs.Counters.{AreCopies, HoldsCounters, LeavesClean, LeavingIsMade, OnlyLeavingIsMade, cached_block, cached_pages, counters_in};
ghost use Rattle.counter_cache.specs.Having.{Has};
ghost use Rattle.counter_cache.specs.HadCounters.{HadCounters, IsBumped, IsCounted, IsLineCounter};

use bonsai_tree::Tree;
use bus_model::Bus;
use cache_set::{Cache, Way};
use sec_base::{Geometry, MemStop, NoMemory, Tagger};
use split_counter::{Bumped, CounterBlock};
use std::alloc::Global;
use std::marker::Model;
use tag_engine::TagEngine;

/// The counters of all pages. The chip keeps copies of the most recently used counter blocks, in 16 sets of two ways, and
/// writes one that was changed only when it goes out.
#[derive(Drop)]
pub struct Counters {
    tree: Tree,
    blocks: Cache<16>,
}

impl Model for Counters {
    ghost use Rattle.counter_cache.specs.Counters.{AreCopies, CountersView};

    ghost Value = { CountersView };

    ghost view = { λ counters. record { tree = counters.tree; blocks = counters.blocks } };

    ghost invariant = { λ counters. AreCopies (record { tree = counters.tree; blocks = counters.blocks }) };
}

impl Counters {
    /// Counters that are all 0: no block was ever made, and none has a copy. It makes no access and no message. It takes
    /// memory for the copies alone, and is refused only where there is none.
    pub fn boot<B: Bus, T: Tagger>(
        alloc: Global,
        geometry: Geometry,
        bus: &mut B,
        tags: &mut TagEngine<T>,
    ) -> Result<Counters, NoMemory>
        requires bus { (B.history bus.old).geometry ≡ geometry }
        requires engine { tags.old.geometry ≡ geometry }
        requires nothing_written { NothingWritten (B.history bus.old) }
        requires nothing_made { tags.old.made ≡ [] }

        ensures geometry { IfOk result (λ counters. counters.tree.geometry ≡ geometry) }
        ensures root { IfOk result (λ counters. counters.tree.root ≡ no_tag) }
        ensures empty { IfOk result (λ counters. cached_pages counters ≡ []) }
        ensures empty_nodes { IfOk result (λ counters. (level : ℕ) →
            cached_nodes counters.tree level ≡ []) }
        ensures zeros { IfOk result (λ counters. (page : ℕ) → page < page_count geometry →
            counters_in counters tags.new.made page ≡ new_block) }
        ensures copies { IfOk result AreCopies }
        ensures holds { IfOk result (λ counters.
            HoldsCounters (tags_of T.data_tag_of T.node_tag_of) counters (B.history bus.new)
            tags.new) }

        // Whether memory was there or not.
        ensures bus { bus.new ≡ bus.old }
        ensures tags { tags.new ≡ tags.old }
    {
        let blocks = Cache::new(alloc)?;
        let tree = Tree::boot(alloc, geometry, bus, tags)?;
        Ok(Counters { tree, blocks })
    }

    /// The counters of a page: those of its block's copy, or of the block that the tree gives for it. The block that goes out for
    /// it is first written by the tree, if it was changed.
    pub fn get<B: Bus, T: Tagger>(
        &mut self,
        bus: &mut B,
        tags: &mut TagEngine<T>,
        page: u32,
    ) -> Result<CounterBlock, MemStop>
        requires page { page < page_count self.old.tree.geometry }
        requires bus { (B.history bus.old).geometry ≡ self.old.tree.geometry }
        requires engine { tags.old.geometry ≡ self.old.tree.geometry }

        ensures geometry { self.new.tree.geometry ≡ self.old.tree.geometry }
        ensures had { HadCounters (tags_of T.data_tag_of T.node_tag_of)
            self.old (B.history bus.old) tags.old self.new (B.history bus.new) tags.new page
            (result_err result) }
        ensures answer { IfOk result (λ block. block ≡ counters_in self.new tags.new.made page) }
        ensures is_block { IfOk result IsCounterBlock }
        ensures accesses { MakesAccesses B.moved (tags_of T.data_tag_of T.node_tag_of tags.old)
            bus.old tags.old bus.new tags.new (result_err result) }
    {
        self.bring(bus, tags, page)?;
        Ok(CounterBlock::from_bytes(self.blocks.latest(page)))
    }

    /// Counts a write of the line at a place of a page, as `CounterBlock::bump` does: the page's block is had as in `get`, and its
    /// copy gets the new counters, unless the line is spent.
    pub fn bump<B: Bus, T: Tagger>(
        &mut self,
        bus: &mut B,
        tags: &mut TagEngine<T>,
        page: u32,
        place: u8,
        limit: u64,
    ) -> Result<Bumped, MemStop>
        requires page { page < page_count self.old.tree.geometry }
        requires place { place < 64 }
        requires bus { (B.history bus.old).geometry ≡ self.old.tree.geometry }
        requires engine { tags.old.geometry ≡ self.old.tree.geometry }

        ensures geometry { self.new.tree.geometry ≡ self.old.tree.geometry }
        ensures bumped { IsBumped (tags_of T.data_tag_of T.node_tag_of)
            self.old (B.history bus.old) tags.old self.new (B.history bus.new) tags.new page place
            limit result }
        ensures copies { AreCopies self.new }
        ensures accesses { MakesAccesses B.moved (tags_of T.data_tag_of T.node_tag_of tags.old)
            bus.old tags.old bus.new tags.new (result_err result) }
        ensures line { (counter : Counter) → result ≡ Ok (Line counter) → IsLineCounter counter }
        ensures overflow { (next : ℕ) → result ≡ Ok (Page next) → (0 < next) × (next ≤ limit) }
    {
        self.get(bus, tags, page)?;
        Ok(self.count(page, place, limit))
    }

    /// Counts a write of the line at a place of a page whose counters were just had, as `CounterBlock::bump` does. The page's
    /// copy gets the new counters, unless the line is spent. No bus is needed.
    pub fn count(&mut self, page: u32, place: u8, limit: u64) -> Bumped
        requires latest { IsLatest self.old.blocks page }
        requires place { place < 64 }

        ensures counted { IsCounted self.old self.new page place limit result }
        ensures copies { AreCopies self.new }
        ensures line { (counter : Counter) → result ≡ Line counter → IsLineCounter counter }
        ensures overflow { (next : ℕ) → result ≡ Page next → (0 < next) × (next ≤ limit) }
    {
        let mut block = CounterBlock::from_bytes(self.blocks.latest(page));
        let outcome = block.bump(place, limit);
        if outcome == Bumped::Spent {
            return outcome;
        }
        self.blocks.change(page, block.to_bytes());
        outcome
    }

    // Brings a page's block onto the chip, as the most recently used one of its set.
    fn bring<B: Bus, T: Tagger>(
        &mut self,
        bus: &mut B,
        tags: &mut TagEngine<T>,
        page: u32,
    ) -> Result<(), MemStop>
        requires page { page < page_count self.old.tree.geometry }
        requires bus { (B.history bus.old).geometry ≡ self.old.tree.geometry }
        requires engine { tags.old.geometry ≡ self.old.tree.geometry }

        ensures had { HadCounters (tags_of T.data_tag_of T.node_tag_of)
            self.old (B.history bus.old) tags.old self.new (B.history bus.new) tags.new page
            (result_err result) }
        ensures accesses { MakesAccesses B.moved (tags_of T.data_tag_of T.node_tag_of tags.old)
            bus.old tags.old bus.new tags.new (result_err result) }
    {
        if self.blocks.touch(page) {
            return Ok(());
        }
        self.make_room(bus, tags, page)?;
        let block = self.tree.fetch(bus, tags, page)?;
        self.blocks.put(page, block);
        Ok(())
    }

    // Evicts the copy that goes out for that of a page, and has it written first where it was changed.
    fn make_room<B: Bus, T: Tagger>(
        &mut self,
        bus: &mut B,
        tags: &mut TagEngine<T>,
        page: u32,
    ) -> Result<(), MemStop>
        requires page { page < page_count self.old.tree.geometry }
        requires absent { way_at self.old.blocks page ≡ None }
        requires bus { (B.history bus.old).geometry ≡ self.old.tree.geometry }
        requires engine { tags.old.geometry ≡ self.old.tree.geometry }

        ensures has { Has (tags_of T.data_tag_of T.node_tag_of)
            (IsNodeFrom self.old.tree.geometry 1)
            self.old (B.history bus.old) tags.old self.new (B.history bus.new) tags.new
            (result_err result) }
        ensures once { (B.history bus.new).accesses
            ≤ (B.history bus.old).accesses + path_accesses self.old.tree.geometry.levels }
        ensures few { length tags.new.made
            ≤ length tags.old.made + path_accesses self.old.tree.geometry.levels }
        ensures room { tags.old.room ≤ tags.new.room + path_accesses self.old.tree.geometry.levels }
        ensures absent { way_at self.new.blocks page ≡ None }
        ensures ways { OnOk result (self.new.blocks ≡ with_room self.old.blocks page) }
        ensures ways_kept { OnErr result (self.new.blocks ≡ self.old.blocks) }
        ensures room_for { OnOk result (HasRoom (set_at self.new.blocks page)) }
        ensures no_block_read { (other : ℕ) →
            (B.history bus.new).reads (node_place 0 other)
            ≡ (B.history bus.old).reads (node_place 0 other) }
        ensures idle { LeavesClean self.old page →
            (B.history bus.new).accesses ≡ (B.history bus.old).accesses }
        ensures written { OnlyLeavingIsMade self.old page tags.old.made tags.new.made }
        ensures gone { (other : ℕ) (copy : CachedNode) → cached_block self.old other ≡ Some copy →
            copy.changed ≡ true → cached_block self.new other ≡ None →
            LeavingIsMade self.old page tags.old.made tags.new.made }
        ensures accesses { MakesAccesses B.moved (tags_of T.data_tag_of T.node_tag_of tags.old)
            bus.old tags.old bus.new tags.new (result_err result) }
    {
        let Some(victim) = self.blocks.victim(page) else {
            return Ok(());
        };
        self.write_back(bus, tags, &victim)?;
        self.blocks.remove(victim.place);
        Ok(())
    }

    // Has the tree write a copy, if it was changed.
    fn write_back<B: Bus, T: Tagger>(
        &mut self,
        bus: &mut B,
        tags: &mut TagEngine<T>,
        victim: &Way,
    ) -> Result<(), MemStop>
        requires page { victim.now.place < page_count self.old.tree.geometry }
        requires held { way_at self.old.blocks victim.now.place ≡ Some victim.now }
        requires bus { (B.history bus.old).geometry ≡ self.old.tree.geometry }
        requires engine { tags.old.geometry ≡ self.old.tree.geometry }

        ensures has { Has (tags_of T.data_tag_of T.node_tag_of)
            (IsNodeFrom self.old.tree.geometry 1)
            self.old (B.history bus.old) tags.old self.new (B.history bus.new) tags.new
            (result_err result) }
        ensures once { (B.history bus.new).accesses
            ≤ (B.history bus.old).accesses + path_accesses self.old.tree.geometry.levels }
        ensures few { length tags.new.made
            ≤ length tags.old.made + path_accesses self.old.tree.geometry.levels }
        ensures room { tags.old.room ≤ tags.new.room + path_accesses self.old.tree.geometry.levels }
        ensures blocks { self.new.blocks ≡ self.old.blocks }
        ensures last { OnOk result (HoldsCounters (tags_of T.data_tag_of T.node_tag_of) self.new
            (B.history bus.new) tags.new →
            tags.new.evidence ≡ None →
            victim.now.copy ≡ page_block victim.now.place tags.new.made) }
        ensures no_block_read { (other : ℕ) →
            (B.history bus.new).reads (node_place 0 other)
            ≡ (B.history bus.old).reads (node_place 0 other) }
        ensures idle { victim.now.changed ≡ false →
            (B.history bus.new).accesses ≡ (B.history bus.old).accesses }
        ensures written { (level_blocks 0 tags.new.made ≡ level_blocks 0 tags.old.made)
            ⊎ ((victim.now.changed ≡ true)
            × (level_blocks 0 tags.new.made
            ≡ level_blocks 0 tags.old.made ++ (victim.now.place, victim.now.copy) ∷ [])) }
        ensures made { OnOk result (victim.now.changed ≡ true → level_blocks 0 tags.new.made
            ≡ level_blocks 0 tags.old.made ++ (victim.now.place, victim.now.copy) ∷ []) }
        ensures accesses { MakesAccesses B.moved (tags_of T.data_tag_of T.node_tag_of tags.old)
            bus.old tags.old bus.new tags.new (result_err result) }
    {
        if !victim.changed {
            return Ok(());
        }
        self.tree.update(bus, tags, victim.place, &victim.copy)
    }
}
