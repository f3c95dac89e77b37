// The tree, of which the chip keeps the root register and copies of nodes.
ghost use Rattle.std.specs.Prelude.{true, ◌≡◌, ◌≢◌, ◌⊎◌, ◌+◌, ◌-◌, ◌/◌, ◌<◌, ◌≤◌, ◌++◌, ◌∷◌, ℕ, List, [], None, Some, Ok, Err, IfOk, OnOk, OnErr, length};
ghost use Rattle.std.specs.Result.{result_err};
ghost use Rattle.sec_base.specs.Geometry.{IsNode, page_count, parent, slot};
ghost use Rattle.sec_base.specs.LastMessage.{last_node};
ghost use Rattle.sec_base.specs.Place.{IsPlace};
ghost use Rattle.sec_base.specs.declared.evidence.Evidence.{Evidence};
ghost use Rattle.sec_base.specs.declared.evidence.Evidence.TheVariants.{Collision};
ghost use Rattle.sec_base.specs.declared.message.Message.{Message};
ghost use Rattle.sec_base.specs.declared.message.Message.TheVariants.{Node};
ghost use Rattle.sec_base.specs.declared.place.Place.{Place};
ghost use Rattle.sec_base.specs.declared.place.Place.TheVariants.{Node as node_place};
ghost use Rattle.sec_base.specs.declared.stop.MemStop.TheVariants.{Tampered};
ghost use Rattle.bus_model.specs.Access.{Access};
ghost use Rattle.bus_model.specs.BusHistory.{NothingWritten};
ghost use Rattle.cache_set.specs.CacheSet.{HasRoom};
ghost use Rattle.cache_set.specs.Cache.{set_at};
ghost use Rattle.tag_engine.specs.TagEngine.{tags_of};
ghost use Rattle.checked_bus.specs.Makes.{Makes};
ghost use Rattle.bonsai_tree.specs.KeptRead.{IsKeptNode, ReadsKept};
ghost use Rattle.bonsai_tree.specs.Climb.{Climbs, IsBlockOf, IsVictim, MakesRoom, NoNode, WritesUp};
ghost use Rattle.bonsai_tree.specs.Node.{CachedNode, block_or_zeros, level_blocks, no_tag, page_block, times_made, with_tag};
ghost use Rattle.bonsai_tree.specs.NodeCache.{AreNodeCaches, IsLatestNode, OtherLevels, OtherNodes, level_cache, node_way};
ghost use Rattle.bonsai_tree.specs.NodesHad.{HadAbove, IsAboveMade, MayClimb, MustClimb, NodeAdded, NodesHad, RoomHad, SameOrders, since};
ghost use Rattle.bonsai_tree.specs.TreeCall.{TreeCall};
ghost use Rattle.bonsai_tree.specs.Tree.{EndsQuietly, GoesOutFor, HasChild, HoldsTree, IsFetchPlace, IsKept, IsMarked, IsReadByTag, IsNodeFrom, NodeCame, PathWasRead, SamePages, cached_node, cached_nodes, current_block, kept_tag, present_accesses, want_of};

use crate::node_cache::NodeCache;
use crate::slots::{put_tag, slot_tag};
use bus_model::Bus;
use cache_set::Way;
use checked_bus::{read_node, write_node};
use sec_base::{Geometry, MemStop, NoMemory, TAG_LEN, Tagger};
use std::alloc::Global;
use std::marker::Model;
use tag_engine::TagEngine;

// The tag that is kept of a node that was never made.
const NO_TAG: [u8; TAG_LEN] = [0; TAG_LEN];

/// The tree over the counter blocks of all pages. The chip keeps copies of nodes, and in the root register the tag that is
/// kept of the top node. A node that was never made (no message of it was tagged) is zeros, and so is the tag that is kept of
/// it. The top node is one of these: its copy never goes out.
#[derive(Drop)]
pub struct Tree {
    root: [u8; TAG_LEN],
    nodes: NodeCache,
}

impl Model for Tree {
    ghost use Rattle.bonsai_tree.specs.NodeCache.{AreNodeCaches};
    ghost use Rattle.bonsai_tree.specs.Tree.{TreeView};

    ghost Value = { TreeView };

    ghost view = { λ tree. record { geometry = tree.nodes.geometry; root = tree.root; caches = tree.nodes.caches } };

    ghost invariant = { λ tree. AreNodeCaches tree.nodes.geometry tree.nodes.caches };
}

impl Tree {
    /// A tree of which no node was made, without a copy on the chip: its counter blocks are zeros, and so is the root
    /// register. It makes no access and no message. It takes memory for the copies alone, and is refused only where there is
    /// none.
    pub fn boot<B: Bus, T: Tagger>(
        alloc: Global,
        geometry: Geometry,
        bus: &mut B,
        tags: &mut TagEngine<T>,
    ) -> Result<Tree, NoMemory>
        requires bus { (B.history bus.old).geometry ≡ geometry }
        requires engine { tags.old.geometry ≡ geometry }
        requires nothing_written { NothingWritten (B.history bus.old) }
        requires nothing_made { tags.old.made ≡ [] }

        ensures geometry { IfOk result (λ tree. tree.geometry ≡ geometry) }
        ensures root { IfOk result (λ tree. tree.root ≡ no_tag) }
        ensures empty { IfOk result (λ tree. (level : ℕ) → cached_nodes tree level ≡ []) }
        ensures holds { IfOk result (λ tree. HoldsTree (tags_of T.data_tag_of T.node_tag_of) tree
            (B.history bus.new) tags.new) }

        // Whether memory was there or not.
        ensures bus { bus.new ≡ bus.old }
        ensures tags { tags.new ≡ tags.old }
        ensures makes { (accesses : List Access) × B.moved bus.old accesses bus.new
            × Makes (tags_of T.data_tag_of T.node_tag_of tags.old) (λ used. Unit {0})
            (B.history bus.old) tags.old (B.history bus.new) tags.new accesses (want_of result) }
    {
        let nodes = NodeCache::new(alloc, geometry)?;
        Ok(Tree {
            root: NO_TAG,
            nodes,
        })
    }

    /// The counter block of a page. The nodes above it are had first, those up to the lowest one with a copy, from there down:
    /// each that has none is read from its place and checked against the tag that its parent keeps, the top node against the
    /// root register; a node of which no tag is kept is zeros, without an access. A copy that goes out for another is written
    /// first, if it was changed, and its tag is put into its parent, which is had for that. It is refused as tampering of the
    /// first node that has another tag, where nothing more is read, and out of memory.
    pub fn fetch<B: Bus, T: Tagger>(
        &mut self,
        bus: &mut B,
        tags: &mut TagEngine<T>,
        page: u32,
    ) -> Result<[u8; 64], MemStop>
        requires page { page < page_count self.old.geometry }
        requires bus { (B.history bus.old).geometry ≡ self.old.geometry }
        requires engine { tags.old.geometry ≡ self.old.geometry }

        ensures geometry { self.new.geometry ≡ self.old.geometry }
        // Tampering and evidence name the page's own place, or that of a node above level 0.
        ensures called { TreeCall (tags_of T.data_tag_of T.node_tag_of)
            (IsFetchPlace self.old.geometry page)
            self.old (B.history bus.old) tags.old self.new (B.history bus.new) tags.new
            (result_err result) }

        // It is the page's last block, or there is evidence. No page gets another block.
        ensures block { HoldsTree (tags_of T.data_tag_of T.node_tag_of) self.old (B.history bus.old)
            tags.old →
            tags.new.evidence ≡ None →
            IfOk result (λ block. block ≡ page_block page tags.old.made) }
        ensures pages { SamePages (B.history bus.old) tags.old.made (B.history bus.new)
            tags.new.made }
        ensures no_page { level_blocks 0 tags.new.made ≡ level_blocks 0 tags.old.made }

        // Evidence of the page's own block is of the one that is answered.
        ensures accepted { (made_at : ℕ) (bytes tag : List ℕ) → tags.old.evidence ≡ None →
            tags.new.evidence ≡ Some (Collision 0 page made_at bytes tag) →
            result ≡ Ok bytes }

        // Whatever was answered, it has the tag that is kept of it by the node above it, which has a copy; or it is zeros, and
        // none is kept. That node is the most recently used one of its set.
        ensures checked { IfOk result (IsKept (tags_of T.data_tag_of T.node_tag_of tags.old)
            self.new tags.new.made 0 page) }
        ensures parent { OnOk result (IsLatestNode self.new.caches 1
            (parent self.old.geometry 0 page).1) }

        // With evidence or without, the page's block is read exactly where a tag is kept of it, no other page's is, and it is read
        // once at most where the call is refused too.
        ensures by_tag { OnOk result (IsReadByTag (kept_tag self.new tags.new.made 0 page) page
            (B.history bus.old) (B.history bus.new)) }
        ensures alone { (other : ℕ) → other ≢ page →
            (B.history bus.new).reads (node_place 0 other)
            ≡ (B.history bus.old).reads (node_place 0 other) }
        ensures block_once { (B.history bus.new).reads (node_place 0 page)
            ≤ (B.history bus.old).reads (node_place 0 page) + 1 }

        // Where there is no evidence, the nodes of its path were read, up to the lowest one with a copy, but those that were
        // never made.
        ensures read { HoldsTree (tags_of T.data_tag_of T.node_tag_of) self.old (B.history bus.old)
            tags.old →
            tags.new.evidence ≡ None →
            OnOk result (PathWasRead self.old tags.old.made 0 page (B.history bus.old)
            (B.history bus.new)) }
        ensures hit { cached_node self.old 1 (parent self.old.geometry 0 page).1 ≢ None →
            (B.history bus.new).accesses ≤ (B.history bus.old).accesses + 1 }
        ensures hit_made { cached_node self.old 1 (parent self.old.geometry 0 page).1 ≢ None →
            tags.new.made ≡ tags.old.made }

        // Its accesses, where the tree is expected to fit.
        ensures makes { (accesses : List Access) × B.moved bus.old accesses bus.new
            × Makes (tags_of T.data_tag_of T.node_tag_of tags.old)
            (λ used. HoldsTree (tags_of T.data_tag_of T.node_tag_of) self.old (B.history bus.old)
            tags.old)
            (B.history bus.old) tags.old (B.history bus.new) tags.new accesses (result_err result) }
    {
        self.parent_present(bus, tags, 0, page)?;
        let tag = self.kept_tag(0, page);
        read_kept(bus, tags, 0, page, &tag)
    }

    /// Gives a page a new counter block: the nodes above it are had as in `fetch`, then the block is written, and its tag put
    /// into the copy of the node above it. Memory for each message is taken right before its write. It is refused as tampering
    /// of a node above level 0, where the page keeps its block, and out of memory, where it has the old or the new one.
    pub fn update<B: Bus, T: Tagger>(
        &mut self,
        bus: &mut B,
        tags: &mut TagEngine<T>,
        page: u32,
        block: &[u8; 64],
    ) -> Result<(), MemStop>
        requires page { page < page_count self.old.geometry }
        requires bus { (B.history bus.old).geometry ≡ self.old.geometry }
        requires engine { tags.old.geometry ≡ self.old.geometry }

        ensures geometry { self.new.geometry ≡ self.old.geometry }
        // Tampering and evidence name the place of a node above level 0.
        ensures called { TreeCall (tags_of T.data_tag_of T.node_tag_of)
            (IsNodeFrom self.old.geometry 1)
            self.old (B.history bus.old) tags.old self.new (B.history bus.new) tags.new
            (result_err result) }

        // The page's last block is the new one, and no other page gets another. The page's own is made once, and once at most
        // where the call is refused: its last block is the old or the new one then.
        ensures block { OnOk result (last_node 0 page tags.new.made ≡ Some block.now) }
        ensures others { (other : ℕ) → other ≢ page →
            last_node 0 other tags.new.made ≡ last_node 0 other tags.old.made }
        ensures beside { (other : ℕ) → other ≢ page →
            (B.history bus.new).written (node_place 0 other)
            ≡ (B.history bus.old).written (node_place 0 other) }
        ensures one_page { OnOk result (level_blocks 0 tags.new.made
            ≡ level_blocks 0 tags.old.made ++ (page, block.now) ∷ []) }
        ensures one_at_most { (level_blocks 0 tags.new.made ≡ level_blocks 0 tags.old.made)
            ⊎ (level_blocks 0 tags.new.made
            ≡ level_blocks 0 tags.old.made ++ (page, block.now) ∷ []) }

        // Where a node is taken for tampered, no page got another block.
        ensures pages { (place : Place) → result ≡ Err (Tampered place) →
            SamePages (B.history bus.old) tags.old.made (B.history bus.new) tags.new.made }

        // The node above the page's block keeps its tag: it has a copy then, marked as changed, and is the most recently used
        // one of its set.
        ensures parent { OnOk result (IsMarked self.new 1 (parent self.old.geometry 0 page).1) }
        ensures latest { OnOk result (IsLatestNode self.new.caches 1
            (parent self.old.geometry 0 page).1) }

        // No page's block is read.
        ensures no_block_read { (other : ℕ) →
            (B.history bus.new).reads (node_place 0 other)
            ≡ (B.history bus.old).reads (node_place 0 other) }

        // Where there is no evidence, the nodes above it were read, up to the lowest one with a copy, but those that were never
        // made.
        ensures read { HoldsTree (tags_of T.data_tag_of T.node_tag_of) self.old (B.history bus.old)
            tags.old →
            tags.new.evidence ≡ None →
            OnOk result (PathWasRead self.old tags.old.made 1 page (B.history bus.old)
            (B.history bus.new)) }
        ensures hit { cached_node self.old 1 (parent self.old.geometry 0 page).1 ≢ None →
            (B.history bus.new).accesses ≤ (B.history bus.old).accesses + 1 }
        ensures hit_made { cached_node self.old 1 (parent self.old.geometry 0 page).1 ≢ None →
            (tags.new.made ≡ tags.old.made)
            ⊎ (tags.new.made ≡ tags.old.made ++ Node 0 page block.now ∷ []) }

        // Its accesses, where the tree is expected to fit.
        ensures makes { (accesses : List Access) × B.moved bus.old accesses bus.new
            × Makes (tags_of T.data_tag_of T.node_tag_of tags.old)
            (λ used. HoldsTree (tags_of T.data_tag_of T.node_tag_of) self.old (B.history bus.old)
            tags.old)
            (B.history bus.old) tags.old (B.history bus.new) tags.new accesses (result_err result) }
    {
        self.parent_present(bus, tags, 0, page)?;
        self.write_below(bus, tags, 0, page, block)?;
        Ok(())
    }

    // Brings a node of a level above level 0 onto the chip, as the most recently used one of its set.
    #[cycle(present)]
    fn present<B: Bus, T: Tagger>(
        &mut self,
        bus: &mut B,
        tags: &mut TagEngine<T>,
        level: u8,
        index: u32,
    ) -> Result<(), MemStop>
        requires node { IsNode self.old.geometry level index }
        requires above { 0 < level }
        requires bus { (B.history bus.old).geometry ≡ self.old.geometry }
        requires engine { tags.old.geometry ≡ self.old.geometry }

        ensures climbs { Climbs (tags_of T.data_tag_of T.node_tag_of) level
            self.old (B.history bus.old) tags.old self.new (B.history bus.new) tags.new
            (result_err result) }
        ensures back { WritesUp (EndsQuietly (tags_of T.data_tag_of T.node_tag_of) self.old
            (B.history bus.old) tags.old tags.new)
            level NoNode
            self.old (B.history bus.old) tags.old.made self.new (B.history bus.new) tags.new.made
            (result_err result) }
        ensures once { (B.history bus.new).accesses
            ≤ (B.history bus.old).accesses + present_accesses self.old.geometry.levels level }
        ensures few { length tags.new.made
            ≤ length tags.old.made + present_accesses self.old.geometry.levels level }
        ensures hit { cached_node self.old level index ≢ None →
            (B.history bus.new ≡ B.history bus.old) × (tags.new ≡ tags.old) }
        ensures latest { OnOk result (IsLatestNode self.new.caches level index) }
        ensures out_for { HoldsTree (tags_of T.data_tag_of T.node_tag_of) self.old
            (B.history bus.old) tags.old →
            tags.new.evidence ≡ None →
            OnOk result (GoesOutFor self.old (B.history bus.old) tags.old.made self.new
            (B.history bus.new)) }
        ensures had { OnOk result (NodesHad
            (MayClimb self.old.geometry level index (since tags.old.made tags.new.made))
            (MustClimb self.old.geometry level index (since tags.old.made tags.new.made))
            level self.old (B.history bus.old) self.new (B.history bus.new)) }
        ensures makes { (accesses : List Access) × B.moved bus.old accesses bus.new
            × Makes (tags_of T.data_tag_of T.node_tag_of tags.old)
            (λ used. HoldsTree (tags_of T.data_tag_of T.node_tag_of) self.old (B.history bus.old)
            tags.old)
            (B.history bus.old) tags.old (B.history bus.new) tags.new accesses (result_err result) }
    {
        if self.nodes.touch(level, index) {
            return Ok(());
        }
        self.make_room(bus, tags, level, index)?;
        self.parent_present(bus, tags, level, index)?;
        self.read_in(bus, tags, level, index)
    }

    // Evicts the copy that goes out for that of a node, and writes it first where it was changed.
    #[cycle(present)]
    fn make_room<B: Bus, T: Tagger>(
        &mut self,
        bus: &mut B,
        tags: &mut TagEngine<T>,
        level: u8,
        index: u32,
    ) -> Result<(), MemStop>
        requires node { IsNode self.old.geometry level index }
        requires above { 0 < level }
        requires absent { node_way self.old.caches level index ≡ None }
        requires bus { (B.history bus.old).geometry ≡ self.old.geometry }
        requires engine { tags.old.geometry ≡ self.old.geometry }

        ensures climbs { Climbs (tags_of T.data_tag_of T.node_tag_of) level
            self.old (B.history bus.old) tags.old self.new (B.history bus.new) tags.new
            (result_err result) }
        ensures back { WritesUp (EndsQuietly (tags_of T.data_tag_of T.node_tag_of) self.old
            (B.history bus.old) tags.old tags.new)
            level NoNode
            self.old (B.history bus.old) tags.old.made self.new (B.history bus.new) tags.new.made
            (result_err result) }
        ensures once { (B.history bus.new).accesses
            ≤ (B.history bus.old).accesses + (present_accesses self.old.geometry.levels (level + 1)
            + 1) }
        ensures few { length tags.new.made
            ≤ length tags.old.made + (present_accesses self.old.geometry.levels (level + 1) + 1) }
        ensures absent { OnOk result (node_way self.new.caches level index ≡ None) }
        ensures room { OnOk result (HasRoom (set_at (level_cache self.new.caches level) index)) }
        ensures out_for { HoldsTree (tags_of T.data_tag_of T.node_tag_of) self.old
            (B.history bus.old) tags.old →
            tags.new.evidence ≡ None →
            OnOk result (MakesRoom level index self.old (B.history bus.old) tags.old.made self.new
            (B.history bus.new)) }
        ensures had { OnOk result (RoomHad
            (IsAboveMade self.old.geometry (since tags.old.made tags.new.made))
            (HasChild self.old.geometry (since tags.old.made tags.new.made))
            level index self.old (B.history bus.old) self.new (B.history bus.new)) }
        ensures makes { (accesses : List Access) × B.moved bus.old accesses bus.new
            × Makes (tags_of T.data_tag_of T.node_tag_of tags.old)
            (λ used. HoldsTree (tags_of T.data_tag_of T.node_tag_of) self.old (B.history bus.old)
            tags.old)
            (B.history bus.old) tags.old (B.history bus.new) tags.new accesses (result_err result) }
    {
        let Some(victim) = self.nodes.victim(level, index) else {
            return Ok(());
        };
        self.write_back(bus, tags, level, &victim)?;
        self.nodes.remove(level, victim.place);
        Ok(())
    }

    // Writes a copy of a node below the top, if it was changed, and puts its tag into the node's parent, which is had for that
    // while the copy is still there.
    #[cycle(present)]
    fn write_back<B: Bus, T: Tagger>(
        &mut self,
        bus: &mut B,
        tags: &mut TagEngine<T>,
        level: u8,
        victim: &Way,
    ) -> Result<(), MemStop>
        requires node { IsNode self.old.geometry level victim.now.place }
        requires above { 0 < level }
        requires below { level < self.old.geometry.levels }
        requires held { node_way self.old.caches level victim.now.place ≡ Some victim.now }
        requires whole { length victim.now.copy ≡ 64 }
        requires bus { (B.history bus.old).geometry ≡ self.old.geometry }
        requires engine { tags.old.geometry ≡ self.old.geometry }

        ensures climbs { Climbs (tags_of T.data_tag_of T.node_tag_of) level
            self.old (B.history bus.old) tags.old self.new (B.history bus.new) tags.new
            (result_err result) }
        ensures back { WritesUp (EndsQuietly (tags_of T.data_tag_of T.node_tag_of) self.old
            (B.history bus.old) tags.old tags.new)
            (level + 1) (IsVictim level victim.now (result_err result))
            self.old (B.history bus.old) tags.old.made self.new (B.history bus.new) tags.new.made
            (result_err result) }
        ensures once { (B.history bus.new).accesses
            ≤ (B.history bus.old).accesses + (present_accesses self.old.geometry.levels (level + 1)
            + 1) }
        ensures few { length tags.new.made
            ≤ length tags.old.made + (present_accesses self.old.geometry.levels (level + 1) + 1) }
        ensures copies { level_cache self.new.caches level ≡ level_cache self.old.caches level }
        ensures written { victim.now.changed ≡ true →
            OnOk result (times_made level victim.now.place tags.old.made
            < times_made level victim.now.place tags.new.made) }
        ensures out_for { HoldsTree (tags_of T.data_tag_of T.node_tag_of) self.old
            (B.history bus.old) tags.old →
            tags.new.evidence ≡ None →
            OnOk result (GoesOutFor self.old (B.history bus.old) tags.old.made self.new
            (B.history bus.new)) }
        ensures last { OnOk result (HoldsTree (tags_of T.data_tag_of T.node_tag_of) self.new
            (B.history bus.new) tags.new →
            tags.new.evidence ≡ None →
            victim.now.copy ≡ block_or_zeros (last_node level victim.now.place tags.new.made)) }
        ensures had { OnOk result (HadAbove
            (IsAboveMade self.old.geometry (since tags.old.made tags.new.made))
            (HasChild self.old.geometry (since tags.old.made tags.new.made))
            level self.old (B.history bus.old) self.new (B.history bus.new)) }
        ensures makes { (accesses : List Access) × B.moved bus.old accesses bus.new
            × Makes (tags_of T.data_tag_of T.node_tag_of tags.old)
            (λ used. HoldsTree (tags_of T.data_tag_of T.node_tag_of) self.old (B.history bus.old)
            tags.old)
            (B.history bus.old) tags.old (B.history bus.new) tags.new accesses (result_err result) }
    {
        if !victim.changed {
            return Ok(());
        }
        self.parent_present(bus, tags, level, victim.place)?;
        self.write_below(bus, tags, level, victim.place, &victim.copy)?;
        Ok(())
    }

    // Brings the parent of a node onto the chip. The top node has none.
    #[cycle(present)]
    fn parent_present<B: Bus, T: Tagger>(
        &mut self,
        bus: &mut B,
        tags: &mut TagEngine<T>,
        level: u8,
        index: u32,
    ) -> Result<(), MemStop>
        requires node { IsNode self.old.geometry level index }
        requires bus { (B.history bus.old).geometry ≡ self.old.geometry }
        requires engine { tags.old.geometry ≡ self.old.geometry }

        ensures climbs { Climbs (tags_of T.data_tag_of T.node_tag_of) (level + 1)
            self.old (B.history bus.old) tags.old self.new (B.history bus.new) tags.new
            (result_err result) }
        ensures back { WritesUp (EndsQuietly (tags_of T.data_tag_of T.node_tag_of) self.old
            (B.history bus.old) tags.old tags.new)
            (level + 1) NoNode
            self.old (B.history bus.old) tags.old.made self.new (B.history bus.new) tags.new.made
            (result_err result) }
        ensures once { (B.history bus.new).accesses
            ≤ (B.history bus.old).accesses + present_accesses self.old.geometry.levels (level + 1) }
        ensures few { length tags.new.made
            ≤ length tags.old.made + present_accesses self.old.geometry.levels (level + 1) }
        ensures hit { cached_node self.old (level + 1) (parent self.old.geometry level index).1
            ≢ None →
            (B.history bus.new ≡ B.history bus.old) × (tags.new ≡ tags.old) }
        ensures latest { level < self.old.geometry.levels →
            OnOk result (IsLatestNode self.new.caches (level + 1)
            (parent self.old.geometry level index).1) }
        ensures out_for { HoldsTree (tags_of T.data_tag_of T.node_tag_of) self.old
            (B.history bus.old) tags.old →
            tags.new.evidence ≡ None →
            OnOk result (GoesOutFor self.old (B.history bus.old) tags.old.made self.new
            (B.history bus.new)) }
        ensures some { 0 < self.old.geometry.levels }
        ensures nodes { AreNodeCaches self.new.geometry self.new.caches }
        ensures had { OnOk result (HadAbove
            (MayClimb self.old.geometry level index (since tags.old.made tags.new.made))
            (MustClimb self.old.geometry (level + 1) (parent self.old.geometry level index).1
            (since tags.old.made tags.new.made))
            level self.old (B.history bus.old) self.new (B.history bus.new)) }
        ensures makes { (accesses : List Access) × B.moved bus.old accesses bus.new
            × Makes (tags_of T.data_tag_of T.node_tag_of tags.old)
            (λ used. HoldsTree (tags_of T.data_tag_of T.node_tag_of) self.old (B.history bus.old)
            tags.old)
            (B.history bus.old) tags.old (B.history bus.new) tags.new accesses (result_err result) }
    {
        let geometry = self.nodes.geometry();
        if level == geometry.levels() {
            return Ok(());
        }
        self.present(bus, tags, level + 1, geometry.parent(level, index).1)
    }

    // Brings a node whose parent is on the chip, by the tag that is kept of it: as it is read, or zeros.
    fn read_in<B: Bus, T: Tagger>(
        &mut self,
        bus: &mut B,
        tags: &mut TagEngine<T>,
        level: u8,
        index: u32,
    ) -> Result<(), MemStop>
        requires node { IsNode self.old.geometry level index }
        requires above { 0 < level }
        requires absent { node_way self.old.caches level index ≡ None }
        requires room { HasRoom (set_at (level_cache self.old.caches level) index) }
        requires parent { level < self.old.geometry.levels →
            IsLatestNode self.old.caches (level + 1) (parent self.old.geometry level index).1 }
        requires bus { (B.history bus.old).geometry ≡ self.old.geometry }
        requires engine { tags.old.geometry ≡ self.old.geometry }

        ensures climbs { Climbs (tags_of T.data_tag_of T.node_tag_of) level
            self.old (B.history bus.old) tags.old self.new (B.history bus.new) tags.new
            (result_err result) }
        ensures back { WritesUp (EndsQuietly (tags_of T.data_tag_of T.node_tag_of) self.old
            (B.history bus.old) tags.old tags.new)
            level NoNode
            self.old (B.history bus.old) tags.old.made self.new (B.history bus.new) tags.new.made
            (result_err result) }
        ensures once { (B.history bus.new).accesses ≤ (B.history bus.old).accesses + 1 }
        ensures made { tags.new.made ≡ tags.old.made }
        ensures latest { OnOk result (IsLatestNode self.new.caches level index) }
        ensures came { HoldsTree (tags_of T.data_tag_of T.node_tag_of) self.old (B.history bus.old)
            tags.old →
            tags.new.evidence ≡ None →
            OnOk result (NodeCame tags.old.made level index (B.history bus.old)
            (B.history bus.new)) }
        ensures kept { (other at : ℕ) → cached_node self.old other at ≢ None →
            cached_node self.new other at ≢ None }
        ensures had { OnOk result (NodeAdded level index self.old (B.history bus.old) self.new
            (B.history bus.new)) }
        ensures makes { (accesses : List Access) × B.moved bus.old accesses bus.new
            × Makes (tags_of T.data_tag_of T.node_tag_of tags.old)
            (λ used. HoldsTree (tags_of T.data_tag_of T.node_tag_of) self.old (B.history bus.old)
            tags.old)
            (B.history bus.old) tags.old (B.history bus.new) tags.new accesses (result_err result) }
    {
        let tag = self.kept_tag(level, index);
        let block = read_kept(bus, tags, level, index, &tag)?;
        self.nodes.put(level, index, block);
        Ok(())
    }

    // Writes a block of a node below the top whose parent is on the chip, and puts its tag into the parent's copy.
    fn write_below<B: Bus, T: Tagger>(
        &mut self,
        bus: &mut B,
        tags: &mut TagEngine<T>,
        level: u8,
        index: u32,
        block: &[u8; 64],
    ) -> Result<(), NoMemory>
        requires node { IsNode self.old.geometry level index }
        requires below { level < self.old.geometry.levels }
        requires parent { IsLatestNode self.old.caches (level + 1)
            (parent self.old.geometry level index).1 }
        requires current { (level ≡ 0)
            ⊎ (current_block self.old tags.old.made level index ≡ block.now) }
        requires bus { (B.history bus.old).geometry ≡ self.old.geometry }
        requires engine { tags.old.geometry ≡ self.old.geometry }

        ensures climbs { Climbs (tags_of T.data_tag_of T.node_tag_of) level
            self.old (B.history bus.old) tags.old self.new (B.history bus.new) tags.new
            (want_of result) }
        ensures back { WritesUp (EndsQuietly (tags_of T.data_tag_of T.node_tag_of) self.old
            (B.history bus.old) tags.old tags.new)
            (level + 1) (IsBlockOf level index block.now)
            self.old (B.history bus.old) tags.old.made self.new (B.history bus.new) tags.new.made
            (want_of result) }
        ensures once { (B.history bus.new).accesses ≤ (B.history bus.old).accesses + 1 }
        ensures few { length tags.new.made ≤ length tags.old.made + 1 }
        ensures copies { OtherLevels (level + 1) self.old.caches self.new.caches }
        ensures kept { (other at : ℕ) → cached_node self.old other at ≢ None →
            cached_node self.new other at ≢ None }
        ensures marked { OnOk result
            (IsMarked self.new (level + 1) (parent self.old.geometry level index).1) }
        ensures made { OnOk result (tags.new.made
            ≡ tags.old.made ++ Node level index block.now ∷ []) }
        ensures one_at_most { (tags.new.made ≡ tags.old.made)
            ⊎ (tags.new.made ≡ tags.old.made ++ Node level index block.now ∷ []) }
        ensures own { OnOk result (last_node level index tags.new.made ≡ Some block.now) }
        ensures refused { OnErr result ((last_node level index tags.new.made
            ≡ last_node level index tags.old.made)
            ⊎ (last_node level index tags.new.made ≡ Some block.now)) }
        ensures others { (at : ℕ) → at ≢ index → last_node level at tags.new.made
            ≡ last_node level at tags.old.made }
        ensures beside { (at : ℕ) → at ≢ index →
            (B.history bus.new).written (node_place level at)
            ≡ (B.history bus.old).written (node_place level at) }
        ensures quiet { tags.new.evidence ≡ tags.old.evidence }
        ensures reads { (B.history bus.new).reads ≡ (B.history bus.old).reads }
        ensures orders { SameOrders self.old self.new }
        ensures makes { (accesses : List Access) × B.moved bus.old accesses bus.new
            × Makes (tags_of T.data_tag_of T.node_tag_of tags.old)
            (λ used. Unit {0})
            (B.history bus.old) tags.old (B.history bus.new) tags.new accesses (want_of result) }
    {
        tags.reserve(1)?;
        let tag = write_node(bus, tags, level, index, block)?;
        self.keep_tag(level, index, &tag);
        Ok(())
    }

    // The tag that is kept of a node whose parent is on the chip: in the parent's copy, or of the top node in the root
    // register.
    fn kept_tag(&self, level: u8, index: u32) -> [u8; TAG_LEN]
        requires node { IsNode self.now.geometry level index }
        requires parent { level < self.now.geometry.levels →
            IsLatestNode self.now.caches (level + 1) (parent self.now.geometry level index).1 }
        ensures { (made : List Message) → result ≡ kept_tag self.now made level index }
    {
        let geometry = self.nodes.geometry();
        if level == geometry.levels() {
            return self.root;
        }
        let block = self
            .nodes
            .latest(level + 1, geometry.parent(level, index).1);
        slot_tag(geometry, block, geometry.slot(index))
    }

    // Puts a tag into its slot in the copy of a node's parent.
    fn keep_tag(&mut self, level: u8, index: u32, tag: &[u8; TAG_LEN])
        requires node { IsNode self.old.geometry level index }
        requires below { level < self.old.geometry.levels }
        requires parent { IsLatestNode self.old.caches (level + 1)
            (parent self.old.geometry level index).1 }
        ensures geometry { self.new.geometry ≡ self.old.geometry }
        ensures root { self.new.root ≡ self.old.root }
        ensures nodes { AreNodeCaches self.new.geometry self.new.caches }
        ensures held { cached_node self.old (level + 1) (parent self.old.geometry level index).1
            ≢ None }
        ensures put { (copy : CachedNode) →
            cached_node self.old (level + 1) (parent self.old.geometry level index).1 ≡ Some copy →
            cached_node self.new (level + 1) (parent self.old.geometry level index).1
            ≡ Some (record {
              block = with_tag self.old.geometry (slot self.old.geometry index)
                  tag.now copy.block;
              changed = true;
            }) }
        ensures same { OtherNodes (level + 1) (parent self.old.geometry level index).1
            self.old.caches self.new.caches }
        ensures others { OtherLevels (level + 1) self.old.caches self.new.caches }
        ensures orders { SameOrders self.old self.new }
    {
        let geometry = self.nodes.geometry();
        let (above, at) = geometry.parent(level, index);
        let mut block = *self.nodes.latest(above, at);
        put_tag(geometry, &mut block, geometry.slot(index), tag);
        self.nodes.change(above, at, block);
    }
}

// The block of a node, by the tag that is kept of it: zeros, without an access, where none is kept; else read from its place and
// checked.
fn read_kept<B: Bus, T: Tagger>(
    bus: &mut B,
    tags: &mut TagEngine<T>,
    level: u8,
    index: u32,
    tag: &[u8; TAG_LEN],
) -> Result<[u8; 64], MemStop>
    requires place { IsPlace (B.history bus.old).geometry (node_place level index) }
    requires node { IsNode tags.old.geometry level index }

    ensures read { ReadsKept (tags_of T.data_tag_of T.node_tag_of) level index tag.now
        (B.history bus.old) tags.old (B.history bus.new) tags.new result }
    ensures makes { (accesses : List Access) × B.moved bus.old accesses bus.new
        × Makes (tags_of T.data_tag_of T.node_tag_of tags.old)
        (λ used. IsKeptNode (tags_of T.data_tag_of T.node_tag_of tags.old) tags.old.made
        (B.history bus.old).written level index tag.now)
        (B.history bus.old) tags.old (B.history bus.new) tags.new accesses (result_err result) }
    ensures long { IfOk result (λ block. length block ≡ 64) }
{
    if *tag == NO_TAG {
        return Ok([0; 64]);
    }
    read_node(bus, tags, level, index, tag)
}
