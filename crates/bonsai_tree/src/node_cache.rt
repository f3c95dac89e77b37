// The copies of nodes on the chip.
ghost use Rattle.std.specs.Prelude.{true, false, ◌≡◌, ◌<◌, ◌≤◌, ◌%◌, ◌↔◌, ℕ, [], Some, None, IfOk, IfSome, IsTrue, IsSome, length};
ghost use Rattle.sec_base.specs.Geometry.{IsNode};
ghost use Rattle.cache_set.specs.Bringing.{with_changed, with_new};
ghost use Rattle.cache_set.specs.CacheSet.{HasRoom, touched, without};
ghost use Rattle.cache_set.specs.Cache.{copy_at, set_at, victim_for, with_set};
ghost use Rattle.bonsai_tree.specs.NodeCache.{AreEmpty, AreNodeCaches, IsLatestNode, OtherLevels, OtherNodes, copied_nodes, level_cache, node_way};

use cache_set::{Cache, Way};
use sec_base::{Geometry, NoMemory};
use std::alloc::Global;
use std::marker::Model;

// Copies of the nodes above level 0: each level has 8 sets of two ways.
#[derive(Drop)]
pub(crate) struct NodeCache {
    geometry: Geometry,
    caches: Vec<Cache<8>>,
}

impl Model for NodeCache {
    ghost use Rattle.bonsai_tree.specs.NodeCache.{NodeCacheView, AreNodeCaches};

    ghost Value = { NodeCacheView };

    ghost view = { λ nodes. record { geometry = nodes.geometry; caches = nodes.caches.items } };

    ghost invariant = { λ nodes. AreNodeCaches nodes.geometry nodes.caches.items };
}

impl NodeCache {
    // A cache for each level from 1 to the top, without a copy.
    pub(crate) fn new(alloc: Global, geometry: Geometry) -> Result<NodeCache, NoMemory>
        ensures geometry { IfOk result (λ nodes. nodes.geometry ≡ geometry) }
        ensures nodes { IfOk result (λ nodes. AreNodeCaches nodes.geometry nodes.caches) }
        ensures none { IfOk result (λ nodes. AreEmpty nodes.caches) }
        ensures empty { IfOk result (λ nodes. (level : ℕ) → copied_nodes nodes.caches level ≡ []) }
    {
        let mut caches = Vec::new(alloc);
        for _ in 0..geometry.levels() {
            caches.push(Cache::new(alloc)?)?;
        }
        Ok(NodeCache { geometry, caches })
    }

    // The tree's geometry.
    pub(crate) fn geometry(&self) -> Geometry
        ensures { result ≡ self.now.geometry }
    {
        self.geometry
    }

    // Whether a node has a copy, which is the most recently used one of its set then.
    pub(crate) fn touch(&mut self, level: u8, index: u32) -> bool
        requires above { 0 < level }
        requires inside { level ≤ self.old.geometry.levels }
        ensures geometry { self.new.geometry ≡ self.old.geometry }
        ensures nodes { AreNodeCaches self.new.geometry self.new.caches }
        ensures held { IsTrue result ↔ IsSome (node_way self.old.caches level index) }
        ensures after { level_cache self.new.caches level
            ≡ with_set (level_cache self.old.caches level) index
            (touched index (set_at (level_cache self.old.caches level) index)) }
        ensures latest { IsTrue result → IsLatestNode self.new.caches level index }
        ensures absent { result ≡ false → node_way self.old.caches level index ≡ None }
        ensures same { (other at : ℕ) → node_way self.new.caches other at
            ≡ node_way self.old.caches other at }
        ensures others { OtherLevels level self.old.caches self.new.caches }
    {
        self.caches[level as usize - 1].touch(index)
    }

    // The block of the most recently used copy of a set, which is that of a node.
    pub(crate) fn latest(&self, level: u8, index: u32) -> &[u8; 64]
        requires above { 0 < level }
        requires inside { level ≤ self.now.geometry.levels }
        requires latest { IsLatestNode self.now.caches level index }
        ensures { copy_at (level_cache self.now.caches level) index ≡ Some result.now }
    {
        self.caches[level as usize - 1].latest(index)
    }

    // Gives the most recently used copy of a set, which is that of a node, another block, and marks it.
    pub(crate) fn change(&mut self, level: u8, index: u32, block: [u8; 64])
        requires node { IsNode self.old.geometry level index }
        requires above { 0 < level }
        requires latest { IsLatestNode self.old.caches level index }
        ensures geometry { self.new.geometry ≡ self.old.geometry }
        ensures nodes { AreNodeCaches self.new.geometry self.new.caches }
        ensures after { level_cache self.new.caches level
            ≡ with_changed (level_cache self.old.caches level) index block }
        ensures changed { node_way self.new.caches level index
            ≡ Some (record { place = index; changed = true; copy = block }) }
        ensures same { OtherNodes level index self.old.caches self.new.caches }
        ensures others { OtherLevels level self.old.caches self.new.caches }
    {
        self.caches[level as usize - 1].change(index, block);
    }

    // The copy that goes out where one of a node comes: the least recently used one of its set, where both ways are in use.
    pub(crate) fn victim(&self, level: u8, index: u32) -> Option<Way>
        requires above { 0 < level }
        requires inside { level ≤ self.now.geometry.levels }
        requires absent { node_way self.now.caches level index ≡ None }
        ensures victim { result ≡ victim_for (level_cache self.now.caches level) index }
        ensures room { result ≡ None → HasRoom (set_at (level_cache self.now.caches level) index) }
        ensures way { IfSome result (λ way. node_way self.now.caches level way.place ≡ Some way) }
        ensures node { IfSome result (λ way. IsNode self.now.geometry level way.place) }
        ensures whole { IfSome result (λ way. length way.copy ≡ 64) }
        ensures beside { IfSome result (λ way. way.place % 8 ≡ index % 8) }
    {
        self.caches[level as usize - 1].victim(index)
    }

    // A node loses its copy.
    pub(crate) fn remove(&mut self, level: u8, index: u32)
        requires above { 0 < level }
        requires inside { level ≤ self.old.geometry.levels }
        requires held { IsSome (node_way self.old.caches level index) }
        ensures geometry { self.new.geometry ≡ self.old.geometry }
        ensures nodes { AreNodeCaches self.new.geometry self.new.caches }
        ensures after { level_cache self.new.caches level
            ≡ with_set (level_cache self.old.caches level) index
            (without index (set_at (level_cache self.old.caches level) index)) }
        ensures removed { node_way self.new.caches level index ≡ None }
        ensures same { OtherNodes level index self.old.caches self.new.caches }
        ensures others { OtherLevels level self.old.caches self.new.caches }
        ensures room { (other : ℕ) → index % 8 ≡ other % 8 →
            HasRoom (set_at (level_cache self.new.caches level) other) }
    {
        self.caches[level as usize - 1].remove(index);
    }

    // A node gets a copy, which is not changed and is the most recently used one of its set.
    pub(crate) fn put(&mut self, level: u8, index: u32, block: [u8; 64])
        requires node { IsNode self.old.geometry level index }
        requires above { 0 < level }
        requires absent { node_way self.old.caches level index ≡ None }
        requires room { HasRoom (set_at (level_cache self.old.caches level) index) }
        ensures geometry { self.new.geometry ≡ self.old.geometry }
        ensures nodes { AreNodeCaches self.new.geometry self.new.caches }
        ensures after { level_cache self.new.caches level
            ≡ with_new (level_cache self.old.caches level) index block }
        ensures latest { IsLatestNode self.new.caches level index }
        ensures put { node_way self.new.caches level index
            ≡ Some (record { place = index; changed = false; copy = block }) }
        ensures same { OtherNodes level index self.old.caches self.new.caches }
        ensures others { OtherLevels level self.old.caches self.new.caches }
    {
        self.caches[level as usize - 1].put(index, block);
    }
}
