// A cache of sets of two ways.
ghost use Rattle.std.specs.Prelude.{true, false, ◌≡◌, ◌≢◌, ◌<◌, ◌≤◌, ◌+◌, ◌*◌, ◌%◌, ◌^◌, ◌↔◌, ℕ, List, replicate, length, [], Some, None, IfOk, IfSome, IsTrue, IsSome, Contains, All};
ghost use Rattle.std.specs.Option.{option_map};
ghost use Rattle.sec_base.specs.Width.{width_bytes, number_at, with_number};
ghost use Rattle.cache_set.specs.Bringing.{with_changed, with_new};
ghost use Rattle.cache_set.specs.CacheSet.{HasRoom, touched, without};
ghost use Rattle.cache_set.specs.Cache.{AreApart, IsCache, IsLatest, copy_at, new_cache, places, set_at, victim_for, way_at, with_set};

use crate::cache_set::CacheSet;
use crate::way::Way;
use sec_base::{NoMemory, Width};
use std::alloc::Global;
use std::marker::Model;

/// Copies of what stands at some places, in sets of two ways. A contract sees the list of the sets, each as the list
/// of its ways, the least recently used first.
#[derive(Drop)]
pub struct Cache<const SETS: usize> {
    sets: Vec<CacheSet>,
}

impl<const SETS: usize> Model for Cache<SETS> {
    ghost use Rattle.std.specs.Prelude.{List};
    ghost use Rattle.cache_set.specs.declared.way.Way.{Way};
    ghost use Rattle.cache_set.specs.Cache.{IsCache};

    ghost Value = { List (List Way) };

    ghost view = { λ cache. cache.sets.items };

    ghost invariant = { λ cache. IsCache SETS cache.sets.items };
}

impl<const SETS: usize> Cache<SETS> {
    /// Empty sets.
    pub fn new(alloc: Global) -> Result<Cache<SETS>, NoMemory>
        requires some { 0 < SETS }
        requires few { 2 * SETS < 2 ^ 32 }
        ensures empty { IfOk result (λ cache. cache ≡ new_cache SETS) }
        ensures cache { IfOk result (IsCache SETS) }
        ensures none { IfOk result (λ cache. (place : ℕ) → way_at cache place ≡ None) }
    {
        Ok(Cache {
            sets: empty_sets(alloc, SETS)?,
        })
    }

    /// Whether a place has a way.
    pub fn contains(&self, place: u32) -> bool
        ensures held { IsTrue result ↔ IsSome (way_at self.now place) }
        ensures listed { IsTrue result ↔ Contains (places self.now) place }
    {
        self.sets[place as usize % SETS].contains(place)
    }

    /// How many places have a way.
    pub fn count(&self) -> u32
        ensures count { result ≡ length (places self.now) }
        ensures few { result ≤ 2 * SETS }
        ensures apart { AreApart (places self.now) }
    {
        count_ways(&self.sets)
    }

    /// Whether a place has a way, which is the most recently used one of its set then.
    pub fn touch(&mut self, place: u32) -> bool
        ensures held { IsTrue result ↔ IsSome (way_at self.old place) }
        ensures after { self.new ≡ with_set self.old place (touched place (set_at self.old place)) }
        ensures cache { IsCache SETS self.new }
        ensures latest { IsTrue result → IsLatest self.new place }
        ensures absent { result ≡ false → way_at self.new place ≡ None }
        ensures unchanged { result ≡ false → self.new ≡ self.old }
        ensures same { (other : ℕ) → way_at self.new other ≡ way_at self.old other }
    {
        self.sets[place as usize % SETS].touch(place)
    }

    /// The copy of the most recently used way of a set, which is that of a place.
    pub fn latest(&self, place: u32) -> &[u8; 64]
        requires { IsLatest self.now place }
        ensures { copy_at self.now place ≡ Some result.now }
    {
        self.sets[place as usize % SETS].latest(place)
    }

    /// Puts another copy in the most recently used way of a set, which is that of a place, and marks it.
    pub fn change(&mut self, place: u32, copy: [u8; 64])
        requires { IsLatest self.old place }
        ensures after { self.new ≡ with_changed self.old place copy }
        ensures cache { IsCache SETS self.new }
        ensures changed { way_at self.new place
            ≡ Some (record { place = place; changed = true; copy = copy }) }
        ensures same { (other : ℕ) → other ≢ place → way_at self.new other ≡ way_at self.old other }
    {
        self.sets[place as usize % SETS].change(place, copy);
    }

    /// The number at a place in the copy of a way, if the way's place has one, which is the most recently used one of its set
    /// then.
    pub fn read(&mut self, place: u32, at: usize, width: Width) -> Option<u32>
        requires inside { at + width_bytes width ≤ 64 }
        ensures value { result
            ≡ option_map (λ copy. number_at copy at width) (copy_at self.old place) }
        ensures fits { IfSome result (λ n. n < 2 ^ (8 * width_bytes width)) }
        ensures held { IsSome result ↔ IsSome (way_at self.old place) }
        ensures after { self.new ≡ with_set self.old place (touched place (set_at self.old place)) }
        ensures cache { IsCache SETS self.new }
        ensures absent { result ≡ None → way_at self.new place ≡ None }
        ensures unchanged { result ≡ None → self.new ≡ self.old }
        ensures same { (other : ℕ) → way_at self.new other ≡ way_at self.old other }
    {
        self.sets[place as usize % SETS].read(place, at, width)
    }

    /// Puts a number in the copy of a way, if the way's place has one, marks it, and makes it the most recently used one of
    /// its set. Whether the place has one.
    pub fn write(&mut self, place: u32, at: usize, width: Width, value: u32) -> bool
        requires inside { at + width_bytes width ≤ 64 }
        ensures held { IsTrue result ↔ IsSome (way_at self.old place) }
        ensures after { IsTrue result → (copy : List ℕ) × (copy_at self.old place ≡ Some copy)
            × (self.new ≡ with_changed self.old place (with_number copy at width value)) }
        ensures cache { IsCache SETS self.new }
        ensures changed { IsTrue result → (copy : List ℕ) → copy_at self.old place ≡ Some copy →
            way_at self.new place
            ≡ Some (record {
              place = place;
              changed = true;
              copy = with_number copy at width value;
            }) }
        ensures absent { result ≡ false → way_at self.new place ≡ None }
        ensures unchanged { result ≡ false → self.new ≡ self.old }
        ensures same { (other : ℕ) → other ≢ place → way_at self.new other ≡ way_at self.old other }
    {
        self.sets[place as usize % SETS].write(place, at, width, value)
    }

    /// The way that goes out where a place comes that has none: the least recently used one of its set, where both are in
    /// use.
    pub fn victim(&self, place: u32) -> Option<Way>
        requires { way_at self.now place ≡ None }
        ensures victim { result ≡ victim_for self.now place }
        ensures room { result ≡ None → HasRoom (set_at self.now place) }
        ensures way { IfSome result (λ way. way_at self.now way.place ≡ Some way) }
        ensures beside { IfSome result (λ way. way.place % SETS ≡ place % SETS) }
    {
        self.sets[place as usize % SETS].victim()
    }

    /// A place gets a way, which is not changed and is the most recently used one.
    pub fn put(&mut self, place: u32, copy: [u8; 64])
        requires absent { way_at self.old place ≡ None }
        requires room { HasRoom (set_at self.old place) }
        ensures after { self.new ≡ with_new self.old place copy }
        ensures cache { IsCache SETS self.new }
        ensures latest { IsLatest self.new place }
        ensures put { way_at self.new place
            ≡ Some (record { place = place; changed = false; copy = copy }) }
        ensures same { (other : ℕ) → other ≢ place → way_at self.new other ≡ way_at self.old other }
    {
        self.sets[place as usize % SETS].put(place, copy);
    }

    /// A place loses its way.
    pub fn remove(&mut self, place: u32)
        requires { IsSome (way_at self.old place) }
        ensures after { self.new ≡ with_set self.old place (without place (set_at self.old place)) }
        ensures cache { IsCache SETS self.new }
        ensures room { (other : ℕ) → place % SETS ≡ other % SETS → HasRoom (set_at self.new other) }
        ensures removed { way_at self.new place ≡ None }
        ensures absent { (other : ℕ) → way_at self.old other ≡ None → way_at self.new other ≡ None }
        ensures same { (other : ℕ) → other ≢ place → way_at self.new other ≡ way_at self.old other }
    {
        self.sets[place as usize % SETS].remove(place);
    }
}

fn empty_sets(alloc: Global, count: usize) -> Result<Vec<CacheSet>, NoMemory>
    ensures { IfOk result (λ sets. sets.items ≡ new_cache count) }
{
    let mut sets = Vec::new(alloc);
    for _ in 0..count {
        sets.push(CacheSet::new())?;
    }
    Ok(sets)
}

fn count_ways(sets: &[CacheSet]) -> u32
    requires two { All (λ ways. length ways ≤ 2) sets.now }
    requires few { 2 * length sets.now < 2 ^ 32 }
    ensures count { result ≡ length (places sets.now) }
    ensures few { result ≤ 2 * length sets.now }
{
    let mut count = 0;
    for set in sets {
        count += set.len() as u32;
    }
    count
}
