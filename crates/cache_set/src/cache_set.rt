// One set of a cache.
ghost use Rattle.std.specs.Prelude.{true, false, ◌≡◌, ◌==◌, ◌+◌, ◌-◌, ◌<◌, ◌≤◌, ◌*◌, ◌^◌, ◌↔◌, ℕ, List, [], ◌∷◌, ◌++◌, Some, None, length, slice_get, not, if◌then◌else◌, IfSome, IsTrue, IsSome};
ghost use Rattle.std.specs.Option.{option_map};
ghost use Rattle.sec_base.specs.Width.{width_bytes, number_at, with_number};
ghost use Rattle.cache_set.specs.CacheSet.{IsSet, HasRoom, copy_of, in_order, latest_place, touched, victim, way_of, with_latest, without};

use crate::way::Way;
use arrayvec::ArrayVec;
use sec_base::Width;
use std::marker::Model;

// The ways of a set, which never move: where they are swapped, the first of two is the most recently used one. A
// contract sees the list of the ways, the least recently used first.
#[derive(Drop)]
pub(crate) struct CacheSet {
    ways: ArrayVec<Way, 2>,
    swapped: bool,
}

impl Model for CacheSet {
    ghost use Rattle.std.specs.Prelude.{List};
    ghost use Rattle.cache_set.specs.declared.way.Way.{Way};
    ghost use Rattle.cache_set.specs.CacheSet.{in_order};

    ghost Value = { List Way };

    ghost view = { λ set. in_order set.swapped set.ways.items };
}

impl CacheSet {
    pub(crate) fn new() -> Self
        ensures { result ≡ [] }
    {
        CacheSet {
            ways: ArrayVec::new(),
            swapped: false,
        }
    }

    // How many ways are in use.
    pub(crate) fn len(&self) -> usize
        ensures { result ≡ length self.now }
    {
        self.ways.len()
    }

    // Whether a place has a way.
    pub(crate) fn contains(&self, place: u32) -> bool
        requires { IsSet self.now }
        ensures { IsTrue result ↔ IsSome (way_of place self.now) }
    {
        position(self.ways.as_slice(), place).is_some()
    }

    // Whether a place has a way, which is the most recently used one then.
    pub(crate) fn touch(&mut self, place: u32) -> bool
        requires { IsSet self.old }
        ensures held { IsTrue result ↔ IsSome (way_of place self.old) }
        ensures after { self.new ≡ touched place self.old }
    {
        find(self.ways.as_slice(), &mut self.swapped, place).is_some()
    }

    // The copy of the most recently used way, which is that of a place.
    pub(crate) fn latest(&self, place: u32) -> &[u8; 64]
        requires apart { IsSet self.now }
        requires latest { latest_place self.now ≡ Some place }
        ensures { copy_of place self.now ≡ Some result.now }
    {
        latest_copy(self.ways.as_slice(), self.swapped, place)
    }

    // Puts another copy in the most recently used way, which is that of a place, and marks it.
    pub(crate) fn change(&mut self, place: u32, copy: [u8; 64])
        requires apart { IsSet self.old }
        requires latest { latest_place self.old ≡ Some place }
        ensures { self.new ≡ with_latest (record { place = place; changed = true; copy = copy })
            self.old }
    {
        change_latest(self.ways.as_mut_slice(), self.swapped, place, copy);
    }

    // The number at a place in the copy of a way, if the way's place has one, which is the most recently used one then.
    pub(crate) fn read(&mut self, place: u32, at: usize, width: Width) -> Option<u32>
        requires apart { IsSet self.old }
        requires inside { at + width_bytes width ≤ 64 }
        ensures value { result
            ≡ option_map (λ copy. number_at copy at width) (copy_of place self.old) }
        ensures fits { IfSome result (λ n. n < 2 ^ (8 * width_bytes width)) }
        ensures after { self.new ≡ touched place self.old }
    {
        let index = find(self.ways.as_slice(), &mut self.swapped, place)?;
        Some(width.read(&self.ways.as_slice()[index].copy, at))
    }

    // Puts a number in the copy of a way, if the way's place has one, marks it, and makes it the most recently used one.
    // Whether the place has one.
    pub(crate) fn write(&mut self, place: u32, at: usize, width: Width, value: u32) -> bool
        requires apart { IsSet self.old }
        requires inside { at + width_bytes width ≤ 64 }
        ensures held { IsTrue result ↔ IsSome (way_of place self.old) }
        ensures after { IsTrue result → (copy : List ℕ) × (copy_of place self.old ≡ Some copy)
            × (self.new ≡ with_latest
            (record { place = place; changed = true; copy = with_number copy at width value })
            self.old) }
        ensures unchanged { result ≡ false → self.new ≡ self.old }
    {
        let Some(index) = find(self.ways.as_slice(), &mut self.swapped, place) else {
            return false;
        };
        write_at(self.ways.as_mut_slice(), index, place, at, width, value);
        true
    }

    // The least recently used of two ways.
    pub(crate) fn victim(&self) -> Option<Way>
        requires { IsSet self.now }
        ensures { result ≡ victim self.now }
    {
        least_recent(self.ways.as_slice(), self.swapped)
    }

    // A new way, which is not changed, becomes the most recently used one.
    pub(crate) fn put(&mut self, place: u32, copy: [u8; 64])
        requires room { HasRoom self.old }
        requires absent { way_of place self.old ≡ None }
        ensures { self.new ≡ with_latest (record { place = place; changed = false; copy = copy })
            self.old }
    {
        self.ways.push(Way {
            place,
            changed: false,
            copy,
        });
        self.swapped = false;
    }

    // A place loses its way.
    pub(crate) fn remove(&mut self, place: u32)
        requires { IsSet self.old }
        ensures { self.new ≡ without place self.old }
    {
        self.ways.retain(|way| way.place != place);
    }
}

// Which way a place has, which is the most recently used one then.
fn find(ways: &[Way], swapped: &mut bool, place: u32) -> Option<usize>
    requires { IsSet ways.now }
    ensures held { IsSome result ↔ IsSome (way_of place ways.now) }
    ensures here { IfSome result (λ index. slice_get ways.now index ≡ way_of place ways.now) }
    ensures inside { IfSome result (λ index. index < length ways.now) }
    ensures latest { IfSome result (λ index. swapped.new ≡ (index == 0)) }
    ensures touched { IfSome result (λ index. touched place ways.now
        ≡ in_order swapped.new ways.now) }
    ensures unchanged { result ≡ None → swapped.new ≡ swapped.old }
{
    let index = position(ways, place)?;
    *swapped = index == 0;
    Some(index)
}

// Which way a place has.
fn position(ways: &[Way], place: u32) -> Option<usize>
    requires { IsSet ways.now }
    ensures held { IsSome result ↔ IsSome (way_of place ways.now) }
    ensures inside { IfSome result (λ index. index < length ways.now) }
    ensures here { IfSome result (λ index. slice_get ways.now index ≡ way_of place ways.now) }
    ensures touched { IfSome result (λ index. touched place ways.now
        ≡ in_order (index == 0) ways.now) }
{
    if !ways.is_empty() && ways[0].place == place {
        return Some(0);
    }
    if ways.len() > 1 && ways[1].place == place {
        return Some(1);
    }
    None
}

// The copy of the most recently used way.
fn latest_copy(ways: &[Way], swapped: bool, place: u32) -> &[u8; 64]
    requires apart { IsSet (in_order swapped ways.now) }
    requires latest { latest_place (in_order swapped ways.now) ≡ Some place }
    ensures { copy_of place (in_order swapped ways.now) ≡ Some result.now }
{
    let _ = place;
    &ways[latest_index(ways.len(), swapped)].copy
}

fn change_latest(ways: &mut [Way], swapped: bool, place: u32, copy: [u8; 64])
    requires apart { IsSet (in_order swapped ways.old) }
    requires latest { latest_place (in_order swapped ways.old) ≡ Some place }
    ensures { in_order swapped ways.new
        ≡ with_latest (record { place = place; changed = true; copy = copy })
        (in_order swapped ways.old) }
{
    let latest = latest_index(ways.len(), swapped);
    ways[latest] = Way {
        place,
        changed: true,
        copy,
    };
}

// Puts a number in the copy of the way that a place has, and marks it.
fn write_at(ways: &mut [Way], index: usize, place: u32, at: usize, width: Width, value: u32)
    requires apart { IsSet ways.old }
    requires index { index < length ways.old }
    requires here { slice_get ways.old index ≡ way_of place ways.old }
    requires inside { at + width_bytes width ≤ 64 }
    ensures { (copy : List ℕ) × (copy_of place ways.old ≡ Some copy)
        × (in_order (index == 0) ways.new
        ≡ with_latest (record {
          place = place;
          changed = true;
          copy = with_number copy at width
              value;
        }) ways.old) }
{
    let way = &mut ways[index];
    width.write(&mut way.copy, at, value);
    way.changed = true;
}

// Which of so many ways is the most recently used one.
fn latest_index(count: usize, swapped: bool) -> usize
    requires { 0 < count }
    ensures { result ≡ (if swapped then 0 else count - 1) }
{
    if swapped { 0 } else { count - 1 }
}

// The least recently used of two ways.
fn least_recent(ways: &[Way], swapped: bool) -> Option<Way>
    requires { IsSet (in_order swapped ways.now) }
    ensures { result ≡ victim (in_order swapped ways.now) }
{
    if ways.len() < 2 {
        return None;
    }
    Some(ways[usize::from(swapped)])
}
