// Which way goes out, in every order of three places of one set.
ghost use Rattle.std.specs.Prelude.{◌≡◌, None};
ghost use Rattle.cache_set.specs.CacheSet.{HasRoom};
ghost use Rattle.cache_set.specs.Cache.{set_at, way_at};

use cache_set::Cache;
use sec_base::Width;
use std::process::Abort;
use std::test::Fail;

// Makes a place the most recently used one of its set, and returns the place that went out for it.
fn bring(cache: &mut Cache<4>, place: u32) -> Option<u32> {
    if cache.touch(place) {
        return None;
    }
    let gone = make_room(cache, place);
    cache.put(place, [3; 64]);
    gone
}

fn make_room(cache: &mut Cache<4>, place: u32) -> Option<u32>
    requires { way_at cache.old place ≡ None }
    ensures room { HasRoom (set_at cache.new place) }
    ensures absent { way_at cache.new place ≡ None }
{
    let Some(victim) = cache.victim(place) else {
        return None;
    };
    cache.remove(victim.place);
    Some(victim.place)
}

// Puts 64 equal bytes in a place that has a way.
fn fill(rt: &impl Abort, cache: &mut Cache<4>, place: u32, byte: u8) {
    assert!(rt; cache.touch(place));
    cache.change(place, [byte; 64]);
}

#[test]
fn the_least_recently_used_place_goes_out(rt: HostRuntime) -> Result<(), Fail> {
    for order in [
        [1, 5, 9],
        [1, 9, 5],
        [5, 1, 9],
        [5, 9, 1],
        [9, 1, 5],
        [9, 5, 1],
    ] {
        let [first, second, third] = order;
        let mut cache = Cache::<4>::new(rt.alloc()).ok().ok_or("no memory")?;
        assert_eq!(rt; bring(&mut cache, first), None);
        assert_eq!(rt; bring(&mut cache, second), None);
        assert_eq!(rt; bring(&mut cache, third), Some(first));
        assert_eq!(rt; bring(&mut cache, second), None);
        assert_eq!(rt; bring(&mut cache, first), Some(third));
        assert!(rt; cache.contains(second));
        assert!(rt; !cache.contains(third));
        assert_eq!(rt; cache.count(), 2);
    }
    Ok(())
}

#[test]
fn sets_do_not_disturb_each_other(rt: HostRuntime) -> Result<(), Fail> {
    let mut cache = Cache::<4>::new(rt.alloc()).ok().ok_or("no memory")?;
    assert_eq!(rt; cache.count(), 0);
    for place in [1, 2, 5, 6] {
        assert_eq!(rt; bring(&mut cache, place), None);
    }
    assert_eq!(rt; cache.count(), 4);
    for place in [9, 13, 17] {
        assert_eq!(rt; bring(&mut cache, place).is_some(), true);
        assert!(rt; cache.contains(2));
        assert!(rt; cache.contains(6));
        assert_eq!(rt; cache.count(), 4);
    }
    assert_eq!(rt; bring(&mut cache, 4), None);
    assert_eq!(rt; cache.count(), 5);
    Ok(())
}

#[test]
fn a_changed_way_is_marked(rt: HostRuntime) -> Result<(), Fail> {
    let mut cache = Cache::<4>::new(rt.alloc()).ok().ok_or("no memory")?;
    let _ = bring(&mut cache, 7);
    let _ = bring(&mut cache, 3);
    fill(&rt, &mut cache, 7, 0xa5);
    fill(&rt, &mut cache, 3, 0x5a);
    assert!(rt; !cache.touch(11));
    let victim = cache.victim(11).ok_or("no victim")?;
    assert_eq!(rt; victim.place, 7);
    assert!(rt; victim.changed);
    assert_eq!(rt; victim.copy, [0xa5; 64]);
    let _ = bring(&mut cache, 11);
    assert!(rt; cache.touch(11));
    assert_eq!(rt; *cache.latest(11), [3; 64]);
    assert!(rt; cache.touch(3));
    assert_eq!(rt; *cache.latest(3), [0x5a; 64]);
    assert!(rt; !cache.touch(15));
    let victim = cache.victim(15).ok_or("no victim")?;
    assert_eq!(rt; victim.place, 11);
    assert!(rt; !victim.changed);
    Ok(())
}

#[test]
fn a_number_stands_where_it_was_written(rt: HostRuntime) -> Result<(), Fail> {
    let mut cache = Cache::<4>::new(rt.alloc()).ok().ok_or("no memory")?;
    assert_eq!(rt; cache.read(7, 0, Width::Four), None);
    assert!(rt; !cache.write(7, 0, Width::One, 5));
    let _ = bring(&mut cache, 7);
    let _ = bring(&mut cache, 3);
    assert!(rt; cache.write(7, 60, Width::Four, 0x0102_0304));
    assert_eq!(rt; cache.read(7, 60, Width::Two), Some(0x0304));
    assert_eq!(rt; cache.read(7, 59, Width::One), Some(3));
    assert_eq!(rt; bring(&mut cache, 11), Some(3));
    assert_eq!(rt; cache.read(3, 0, Width::One), None);
    assert_eq!(rt; cache.read(11, 0, Width::One), Some(3));
    assert!(rt; !cache.touch(15));
    let victim = cache.victim(15).ok_or("no victim")?;
    assert_eq!(rt; victim.place, 7);
    assert!(rt; victim.changed);
    Ok(())
}
