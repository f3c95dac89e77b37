// False answers: one bit is flipped, or what stood there before is answered.
ghost use Rattle.std.specs.Prelude.{◌<◌};
ghost use Rattle.sec_base.specs.Geometry.{one};
ghost use Rattle.sec_base.specs.Place.{stored_size};

use super::programs::{EXIT_7, EXIT_WITH_65_AGAIN, PRINT_8, STORE_FAR_APART};
use super::replay_bus::ReplayBus;
use super::{
    CIPHER_65, LINE_64, Told, far_apart, flat, flipped, flipped_under_keys, image, keys, setup,
    written,
};
use bus_model::FlipBus;
use chip_run::run;
use fakes::ZeroTagger;
use hmac_tag::HmacTagger;
use sec_base::{Ending, Evidence, Geometry, Image, MemorySink, Place, Sealed};
use std::alloc::Global;
use std::process::Abort;
use std::test::Fail;

// Of the data in lines 63 and 64 the first answer for line 64 is false.
fn print_before_tampering(alloc: Global, out: &mut MemorySink) -> Result<(Told, u64), Fail> {
    let geometry = Geometry::new(1).ok_or("no geometry")?;
    let image = image(alloc, &PRINT_8, (0x0ffc, b"ABCDEFGH"), (0x2000, &[]))?;
    let bus = FlipBus::new(alloc, geometry, Place::Line(64), 1, 0, 1)?;
    let setup = setup(geometry, 99, u64::MAX);
    let tagger = HmacTagger::new(&setup.keys);
    let (done, bus) = run(alloc, &image, &[], &setup, tagger, bus, out);
    Ok((Told::of(&done), bus.lies()))
}

// The first piece is written as soon as it is loaded, before the line of the second one is read: lines 0, 64 and 128 share
// a set, so line 0 goes out for line 128 while the program is stored, and line 64 for line 0 at the first fetch.
#[test]
fn a_program_prints_what_it_loaded_before_tampering(rt: HostRuntime) -> Result<(), Fail> {
    let mut out = MemorySink::new(rt.alloc(), &[])?;
    let (told, lies) = print_before_tampering(rt.alloc(), &mut out)?;
    assert_eq!(rt; out.bytes(), b"ABCD".as_slice());
    let end = (told.ending, told.retired, lies);
    assert_eq!(rt; end, (Ending::Tampered(LINE_64), 5, 1));
    Ok(())
}

#[test]
fn a_false_answer_that_fails_its_check_ends_the_run(rt: HostRuntime) -> Result<(), Fail> {
    let (told, lies) = flipped_under_keys(rt.alloc(), &EXIT_WITH_65_AGAIN, LINE_64, 1)?;
    let end = (told.ending, told.retired, told.evidence, lies);
    assert_eq!(rt; end, (Ending::Tampered(LINE_64), 5, None, 1));
    Ok(())
}

// What a tag of zeros becomes: no tag is zeros.
const ZERO_TAG: [u8; 16] = [0, 0, 0, 0, 0, 0, 0, 0, 0, 0, 0, 0, 0, 0, 0, 1];

#[test]
fn a_false_answer_that_passes_its_check_is_shown(rt: HostRuntime) -> Result<(), Fail> {
    let (told, lies) = flipped(rt.alloc(), &EXIT_WITH_65_AGAIN, LINE_64, 1, ZeroTagger)?;
    let mut cipher = CIPHER_65;
    cipher[0] ^= 1;
    let shown = Evidence::Forgery {
        line: 64,
        counter: written(1),
        sealed: Sealed {
            cipher,
            tag: ZERO_TAG,
        },
        made_count: 1,
    };
    let end = (told.ending, told.retired, told.evidence, lies);
    assert_eq!(rt; end, (Ending::Halted(64), 8, Some(shown), 1));
    Ok(())
}

// Boot makes no access, and neither does a program that stays on the chip: no answer is false, since none is given.
#[test]
fn a_node_that_was_never_made_is_not_read(rt: HostRuntime) -> Result<(), Fail> {
    for (level, index) in [(1, 0), (0, 0)] {
        let place = Place::Node { level, index };
        let (told, lies) = flipped_under_keys(rt.alloc(), &EXIT_7, place, 1)?;
        let end = (told.ending, told.retired, told.evidence, lies);
        assert_eq!(rt; end, (Ending::Halted(7), 3, None, 0), "{place}");
        assert_eq!(rt; (told.made, told.used), (0, 0));
    }
    Ok(())
}

// A node, and how many instructions are retired before each of its reads.
const READS: [((u8, u32), &[u64]); 10] = [
    ((0, 32), &[11, 13, 17, 19, 23]),
    ((0, 64), &[12, 17, 18, 23]),
    ((0, 96), &[13, 18, 19]),
    ((1, 8), &[13, 19]),
    ((1, 16), &[17, 23]),
    ((1, 24), &[18]),
    // Their first copy stays on the chip, or there is none.
    ((0, 0), &[]),
    ((0, 33), &[]),
    ((2, 2), &[]),
    ((4, 0), &[]),
];

// How a run ends and what it retired, where the lowest bit of the `k`-th answer of a node is flipped, and how many answers were
// false.
fn flipped_far_apart(alloc: Global, place: Place, k: u64) -> Result<(Ending, u64, u64), Fail>
    requires { 0 < stored_size (one 4) place }
{
    let (done, lies) = far_apart(alloc, place, k, HmacTagger::new(&keys()))?;
    Ok((done.ending, done.retired, lies))
}

fn check_reads(rt: &impl Abort, alloc: Global, node: (u8, u32), reads: &[u64]) -> Result<(), Fail> {
    let (level, index) = node;
    let place = Place::Node { level, index };
    let mut k = 1u64;
    for retired in reads {
        let end = flipped_far_apart(alloc, place, k)?;
        assert_eq!(rt; end, (Ending::Tampered(place), *retired, 1), "read {k}");
        k = k.saturating_add(1);
    }
    let end = flipped_far_apart(alloc, place, k)?;
    assert_eq!(rt; end, (Ending::Halted(67), 26, 0), "{place}");
    Ok(())
}

// A node is read each time that it comes in again, and never before it went out.
#[test]
fn each_read_of_a_node_is_checked(rt: HostRuntime) -> Result<(), Fail> {
    for &(node, reads) in &READS {
        check_reads(&rt, rt.alloc(), node, reads)?;
    }
    Ok(())
}

// Line 64 alone is read, as it comes in again: line 0 stays, and line 128 was never written. No node goes out in a memory of one
// level.
#[test]
fn each_place_is_checked_or_never_read(rt: HostRuntime) -> Result<(), Fail> {
    let rows = [
        (Place::Node { level: 1, index: 0 }, None),
        (Place::Node { level: 0, index: 0 }, None),
        (Place::Node { level: 0, index: 1 }, None),
        (Place::Node { level: 0, index: 2 }, None),
        (Place::Node { level: 0, index: 3 }, None),
        (Place::Line(0), None),
        (Place::Line(1), None),
        (Place::Line(63), None),
        (Place::Line(64), Some(5)),
        (Place::Line(128), None),
        (Place::Line(255), None),
    ];
    for (place, failed) in rows {
        let (told, lies) = flipped_under_keys(rt.alloc(), &EXIT_WITH_65_AGAIN, place, 1)?;
        let (ending, retired, false_answers) = match failed {
            Some(retired) => (Ending::Tampered(place), retired, 1),
            None => (Ending::Halted(65), 8, 0),
        };
        let end = (told.ending, told.retired, told.evidence, lies);
        assert_eq!(rt; end, (ending, retired, None, false_answers), "{place}");
    }
    Ok(())
}

// Line 2053 is replayed, and the nodes on its path below a level.
fn replayed(alloc: Global, below: u8) -> Result<(Told, u64), Fail> {
    let geometry = Geometry::new(4).ok_or("no geometry")?;
    let image = Image {
        entry: 0,
        size: 1048576,
        segments: flat(alloc, &STORE_FAR_APART)?,
    };
    let bus = ReplayBus::new(alloc, geometry, below)?;
    let mut out = MemorySink::new(alloc, &[])?;
    let setup = setup(geometry, 2000, u64::MAX);
    let tagger = HmacTagger::new(&setup.keys);
    let (done, bus) = run(alloc, &image, &[], &setup, tagger, bus, &mut out);
    Ok((Told::of(&done), bus.lies()))
}

// Once the node above the counters of line 2053 has gone out twice, what stood outside after the first time fails its check:
// the line as the last load reads it, its counters as it goes out for the third time, and the node as these counters want it.
#[test]
fn what_stood_there_before_fails_its_check(rt: HostRuntime) -> Result<(), Fail> {
    let counters = Place::Node {
        level: 0,
        index: 32,
    };
    let rows = [
        (0, Place::Line(2053), 23),
        (1, counters, 19),
        (2, Place::Node { level: 1, index: 8 }, 19),
    ];
    for (below, place, retired) in rows {
        let (told, lies) = replayed(rt.alloc(), below)?;
        let end = (told.ending, told.retired, told.evidence, lies);
        assert_eq!(rt;
            end,
            (Ending::Tampered(place), retired, None, 1),
            "below {below}"
        );
    }
    Ok(())
}

// The lowest bit of the first answer for the block of page 32 is flipped, so that its page counter reads 1.
const ACCEPTED: [u8; 64] = [
    1, 0, 0, 0, 0, 0, 0, 0, 0, 0, 0, 0, 8, 0, 0, 0, 0, 0, 0, 0, 0, 0, 0, 0, 0, 0, 0, 0, 0, 0, 0, 0,
    0, 0, 0, 0, 0, 0, 0, 0, 0, 0, 0, 0, 0, 0, 0, 0, 0, 0, 0, 0, 0, 0, 0, 0, 0, 0, 0, 0, 0, 0, 0, 0,
];

// Both blocks have the tag, so the false one is used. The one that was made is the second message.
#[test]
fn two_blocks_with_one_tag_are_shown(rt: HostRuntime) -> Result<(), Fail> {
    let (level, index) = (0, 32);
    let counters = Place::Node { level, index };
    let (done, lies) = far_apart(rt.alloc(), counters, 1, ZeroTagger)?;
    let shown = Evidence::Collision {
        level,
        index,
        made_at: 1,
        accepted: ACCEPTED,
        tag: ZERO_TAG,
    };
    let end = (done.ending, done.retired, done.evidence, lies);
    assert_eq!(rt; end, (Ending::Halted(67), 26, Some(shown), 1));
    Ok(())
}
