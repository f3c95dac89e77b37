// Each public call once with ample memory. A tag is what its tagger says with the lowest bit of its last byte set, put together by
// hand: of a line 0x44, the line and the page's counter, the lowest byte first, the line's own counter, and the first two bytes of
// the ciphertext; of a node 0x4e, its level, its index, the lowest byte first, and the first ten bytes of its block.
ghost use Rattle.std.specs.Prelude.{◌<◌, ◌≡◌};
ghost use Rattle.sec_base.specs.Geometry.{one};
ghost use Rattle.bus_model.specs.FlipBus.{flip_history};
ghost use Rattle.bus_model.specs.HonestBus.{honest_history};

use bus_model::{Bus, FlipBus, HonestBus};
use checked_bus::{read_line, read_node, write_line, write_node};
use fakes::{PrefixTagger, ZeroTagger};
use sec_base::{Counter, Evidence, Geometry, MemStop, Place, Sealed};
use std::alloc::Global;
use std::process::Abort;
use std::test::Fail;
use tag_engine::TagEngine;

const FIRST: Counter = Counter { page: 1, line: 0 };

const SECOND: Counter = Counter { page: 2, line: 3 };

// So many messages were made, and this is the evidence.
fn check_end(rt: &impl Abort, tags: TagEngine<PrefixTagger>, count: u64, wanted: Option<Evidence>) {
    let (made, evidence) = tags.finish();
    assert_eq!(rt; (made.len(), evidence), (count, wanted));
}

// Line 64 is written under one counter and then under another, and is read under the last one alone.
fn check_line(
    rt: &impl Abort,
    bus: &mut HonestBus,
    tags: &mut TagEngine<PrefixTagger>,
) -> Result<(), Fail>
    requires places { (honest_history bus.old).geometry ≡ one 1 }
    requires lines { tags.old.geometry ≡ one 1 }
    requires room { tags.old.room ≡ 2 }
{
    write_line(bus, tags, 64, FIRST, &[7; 64])?;
    assert_eq!(rt; read_line(bus, tags, 64, FIRST), Ok([7; 64]));
    write_line(bus, tags, 64, SECOND, &[8; 64])?;
    assert_eq!(rt; read_line(bus, tags, 64, SECOND), Ok([8; 64]));
    let stale = Err(MemStop::Tampered(Place::Line(64)));
    assert_eq!(rt; read_line(bus, tags, 64, FIRST), stale);
    let written = Sealed {
        cipher: [8; 64],
        tag: [0x44, 64, 0, 0, 0, 2, 0, 0, 0, 0, 0, 0, 0, 3, 8, 9],
    };
    assert_eq!(rt; bus.read_data(64)?, written);
    Ok(())
}

#[test]
fn what_was_written_last_is_read(rt: HostRuntime) -> Result<(), Fail> {
    let geometry = Geometry::new(1).ok_or("no geometry")?;
    let mut tags = TagEngine::new(rt.alloc(), PrefixTagger, geometry)?;
    tags.reserve(2)?;
    let mut bus = HonestBus::new(rt.alloc(), geometry)?;
    check_line(&rt, &mut bus, &mut tags)?;
    check_end(&rt, tags, 2, None);
    Ok(())
}

// Line 64 is written, and is read so, which is a false answer.
fn check_false_line(
    rt: &impl Abort,
    bus: &mut FlipBus,
    tags: &mut TagEngine<PrefixTagger>,
    wanted: Result<[u8; 64], MemStop>,
    case: &str,
) -> Result<(), Fail>
    requires places { (flip_history bus.old).geometry ≡ one 1 }
    requires lines { tags.old.geometry ≡ one 1 }
    requires room { tags.old.room ≡ 1 }
{
    write_line(bus, tags, 64, FIRST, &[6; 64])?;
    assert_eq!(rt; read_line(bus, tags, 64, FIRST), wanted, "{case}");
    assert_eq!(rt; bus.lies(), 1, "{case}");
    Ok(())
}

// The same where bits of the byte of line 64 at an offset are flipped, and whether there is evidence then.
fn check_flipped_line(
    rt: &impl Abort,
    alloc: Global,
    offset: u8,
    mask: u8,
    wanted: Result<[u8; 64], MemStop>,
    shown: bool,
    case: &str,
) -> Result<(), Fail>
    requires { offset < 80 }
{
    let geometry = Geometry::new(1).ok_or("no geometry")?;
    let mut tags = TagEngine::new(alloc, PrefixTagger, geometry)?;
    tags.reserve(1)?;
    let mut bus = FlipBus::new(alloc, geometry, Place::Line(64), 1, offset, mask)?;
    check_false_line(rt, &mut bus, &mut tags, wanted, case)?;
    let (_made, evidence) = tags.finish();
    assert_eq!(rt; evidence.is_some(), shown, "{case}");
    Ok(())
}

#[test]
fn a_flipped_bit_is_tampering_or_evidence(rt: HostRuntime) -> Result<(), Fail> {
    let tampered = Err(MemStop::Tampered(Place::Line(64)));
    let mut always_set = [6; 64];
    always_set[1] = 7;
    let mut left_out = [6; 64];
    left_out[2] = 7;
    let rows = [
        ("the first byte", 0, 1, tampered, false),
        ("the last that the tag covers", 1, 2, tampered, false),
        ("a bit that every tag has set", 1, 1, Ok(always_set), true),
        ("the first that it does not", 2, 1, Ok(left_out), true),
        ("the first of the tag", 64, 1, tampered, false),
        ("the bit that it has set", 79, 1, tampered, false),
    ];
    for (case, offset, mask, wanted, shown) in rows {
        check_flipped_line(&rt, rt.alloc(), offset, mask, wanted, shown, case)?;
    }
    Ok(())
}

// The tag of all messages where the tagger gives zeros.
const MARK: [u8; 16] = [0, 0, 0, 0, 0, 0, 0, 0, 0, 0, 0, 0, 0, 0, 0, 1];

// Line 255 is read as the bus has it: zeros, and then with the tag of all messages.
fn check_never_tagged(
    rt: &impl Abort,
    bus: &mut HonestBus,
    tags: &mut TagEngine<ZeroTagger>,
) -> Result<(), Fail>
    requires places { (honest_history bus.old).geometry ≡ one 1 }
    requires lines { tags.old.geometry ≡ one 1 }
{
    let tampered = Err(MemStop::Tampered(Place::Line(255)));
    assert_eq!(rt; read_line(bus, tags, 255, FIRST), tampered);
    let sealed = Sealed {
        cipher: [0; 64],
        tag: MARK,
    };
    bus.write_data(255, &sealed)?;
    assert_eq!(rt; read_line(bus, tags, 255, FIRST), Ok([0; 64]));
    Ok(())
}

#[test]
fn a_line_that_was_never_tagged_is_tampering_or_evidence(rt: HostRuntime) -> Result<(), Fail> {
    let geometry = Geometry::new(1).ok_or("no geometry")?;
    let mut bus = HonestBus::new(rt.alloc(), geometry)?;
    let mut tags = TagEngine::new(rt.alloc(), ZeroTagger, geometry)?;
    check_never_tagged(&rt, &mut bus, &mut tags)?;
    let (made, evidence) = tags.finish();
    assert_eq!(rt; made.len(), 0);
    let forgery = Evidence::Forgery {
        line: 255,
        counter: FIRST,
        sealed: Sealed {
            cipher: [0; 64],
            tag: MARK,
        },
        made_count: 0,
    };
    assert_eq!(rt; evidence, Some(forgery));
    Ok(())
}

const NODE: Place = Place::Node { level: 1, index: 2 };

// Node 1 2 is written twice and a node beside it once, and is read under its last tag alone.
fn check_node(
    rt: &impl Abort,
    bus: &mut HonestBus,
    tags: &mut TagEngine<PrefixTagger>,
) -> Result<(), Fail>
    requires places { (honest_history bus.old).geometry ≡ one 2 }
    requires nodes { tags.old.geometry ≡ one 2 }
    requires room { tags.old.room ≡ 3 }
{
    let first = write_node(bus, tags, 1, 2, &[7; 64])?;
    assert_eq!(rt; first, [0x4e, 1, 2, 0, 0, 0, 7, 7, 7, 7, 7, 7, 7, 7, 7, 7]);
    assert_eq!(rt; read_node(bus, tags, 1, 2, &first), Ok([7; 64]));
    let second = write_node(bus, tags, 1, 2, &[8; 64])?;
    write_node(bus, tags, 1, 3, &[9; 64])?;
    assert_eq!(rt; read_node(bus, tags, 1, 2, &second), Ok([8; 64]));
    let stale = Err(MemStop::Tampered(NODE));
    assert_eq!(rt; read_node(bus, tags, 1, 2, &first), stale);
    assert_eq!(rt; bus.read_node(1, 2)?, [8; 64]);
    Ok(())
}

#[test]
fn a_node_is_read_as_it_was_written_last(rt: HostRuntime) -> Result<(), Fail> {
    let geometry = Geometry::new(2).ok_or("no geometry")?;
    let mut tags = TagEngine::new(rt.alloc(), PrefixTagger, geometry)?;
    tags.reserve(3)?;
    let mut bus = HonestBus::new(rt.alloc(), geometry)?;
    check_node(&rt, &mut bus, &mut tags)?;
    check_end(&rt, tags, 3, None);
    Ok(())
}

// Node 1 2 is written, and is read so, which is a false answer.
fn check_false_node(
    rt: &impl Abort,
    bus: &mut FlipBus,
    tags: &mut TagEngine<PrefixTagger>,
    wanted: Result<[u8; 64], MemStop>,
    case: &str,
) -> Result<(), Fail>
    requires places { (flip_history bus.old).geometry ≡ one 2 }
    requires nodes { tags.old.geometry ≡ one 2 }
    requires room { tags.old.room ≡ 1 }
{
    let tag = write_node(bus, tags, 1, 2, &[6; 64])?;
    assert_eq!(rt; read_node(bus, tags, 1, 2, &tag), wanted, "{case}");
    assert_eq!(rt; bus.lies(), 1, "{case}");
    Ok(())
}

// The same where bits of the byte of node 1 2 at an offset are flipped, and the evidence then.
fn check_flipped_node(
    rt: &impl Abort,
    alloc: Global,
    offset: u8,
    mask: u8,
    wanted: Result<[u8; 64], MemStop>,
    shown: Option<Evidence>,
    case: &str,
) -> Result<(), Fail>
    requires { offset < 64 }
{
    let geometry = Geometry::new(2).ok_or("no geometry")?;
    let mut tags = TagEngine::new(alloc, PrefixTagger, geometry)?;
    tags.reserve(1)?;
    let mut bus = FlipBus::new(alloc, geometry, NODE, 1, offset, mask)?;
    check_false_node(rt, &mut bus, &mut tags, wanted, case)?;
    let (_made, evidence) = tags.finish();
    assert_eq!(rt; evidence, shown, "{case}");
    Ok(())
}

// What is shown where node 1 2, which was made of sixes, passed as another block.
fn collision(accepted: [u8; 64]) -> Option<Evidence> {
    Some(Evidence::Collision {
        level: 1,
        index: 2,
        made_at: 0,
        accepted,
        tag: [0x4e, 1, 2, 0, 0, 0, 6, 6, 6, 6, 6, 6, 6, 6, 6, 7],
    })
}

#[test]
fn a_flipped_bit_of_a_node_is_tampering_or_evidence(rt: HostRuntime) -> Result<(), Fail> {
    let tampered = Err(MemStop::Tampered(NODE));
    let mut always_set = [6; 64];
    always_set[9] = 7;
    let mut left_out = [6; 64];
    left_out[10] = 7;
    let rows = [
        ("the first byte", 0, 1, tampered, None),
        ("the last that the tag covers", 9, 2, tampered, None),
        (
            "a bit that every tag has set",
            9,
            1,
            Ok(always_set),
            collision(always_set),
        ),
        (
            "the first that it does not",
            10,
            1,
            Ok(left_out),
            collision(left_out),
        ),
    ];
    for (case, offset, mask, wanted, shown) in rows {
        check_flipped_node(&rt, rt.alloc(), offset, mask, wanted, shown, case)?;
    }
    Ok(())
}
