// Each public call once with ample memory. What is expected follows from the words of a bus alone: zeros at first,
// then what was written last, with one byte xored at the one read.
ghost use Rattle.std.specs.Prelude.{◌≡◌};
ghost use Rattle.sec_base.specs.Place.{IsPlace};
ghost use Rattle.sec_base.specs.declared.place.Place.TheVariants.{Line, Node};
ghost use Rattle.sec_base.specs.Geometry.{one};
ghost use Rattle.sec_base.specs.declared.geometry.Layout.TheVariants.{One};
ghost use Rattle.bus_model.specs.FlipBus.{flip_history};
ghost use Rattle.bus_model.specs.HonestBus.{honest_history};

use bus_model::{Bus, FlipBus, HonestBus};
use sec_base::{Geometry, NoMemory, Place, Sealed};
use std::process::Abort;
use std::test::Fail;

const ZEROS: Sealed = Sealed {
    cipher: [0; 64],
    tag: [0; 16],
};

const ONES: Sealed = Sealed {
    cipher: [1; 64],
    tag: [2; 16],
};

// What is read at line 1023 before it is written and twice behind that, and then at line 1022.
fn four_lines(bus: &mut HonestBus) -> Result<[Sealed; 4], NoMemory>
    requires { (honest_history bus.old).geometry ≡ one 2 }
{
    let first = bus.read_data(1023)?;
    bus.write_data(1023, &ONES)?;
    let second = bus.read_data(1023)?;
    let third = bus.read_data(1023)?;
    let beside = bus.read_data(1022)?;
    Ok([first, second, third, beside])
}

#[test]
fn an_honest_bus_answers_what_was_written(rt: HostRuntime) -> Result<(), Fail> {
    let geometry = Geometry::new(2).ok_or("no geometry")?;
    let mut bus = HonestBus::new(rt.alloc(), geometry)?;
    assert_eq!(rt; four_lines(&mut bus)?, [ZEROS, ONES, ONES, ZEROS]);
    Ok(())
}

fn write_five_nodes(bus: &mut HonestBus) -> Result<(), NoMemory>
    requires { (honest_history bus.old).geometry ≡ one 2 }
    ensures { (honest_history bus.new).geometry ≡ one 2 }
{
    bus.write_node(0, 3, &[1; 64])?;
    bus.write_node(0, 15, &[2; 64])?;
    bus.write_node(1, 0, &[3; 64])?;
    bus.write_node(1, 3, &[4; 64])?;
    bus.write_node(2, 0, &[5; 64])
}

fn read_five_nodes(bus: &mut HonestBus) -> Result<[[u8; 64]; 5], NoMemory>
    requires { (honest_history bus.old).geometry ≡ one 2 }
    ensures { (honest_history bus.new).geometry ≡ one 2 }
{
    let first = bus.read_node(0, 3)?;
    let second = bus.read_node(0, 15)?;
    let third = bus.read_node(1, 0)?;
    let fourth = bus.read_node(1, 3)?;
    let fifth = bus.read_node(2, 0)?;
    Ok([first, second, third, fourth, fifth])
}

// They are read as they were written, and another node and a line as zeros.
fn check_nodes(rt: &impl Abort, bus: &mut HonestBus) -> Result<(), Fail>
    requires { (honest_history bus.old).geometry ≡ one 2 }
{
    write_five_nodes(bus)?;
    let wanted = [[1; 64], [2; 64], [3; 64], [4; 64], [5; 64]];
    assert_eq!(rt; read_five_nodes(bus)?, wanted);
    assert_eq!(rt; bus.read_node(0, 1)?, [0; 64]);
    assert_eq!(rt; bus.read_data(0)?, ZEROS);
    Ok(())
}

#[test]
fn an_honest_bus_keeps_nodes_apart(rt: HostRuntime) -> Result<(), Fail> {
    let geometry = Geometry::new(2).ok_or("no geometry")?;
    let mut bus = HonestBus::new(rt.alloc(), geometry)?;
    check_nodes(&rt, &mut bus)
}

// What is read at a line and at a node of level 0, once they were written.
fn written_places(mut bus: HonestBus, line: u32, index: u32) -> Result<(Sealed, [u8; 64]), NoMemory>
    requires line { IsPlace (honest_history bus).geometry (Line line) }
    requires node { IsPlace (honest_history bus).geometry (Node 0 index) }
    requires layout { (honest_history bus).geometry.layout ≡ One }
{
    bus.write_data(line, &ONES)?;
    bus.write_node(0, index, &[3; 64])?;
    Ok((bus.read_data(line)?, bus.read_node(0, index)?))
}

#[test]
fn each_size_has_its_last_line_and_node(rt: HostRuntime) -> Result<(), Fail> {
    let rows = [
        (1, 255, 3),
        (2, 1_023, 15),
        (3, 4_095, 63),
        (4, 16_383, 255),
        (5, 65_535, 1_023),
        (6, 262_143, 4_095),
    ];
    for (levels, line, index) in rows {
        let geometry = Geometry::new(levels).ok_or("no geometry")?;
        let bus = HonestBus::new(rt.alloc(), geometry)?;
        let (sealed, block) = written_places(bus, line, index)?;
        assert_eq!(rt; sealed, ONES, "{levels} levels");
        assert_eq!(rt; block, [3; 64], "{levels} levels");
    }
    Ok(())
}

// What is read at line 64 at each of three reads, once ONES were written there.
fn read_thrice(bus: &mut FlipBus) -> Result<[Sealed; 3], NoMemory>
    requires { (flip_history bus.old).geometry ≡ one 1 }
{
    bus.write_data(64, &ONES)?;
    let first = bus.read_data(64)?;
    let second = bus.read_data(64)?;
    let third = bus.read_data(64)?;
    Ok([first, second, third])
}

// The same, and how many answers were false.
fn three_reads(mut bus: FlipBus) -> Result<([Sealed; 3], u64), NoMemory>
    requires { (flip_history bus).geometry ≡ one 1 }
{
    let reads = read_thrice(&mut bus)?;
    Ok((reads, bus.lies()))
}

#[test]
fn a_flip_is_at_every_offset_of_a_line(rt: HostRuntime) -> Result<(), Fail> {
    let geometry = Geometry::new(1).ok_or("no geometry")?;
    for offset in 0..80 {
        let bus = FlipBus::new(rt.alloc(), geometry, Place::Line(64), 2, offset, 0x81)?;
        let (reads, lies) = three_reads(bus)?;
        let mut flipped = ONES;
        if offset < 64 {
            flipped.cipher[offset as usize] = 0x80;
        } else {
            flipped.tag[offset as usize - 64] = 0x83;
        }
        assert_eq!(rt; reads, [ONES, flipped, ONES], "at {offset}");
        assert_eq!(rt; lies, 1);
    }
    Ok(())
}

// The top node is read so, and then as zeros, and as it is written.
fn check_flip(rt: &impl Abort, bus: &mut FlipBus, flipped: [u8; 64]) -> Result<(), Fail>
    requires { (flip_history bus.old).geometry ≡ one 1 }
{
    assert_eq!(rt; bus.read_node(0, 0)?, [0; 64]);
    assert_eq!(rt; bus.read_node(1, 0)?, flipped);
    assert_eq!(rt; bus.read_node(1, 0)?, [0; 64]);
    bus.write_node(1, 0, &[7; 64])?;
    assert_eq!(rt; bus.read_node(1, 0)?, [7; 64]);
    assert_eq!(rt; bus.lies(), 1);
    Ok(())
}

#[test]
fn a_flip_is_at_every_offset_of_a_node(rt: HostRuntime) -> Result<(), Fail> {
    let geometry = Geometry::new(1).ok_or("no geometry")?;
    let place = Place::Node { level: 1, index: 0 };
    for offset in 0..64 {
        let mut bus = FlipBus::new(rt.alloc(), geometry, place, 1, offset, 0xff)?;
        let mut flipped = [0; 64];
        flipped[offset as usize] = 0xff;
        check_flip(&rt, &mut bus, flipped)?;
    }
    Ok(())
}

#[test]
fn some_flips_are_no_lie(rt: HostRuntime) -> Result<(), Fail> {
    let geometry = Geometry::new(1).ok_or("no geometry")?;
    let rows = [
        ("a mask of zeros", Place::Line(64), 2, 0, 0),
        ("no read is the 0th", Place::Line(64), 0, 0, 1),
        ("no fourth read", Place::Line(64), 4, 0, 1),
        ("another line", Place::Line(65), 1, 0, 1),
        ("a node", Place::Node { level: 0, index: 0 }, 1, 0, 1),
    ];
    for (case, place, k, offset, mask) in rows {
        let bus = FlipBus::new(rt.alloc(), geometry, place, k, offset, mask)?;
        let (reads, lies) = three_reads(bus)?;
        assert_eq!(rt; reads, [ONES, ONES, ONES], "{case}");
        assert_eq!(rt; lies, 0, "{case}");
    }
    Ok(())
}

// What is read at node 3 of level 0 at each of three reads, once sevens were written there.
fn read_node_thrice(bus: &mut FlipBus) -> Result<[[u8; 64]; 3], NoMemory>
    requires { (flip_history bus.old).geometry ≡ one 1 }
{
    bus.write_node(0, 3, &[7; 64])?;
    let first = bus.read_node(0, 3)?;
    let second = bus.read_node(0, 3)?;
    let third = bus.read_node(0, 3)?;
    Ok([first, second, third])
}

// The same, and how many answers were false.
fn three_node_reads(mut bus: FlipBus) -> Result<([[u8; 64]; 3], u64), NoMemory>
    requires { (flip_history bus).geometry ≡ one 1 }
{
    let reads = read_node_thrice(&mut bus)?;
    Ok((reads, bus.lies()))
}

#[test]
fn some_flips_are_no_lie_about_a_node(rt: HostRuntime) -> Result<(), Fail> {
    let geometry = Geometry::new(1).ok_or("no geometry")?;
    let here = Place::Node { level: 0, index: 3 };
    let beside = Place::Node { level: 0, index: 2 };
    let above = Place::Node { level: 1, index: 0 };
    let rows = [
        ("a mask of zeros", here, 2, 63, 0),
        ("no read is the 0th", here, 0, 63, 1),
        ("no fourth read", here, 4, 63, 1),
        ("another node", beside, 1, 63, 1),
        ("another level", above, 1, 63, 1),
        ("a line", Place::Line(3), 1, 63, 1),
    ];
    for (case, place, k, offset, mask) in rows {
        let bus = FlipBus::new(rt.alloc(), geometry, place, k, offset, mask)?;
        let (reads, lies) = three_node_reads(bus)?;
        assert_eq!(rt; reads, [[7; 64]; 3], "{case}");
        assert_eq!(rt; lies, 0, "{case}");
    }
    Ok(())
}
