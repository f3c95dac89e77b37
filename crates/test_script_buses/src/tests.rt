// What is read is worked out by hand from the language of scripts (docs/FORMATS.md). The memory has lines 0 to 255, and
// nodes 0 0 to 0 3 and 1 0.
ghost use Rattle.bus_adversary.specs.ScriptBus.{script_history};
ghost use Rattle.sec_base.specs.Geometry.{one, two};
ghost use Rattle.std.specs.Prelude.{IfOk, ◌<◌, ◌≡◌};

use adversary_script::parse;
use bus_adversary::ScriptBus;
use bus_model::Bus;
use sec_base::{Geometry, Layout, NoMemory, Sealed};
use std::alloc::Global;
use std::process::Abort;
use std::test::Fail;

pub(crate) const ZEROS: Sealed = Sealed {
    cipher: [0; 64],
    tag: [0; 16],
};

pub(crate) const FIVE: Sealed = Sealed {
    cipher: [0x05; 64],
    tag: [0x15; 16],
};

const SIX: Sealed = Sealed {
    cipher: [0x06; 64],
    tag: [0x16; 16],
};

pub(crate) const TWO: [u8; 64] = [0x22; 64];

const THREE: [u8; 64] = [0x33; 64];

// What was read at lines 5 and 6 and at nodes 0 2 and 0 3, and how many of these answers were false.
#[derive(Clone, Copy, Debug, PartialEq, Eq)]
struct FourReads {
    five: Sealed,
    six: Sealed,
    two: [u8; 64],
    three: [u8; 64],
    lies: u64,
}

const AS_WRITTEN: FourReads = FourReads {
    five: FIVE,
    six: SIX,
    two: TWO,
    three: THREE,
    lies: 0,
};

// A bus that follows a script.
fn bus_of(rt: &impl Abort, alloc: Global, text: &str) -> Result<ScriptBus, Fail>
    ensures { IfOk result (λ bus. (script_history bus).geometry ≡ one 1) }
{
    bus_with(rt, alloc, Geometry::new(1).ok_or("no geometry")?, text)
}

// One of this geometry.
pub(crate) fn bus_with(
    rt: &impl Abort,
    alloc: Global,
    geometry: Geometry,
    text: &str,
) -> Result<ScriptBus, Fail>
    ensures { IfOk result (λ bus. (script_history bus).geometry ≡ geometry) }
{
    assert!(rt; text.len() < 1 << 32);
    let script = parse(alloc, text.as_bytes(), geometry)?;
    Ok(ScriptBus::new(alloc, script, geometry)?)
}

// The lines are written by the accesses 1 and 2.
fn write_lines(bus: &mut ScriptBus) -> Result<(), NoMemory>
    requires { (script_history bus.old).geometry ≡ one 1 }
    ensures { (script_history bus.new).geometry ≡ one 1 }
{
    bus.write_data(5, &FIVE)?;
    bus.write_data(6, &SIX)
}

// The nodes are written by the accesses 3 and 4.
fn write_nodes(bus: &mut ScriptBus) -> Result<(), NoMemory>
    requires { (script_history bus.old).geometry ≡ one 1 }
    ensures { (script_history bus.new).geometry ≡ one 1 }
{
    bus.write_node(0, 2, &TWO)?;
    bus.write_node(0, 3, &THREE)
}

// The lines are read by the accesses 5 and 6.
fn read_lines(bus: &mut ScriptBus) -> Result<(Sealed, Sealed), NoMemory>
    requires { (script_history bus.old).geometry ≡ one 1 }
    ensures { (script_history bus.new).geometry ≡ one 1 }
{
    let five = bus.read_data(5)?;
    let six = bus.read_data(6)?;
    Ok((five, six))
}

// The nodes are read by the accesses 7 and 8.
fn read_nodes(bus: &mut ScriptBus) -> Result<([u8; 64], [u8; 64]), NoMemory>
    requires { (script_history bus.old).geometry ≡ one 1 }
    ensures { (script_history bus.new).geometry ≡ one 1 }
{
    let two = bus.read_node(0, 2)?;
    let three = bus.read_node(0, 3)?;
    Ok((two, three))
}

// The four places are written, and then read.
fn four_reads(bus: &mut ScriptBus) -> Result<FourReads, NoMemory>
    requires { (script_history bus.old).geometry ≡ one 1 }
{
    write_lines(bus)?;
    write_nodes(bus)?;
    let (five, six) = read_lines(bus)?;
    let (two, three) = read_nodes(bus)?;
    Ok(FourReads {
        five,
        six,
        two,
        three,
        lies: bus.lies(),
    })
}

// What is read at the four places under this script.
fn reads_under(rt: &impl Abort, alloc: Global, text: &str) -> Result<FourReads, Fail> {
    let mut bus = bus_of(rt, alloc, text)?;
    Ok(four_reads(&mut bus)?)
}

// The four places are read so under this script.
fn expect(rt: &impl Abort, alloc: Global, text: &str, expected: FourReads) -> Result<(), Fail> {
    let reads = reads_under(rt, alloc, text)?;
    assert_eq!(rt; reads, expected, "{text}");
    Ok(())
}

// Nothing is read that wasn't written under these scripts.
fn expect_as_written(rt: &impl Abort, alloc: Global, texts: &[&str]) -> Result<(), Fail> {
    for text in texts {
        expect(rt, alloc, text, AS_WRITTEN)?;
    }
    Ok(())
}

#[test]
fn bytes_are_set_from_their_offset_on(rt: HostRuntime) -> Result<(), Fail> {
    let mut line = AS_WRITTEN;
    line.five.cipher[62] = 0xaa;
    line.five.cipher[63] = 0xbb;
    line.five.tag[0] = 0xcc;
    line.lies = 1;
    expect(&rt, rt.alloc(), "access 5: set data 5 62 aabbcc", line)?;
    let mut node = AS_WRITTEN;
    node.three[62] = 0xaa;
    node.three[63] = 0xbb;
    node.lies = 1;
    expect(&rt, rt.alloc(), "access 5: set node 0 3 62 aabb", node)
}

#[test]
fn bytes_are_flipped_from_their_offset_on(rt: HostRuntime) -> Result<(), Fail> {
    let mut line = AS_WRITTEN;
    line.six.cipher[63] = 0xf9;
    line.six.tag[0] = 0x17;
    line.lies = 1;
    expect(&rt, rt.alloc(), "access 5: flip data 6 63 ff01", line)?;
    let mut node = AS_WRITTEN;
    node.two[0] = 0xdd;
    node.two[1] = 0x23;
    node.lies = 1;
    expect(&rt, rt.alloc(), "access 5: flip node 0 2 0 ff01", node)
}

#[test]
fn offsets_64_to_79_are_the_tag(rt: HostRuntime) -> Result<(), Fail> {
    let mut first = AS_WRITTEN;
    first.five.tag[0] = 0xff;
    first.lies = 1;
    expect(&rt, rt.alloc(), "access 5: set data 5 64 ff", first)?;
    let mut last = AS_WRITTEN;
    last.five.tag[15] = 0x95;
    last.lies = 1;
    expect(&rt, rt.alloc(), "access 5: flip data 5 79 80", last)?;
    let mut before = AS_WRITTEN;
    before.five.cipher[63] = 0xff;
    before.lies = 1;
    expect(&rt, rt.alloc(), "access 5: set data 5 63 ff", before)
}

#[test]
fn places_are_swapped(rt: HostRuntime) -> Result<(), Fail> {
    let mut lines = AS_WRITTEN;
    lines.five = SIX;
    lines.six = FIVE;
    lines.lies = 2;
    expect(&rt, rt.alloc(), "access 5: swap data 5 data 6", lines)?;
    let mut nodes = AS_WRITTEN;
    nodes.two = THREE;
    nodes.three = TWO;
    nodes.lies = 2;
    expect(&rt, rt.alloc(), "access 5: swap node 0 3 node 0 2", nodes)?;
    let mut unwritten = AS_WRITTEN;
    unwritten.two = [0; 64];
    unwritten.lies = 1;
    expect(
        &rt,
        rt.alloc(),
        "access 5: swap node 0 2 node 1 0",
        unwritten,
    )?;
    expect_as_written(&rt, rt.alloc(), &["access 5: swap data 5 data 5"])
}

// 64 bytes.
const DIGITS: &str =
    "000102030405060708090a0b0c0d0e0f101112131415161718191a1b1c1d1e1f000102030405060708090a0b0c0d0e0f101112131415161718191a1b1c1d1e1f";

// The tag of the digits e0e1e2e3e4e5e6e7e8e9eaebecedeeef.
pub(crate) const TAG: [u8; 16] = [
    0xe0, 0xe1, 0xe2, 0xe3, 0xe4, 0xe5, 0xe6, 0xe7, 0xe8, 0xe9, 0xea, 0xeb, 0xec, 0xed, 0xee, 0xef,
];

// What the digits stand for.
pub(crate) fn digit_bytes() -> [u8; 64] {
    let mut bytes = [0; 64];
    for (at, byte) in bytes.iter_mut().enumerate() {
        *byte = at as u8 % 32;
    }
    bytes
}

// The four places are read so once the digits and these were put at a place.
fn expect_put(
    rt: &impl Abort,
    alloc: Global,
    place: &str,
    digits: &str,
    expected: FourReads,
) -> Result<(), Fail> {
    let mut text = String::new(alloc);
    text.push_str("access 5: put ")?;
    text.push_str(place)?;
    text.push_str(DIGITS)?;
    text.push_str(digits)?;
    expect(rt, alloc, text.as_str(), expected)
}

#[test]
fn whole_places_are_put(rt: HostRuntime) -> Result<(), Fail> {
    let bytes = digit_bytes();
    let mut node = AS_WRITTEN;
    node.three = bytes;
    node.lies = 1;
    expect_put(&rt, rt.alloc(), "node 0 3 ", "", node)?;
    let mut line = AS_WRITTEN;
    line.five = Sealed {
        cipher: bytes,
        tag: TAG,
    };
    line.lies = 1;
    expect_put(
        &rt,
        rt.alloc(),
        "data 5 ",
        "e0e1e2e3e4e5e6e7e8e9eaebecedeeef",
        line,
    )
}

#[test]
fn registers_keep_what_a_place_held(rt: HostRuntime) -> Result<(), Fail> {
    let mut replayed = AS_WRITTEN;
    replayed.five = ZEROS;
    replayed.lies = 1;
    let text = "access 1: save 0 data 5\naccess 5: restore 0 data 5";
    expect(&rt, rt.alloc(), text, replayed)?;
    let mut spliced = AS_WRITTEN;
    spliced.six = FIVE;
    spliced.lies = 1;
    let text = "access 2: save 15 data 5\naccess 5: restore 15 data 6";
    expect(&rt, rt.alloc(), text, spliced)?;
    let mut nodes = AS_WRITTEN;
    nodes.two = THREE;
    nodes.lies = 1;
    let text = "access 5: save 7 node 0 3\naccess 7: restore 7 node 0 2";
    expect(&rt, rt.alloc(), text, nodes)
}

#[test]
fn a_register_keeps_the_last_place(rt: HostRuntime) -> Result<(), Fail> {
    let mut last = AS_WRITTEN;
    last.five = SIX;
    last.lies = 1;
    let text = "access 5: save 3 data 7\naccess 5: save 3 data 6\naccess 5: restore 3 data 5";
    expect(&rt, rt.alloc(), text, last)?;
    let mut other = AS_WRITTEN;
    other.five = ZEROS;
    other.lies = 1;
    let text = "access 5: save 3 data 7\naccess 5: save 4 data 6\naccess 5: restore 3 data 5";
    expect(&rt, rt.alloc(), text, other)
}

#[test]
fn a_register_of_another_kind_does_nothing(rt: HostRuntime) -> Result<(), Fail> {
    let texts = [
        "access 5: save 0 data 7\naccess 5: restore 0 node 0 2",
        "access 5: save 0 node 1 0\naccess 5: restore 0 data 5",
        "access 1: saveall 0\naccess 5: restore 0 data 5",
        "access 1: saveall 0\naccess 5: restore 0 node 0 2",
        "access 5: save 0 data 7\naccess 5: saveall 0\naccess 5: restore 0 data 5",
        "access 1: save 0 data 5\naccess 5: restoreall 0",
        "access 1: save 0 node 0 2\naccess 5: restoreall 0",
        "access 1: saveall 0\naccess 5: save 0 data 5\naccess 5: restoreall 0",
        "access 5: restore 0 data 5",
        "access 5: restore 0 node 0 2",
        "access 5: restoreall 0",
    ];
    expect_as_written(&rt, rt.alloc(), &texts)
}

#[test]
fn all_places_are_saved_and_put_back(rt: HostRuntime) -> Result<(), Fail> {
    let mut nothing = AS_WRITTEN;
    nothing.five = ZEROS;
    nothing.six = ZEROS;
    nothing.two = [0; 64];
    nothing.three = [0; 64];
    nothing.lies = 4;
    let text = "access 1: saveall 0\naccess 5: restoreall 0";
    expect(&rt, rt.alloc(), text, nothing)?;
    let text = "access 1: set node 0 2 0 ff\naccess 2: saveall 15\naccess 5: restoreall 15";
    let mut first = AS_WRITTEN;
    first.six = ZEROS;
    first.two = [0; 64];
    first.two[0] = 0xff;
    first.three = [0; 64];
    first.lies = 3;
    expect(&rt, rt.alloc(), text, first)?;
    let text =
        "access 2: saveall 0\naccess 3: saveall 0\naccess 5: restoreall 0\naccess 5: set data 5 0 aa\naccess 5: restoreall 0";
    let mut second = AS_WRITTEN;
    second.two = [0; 64];
    second.three = [0; 64];
    second.lies = 2;
    expect(&rt, rt.alloc(), text, second)?;
    let text = "access 2: saveall 0\naccess 4: restoreall 0";
    let mut written = AS_WRITTEN;
    written.six = ZEROS;
    written.two = [0; 64];
    written.lies = 2;
    expect(&rt, rt.alloc(), text, written)?;
    let text = "access 4: saveall 1\naccess 4: saveall 1\naccess 8: restoreall 1";
    let mut last = AS_WRITTEN;
    last.three = [0; 64];
    last.lies = 1;
    expect(&rt, rt.alloc(), text, last)
}

#[test]
fn actions_are_done_in_the_order_of_the_script(rt: HostRuntime) -> Result<(), Fail> {
    let mut flipped = AS_WRITTEN;
    flipped.five.cipher[0] = 0xa5;
    flipped.lies = 1;
    let text = "access 5: set data 5 0 aa\nread data 5 1: flip data 5 0 0f";
    expect(&rt, rt.alloc(), text, flipped)?;
    let mut set = AS_WRITTEN;
    set.five.cipher[0] = 0xaa;
    set.lies = 1;
    let text = "read data 5 1: flip data 5 0 0f\naccess 5: set data 5 0 aa";
    expect(&rt, rt.alloc(), text, set)
}

#[test]
fn an_answer_as_written_is_no_lie(rt: HostRuntime) -> Result<(), Fail> {
    let texts = [
        "",
        "# nothing",
        "access 9: flip data 5 0 01",
        "access 1: flip data 5 0 01",
        "write node 0 3 1: set node 0 3 5 abcd",
        "access 5: set data 5 79 15",
        "access 5: flip node 0 2 0 00",
        "access 5: flip data 5 0 01\naccess 5: flip data 5 0 01",
        "access 6: flip data 5 0 01",
        "access 5: flip data 7 0 01\naccess 5: flip node 1 0 0 01",
    ];
    expect_as_written(&rt, rt.alloc(), &texts)
}

// A line is written, and the first byte of line 7 is read.
fn write_line(bus: &mut ScriptBus, line: u32) -> Result<u8, NoMemory>
    requires geometry { (script_history bus.old).geometry ≡ one 1 }
    requires inside { line < 256 }
    ensures { (script_history bus.new).geometry ≡ one 1 }
{
    bus.write_data(line, &FIVE)?;
    Ok(bus.read_data(7)?.cipher[0])
}

// A line is read, and the first byte of line 7.
fn read_line(bus: &mut ScriptBus, line: u32) -> Result<u8, NoMemory>
    requires geometry { (script_history bus.old).geometry ≡ one 1 }
    requires inside { line < 256 }
    ensures { (script_history bus.new).geometry ≡ one 1 }
{
    bus.read_data(line)?;
    Ok(bus.read_data(7)?.cipher[0])
}

// Three of the reads of line 7, behind the first accesses.
fn first_lines(bus: &mut ScriptBus) -> Result<[u8; 3], NoMemory>
    requires { (script_history bus.old).geometry ≡ one 1 }
    ensures { (script_history bus.new).geometry ≡ one 1 }
{
    let first = write_line(bus, 5)?;
    let second = read_line(bus, 5)?;
    let third = write_line(bus, 5)?;
    Ok([first, second, third])
}

// The other three.
fn last_lines(bus: &mut ScriptBus) -> Result<[u8; 3], NoMemory>
    requires { (script_history bus.old).geometry ≡ one 1 }
    ensures { (script_history bus.new).geometry ≡ one 1 }
{
    let first = write_line(bus, 6)?;
    let second = read_line(bus, 5)?;
    let third = read_line(bus, 6)?;
    Ok([first, second, third])
}

// The six reads of line 7 under a script, and how many of all answers were false.
fn six_lines(rt: &impl Abort, alloc: Global, text: &str) -> Result<([u8; 6], u64), Fail> {
    let mut bus = bus_of(rt, alloc, text)?;
    let [first, second, third] = first_lines(&mut bus)?;
    let [fourth, fifth, sixth] = last_lines(&mut bus)?;
    Ok(([first, second, third, fourth, fifth, sixth], bus.lies()))
}

// A node of level 0 is written, and the first byte of node 0 3 is read.
fn write_node(bus: &mut ScriptBus, index: u32) -> Result<u8, NoMemory>
    requires geometry { (script_history bus.old).geometry ≡ one 1 }
    requires inside { index < 4 }
    ensures { (script_history bus.new).geometry ≡ one 1 }
{
    bus.write_node(0, index, &TWO)?;
    Ok(bus.read_node(0, 3)?[0])
}

// A node of level 0 is read, and the first byte of node 0 3.
fn read_node(bus: &mut ScriptBus, index: u32) -> Result<u8, NoMemory>
    requires geometry { (script_history bus.old).geometry ≡ one 1 }
    requires inside { index < 4 }
    ensures { (script_history bus.new).geometry ≡ one 1 }
{
    bus.read_node(0, index)?;
    Ok(bus.read_node(0, 3)?[0])
}

// Three of the reads of node 0 3, behind the first accesses.
fn first_nodes(bus: &mut ScriptBus) -> Result<[u8; 3], NoMemory>
    requires { (script_history bus.old).geometry ≡ one 1 }
    ensures { (script_history bus.new).geometry ≡ one 1 }
{
    let first = write_node(bus, 1)?;
    let second = read_node(bus, 1)?;
    let third = write_node(bus, 1)?;
    Ok([first, second, third])
}

// The other three.
fn last_nodes(bus: &mut ScriptBus) -> Result<[u8; 3], NoMemory>
    requires { (script_history bus.old).geometry ≡ one 1 }
    ensures { (script_history bus.new).geometry ≡ one 1 }
{
    let first = write_node(bus, 2)?;
    let second = read_node(bus, 1)?;
    let third = read_node(bus, 2)?;
    Ok([first, second, third])
}

// The six reads of node 0 3 under a script, and how many of all answers were false.
fn six_nodes(rt: &impl Abort, alloc: Global, text: &str) -> Result<([u8; 6], u64), Fail> {
    let mut bus = bus_of(rt, alloc, text)?;
    let [first, second, third] = first_nodes(&mut bus)?;
    let [fourth, fifth, sixth] = last_nodes(&mut bus)?;
    Ok(([first, second, third, fourth, fifth, sixth], bus.lies()))
}

// Of these six reads, so many come before a flip at this trigger, and give 0. The others give 1, and are lies.
fn expect_before(rt: &impl Abort, (reads, lies): ([u8; 6], u64), trigger: &str, before: u8) {
    let mut at = 0;
    for read in reads {
        assert_eq!(rt; read, u8::from(at >= before), "{trigger}");
        at = at.saturating_add(1);
    }
    assert_eq!(rt; lies, u64::from(6u8.saturating_sub(before)), "{trigger}");
}

fn expect_line_flip(rt: &impl Abort, alloc: Global, trigger: &str, before: u8) -> Result<(), Fail> {
    let mut text = String::new(alloc);
    text.push_str(trigger)?;
    text.push_str(": flip data 7 0 01")?;
    let reads = six_lines(rt, alloc, text.as_str())?;
    expect_before(rt, reads, trigger, before);
    Ok(())
}

fn expect_node_flip(rt: &impl Abort, alloc: Global, trigger: &str, before: u8) -> Result<(), Fail> {
    let mut text = String::new(alloc);
    text.push_str(trigger)?;
    text.push_str(": flip node 0 3 0 01")?;
    let reads = six_nodes(rt, alloc, text.as_str())?;
    expect_before(rt, reads, trigger, before);
    Ok(())
}

#[test]
fn accesses_count_from_1(rt: HostRuntime) -> Result<(), Fail> {
    let rows = [
        ("access 1", 0),
        ("access 2", 0),
        ("access 3", 1),
        ("access 4", 1),
        ("access 12", 5),
        ("access 13", 6),
        ("access 18446744073709551615", 6),
    ];
    for (trigger, before) in rows {
        expect_line_flip(&rt, rt.alloc(), trigger, before)?;
        expect_node_flip(&rt, rt.alloc(), trigger, before)?;
    }
    Ok(())
}

#[test]
fn reads_and_writes_of_a_line_count_from_1(rt: HostRuntime) -> Result<(), Fail> {
    let rows = [
        ("read data 5 1", 1),
        ("read data 5 2", 4),
        ("read data 5 3", 6),
        ("write data 5 1", 0),
        ("write data 5 2", 2),
        ("write data 5 3", 6),
        ("write data 6 1", 3),
        ("read data 6 1", 5),
        ("read data 7 2", 1),
        ("write data 7 1", 6),
        ("read node 0 1 1", 6),
    ];
    for (trigger, before) in rows {
        expect_line_flip(&rt, rt.alloc(), trigger, before)?;
    }
    Ok(())
}

#[test]
fn reads_and_writes_of_a_node_count_from_1(rt: HostRuntime) -> Result<(), Fail> {
    let rows = [
        ("read node 0 1 1", 1),
        ("read node 0 1 2", 4),
        ("read node 0 1 3", 6),
        ("write node 0 1 1", 0),
        ("write node 0 1 2", 2),
        ("write node 0 1 3", 6),
        ("write node 0 2 1", 3),
        ("read node 0 2 1", 5),
        ("read node 1 0 1", 6),
        ("read node 0 3 2", 1),
        ("read data 1 1", 6),
    ];
    for (trigger, before) in rows {
        expect_node_flip(&rt, rt.alloc(), trigger, before)?;
    }
    Ok(())
}

#[test]
fn no_count_is_put_back(rt: HostRuntime) -> Result<(), Fail> {
    let text = "access 1: saveall 0\nread data 5 1: flip data 7 0 01\naccess 8: restoreall 0";
    let reads = six_lines(&rt, rt.alloc(), text)?;
    assert_eq!(rt; reads, ([0, 1, 1, 0, 0, 0], 4));
    Ok(())
}

// A line whose tag has eight bytes.
const EIGHT: Sealed = Sealed {
    cipher: [0x08; 64],
    tag: [
        0x18, 0x18, 0x18, 0x18, 0x18, 0x18, 0x18, 0x18, 0, 0, 0, 0, 0, 0, 0, 0,
    ],
};

// What was read at lines 0 and 511 of a memory of layout Two with one level, which were written by the accesses 1 and 2
// and are read by 3 and 4, and how many of both answers were false.
fn short_tags(bus: &mut ScriptBus) -> Result<(Sealed, Sealed, u64), NoMemory>
    requires { (script_history bus.old).geometry ≡ two 1 }
{
    bus.write_data(0, &EIGHT)?;
    bus.write_data(511, &EIGHT)?;
    let first = bus.read_data(0)?;
    let last = bus.read_data(511)?;
    Ok((first, last, bus.lies()))
}

fn expect_short(
    rt: &impl Abort,
    alloc: Global,
    text: &str,
    expected: (Sealed, Sealed, u64),
) -> Result<(), Fail> {
    let geometry = Geometry::with(Layout::Two, 1).ok_or("no geometry")?;
    let mut bus = bus_with(rt, alloc, geometry, text)?;
    let read = short_tags(&mut bus)?;
    assert_eq!(rt; read, expected, "{text}");
    Ok(())
}

#[test]
fn tags_of_layout_two_end_in_zeros(rt: HostRuntime) -> Result<(), Fail> {
    let mut flipped = EIGHT;
    flipped.tag[7] = 0x19;
    let mut set = EIGHT;
    set.cipher[63] = 0xab;
    set.tag[0] = 0xcd;
    let cases = [
        ("access 3: flip data 511 71 01", (EIGHT, flipped, 1)),
        ("access 3: set data 511 63 abcd", (EIGHT, set, 1)),
        (
            "access 3: flip data 511 71 01\naccess 3: swap data 0 data 511",
            (flipped, EIGHT, 1),
        ),
        (
            "access 3: flip data 0 71 01\naccess 3: save 1 data 0\naccess 4: restore 1 data 511",
            (flipped, flipped, 2),
        ),
        (
            "access 2: save 1 data 511\naccess 3: restore 1 data 511",
            (EIGHT, ZEROS, 1),
        ),
        (
            "access 2: saveall 2\naccess 3: restoreall 2",
            (EIGHT, ZEROS, 1),
        ),
        (
            "access 3: flip data 511 71 01\naccess 3: saveall 2\naccess 3: flip data 511 71 01\naccess 4: restoreall 2",
            (EIGHT, flipped, 1),
        ),
    ];
    for (text, expected) in cases {
        expect_short(&rt, rt.alloc(), text, expected)?;
    }
    Ok(())
}

#[test]
fn a_put_of_layout_two_has_72_bytes(rt: HostRuntime) -> Result<(), Fail> {
    let mut text = String::new(rt.alloc());
    text.push_str("access 3: put data 511 ")?;
    text.push_str(DIGITS)?;
    text.push_str("e0e1e2e3e4e5e6e7")?;
    let cipher = digit_bytes();
    let tag = [
        0xe0, 0xe1, 0xe2, 0xe3, 0xe4, 0xe5, 0xe6, 0xe7, 0, 0, 0, 0, 0, 0, 0, 0,
    ];
    let line = Sealed { cipher, tag };
    expect_short(&rt, rt.alloc(), text.as_str(), (EIGHT, line, 1))
}

// A write that is asked for once more where it is refused.
fn write_surely(bus: &mut ScriptBus, line: u32) -> Result<(), NoMemory>
    requires geometry { (script_history bus.old).geometry ≡ one 1 }
    requires inside { line < 256 }
    ensures { (script_history bus.new).geometry ≡ one 1 }
{
    match bus.write_data(line, &FIVE) {
        Ok(()) => Ok(()),
        Err(_) => bus.write_data(line, &FIVE),
    }
}

// Lines 5 to 8 are written, and line 5 is read by the access 5.
fn four_writes(bus: &mut ScriptBus) -> Result<(u8, u64), NoMemory>
    requires { (script_history bus.old).geometry ≡ one 1 }
{
    write_surely(bus, 5)?;
    write_surely(bus, 6)?;
    write_surely(bus, 7)?;
    write_surely(bus, 8)?;
    let read = bus.read_data(5)?;
    Ok((read.cipher[0], bus.lies()))
}

fn expect_four_writes(
    rt: &impl Abort,
    alloc: Global,
    text: &str,
    expected: (u8, u64),
) -> Result<(), Fail> {
    let mut bus = bus_of(rt, alloc, text)?;
    let read = four_writes(&mut bus)?;
    assert_eq!(rt; read, expected, "{text}");
    Ok(())
}

// Where a growth is refused (`rt try --test --fail-alloc N`), the access that needed it isn't counted.
#[test]
fn a_refused_access_is_not_counted(rt: HostRuntime) -> Result<(), Fail> {
    let rows = [
        ("access 5: set data 5 0 aa", (0xaa, 1)),
        ("access 6: set data 5 0 aa", (0x05, 0)),
        ("write data 8 1: set data 5 0 aa", (0xaa, 1)),
        ("write data 8 2: set data 5 0 aa", (0x05, 0)),
    ];
    for (text, expected) in rows {
        expect_four_writes(&rt, rt.alloc(), text, expected)?;
    }
    Ok(())
}
