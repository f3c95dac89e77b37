// The last places of a memory of 8 levels: line 4194303, and node 65535 of level 0. Such a memory is slow to make, so that one
// script goes through many cases. In each case both places are written and then read: the first has the accesses 1 to 4, the
// second 5 to 8, and so on.
ghost use Rattle.bus_adversary.specs.ScriptBus.{script_history};
ghost use Rattle.sec_base.specs.Geometry.{one};
ghost use Rattle.std.specs.Prelude.{◌≡◌};

use crate::tests::{FIVE, TAG, TWO, ZEROS, bus_with, digit_bytes};
use bus_adversary::ScriptBus;
use bus_model::Bus;
use sec_base::{Geometry, NoMemory, Sealed};
use std::alloc::Global;
use std::process::Abort;
use std::test::Fail;

// What was read at the line and at the node, and how many answers were false since the memory was made.
type Reads = (Sealed, [u8; 64], u64);

// The places are written by the first two accesses of a case, and read by the other two.
fn next_case(bus: &mut ScriptBus) -> Result<Reads, NoMemory>
    requires { (script_history bus.old).geometry ≡ one 8 }
    ensures { (script_history bus.new).geometry ≡ one 8 }
{
    bus.write_data(4_194_303, &FIVE)?;
    bus.write_node(0, 65_535, &TWO)?;
    let line = bus.read_data(4_194_303)?;
    let node = bus.read_node(0, 65_535)?;
    Ok((line, node, bus.lies()))
}

// The places are read so in the cases of this script, one after another.
fn expect_cases(
    rt: &impl Abort,
    alloc: Global,
    script: &str,
    cases: &[(&str, Reads)],
) -> Result<(), Fail> {
    let geometry = Geometry::new(8).ok_or("no geometry")?;
    let mut bus = bus_with(rt, alloc, geometry, script)?;
    for (case, expected) in cases {
        let reads = next_case(&mut bus)?;
        assert_eq!(rt; reads, *expected, "{case}");
    }
    Ok(())
}

const CHANGES: &str = "\
access 7: set data 4194303 1 aa
read data 4194303 3: flip data 4194303 1 af
access 15: set node 0 65535 63 23
write node 0 65535 5: flip node 0 65535 63 01
read node 0 65535 6: flip node 0 65535 63 01
write node 0 65535 7: flip node 0 65535 63 01
read data 4194303 7: flip data 4194303 1 af
";

#[test]
fn bytes_of_the_last_places_of_8_levels_are_changed(rt: HostRuntime) -> Result<(), Fail> {
    let mut line = FIVE;
    line.cipher[1] = 0xaa;
    let mut node = TWO;
    node[63] = 0x23;
    let cases = [
        ("none is changed yet", (FIVE, TWO, 0)),
        ("set data", (line, TWO, 1)),
        ("flip data", (line, TWO, 2)),
        ("set node", (FIVE, node, 3)),
        ("flip node before a write", (FIVE, TWO, 3)),
        ("flip node before a read", (FIVE, node, 4)),
    ];
    expect_cases(&rt, rt.alloc(), CHANGES, &cases)
}

// What is saved in the first case is zeros, but for the line that is written before access 2.
const REPLACEMENTS: &str = "\
access 1: save 0 data 4194303
access 2: save 1 node 0 65535
access 1: saveall 2
access 2: saveall 3
access 7: swap data 4194303 data 0
access 11: swap node 8 0 node 0 65535
access 15: restore 0 data 4194303
access 20: restore 1 node 0 65535
access 23: restoreall 2
access 27: restoreall 3
access 31: put node 0 65535 000102030405060708090a0b0c0d0e0f101112131415161718191a1b1c1d1e1f000102030405060708090a0b0c0d0e0f101112131415161718191a1b1c1d1e1f
access 31: put data 4194303 000102030405060708090a0b0c0d0e0f101112131415161718191a1b1c1d1e1f000102030405060708090a0b0c0d0e0f101112131415161718191a1b1c1d1e1fe0e1e2e3e4e5e6e7e8e9eaebecedeeef
";

#[test]
fn the_last_places_of_8_levels_are_replaced(rt: HostRuntime) -> Result<(), Fail> {
    let bytes = digit_bytes();
    let line = Sealed {
        cipher: bytes,
        tag: TAG,
    };
    let cases = [
        ("save", (FIVE, TWO, 0)),
        ("swap data", (ZEROS, TWO, 1)),
        ("swap node", (FIVE, [0; 64], 2)),
        ("restore data", (ZEROS, TWO, 3)),
        ("restore node", (FIVE, [0; 64], 4)),
        ("restoreall of nothing", (ZEROS, [0; 64], 6)),
        ("restoreall of a line", (FIVE, [0; 64], 7)),
        ("put", (line, bytes, 9)),
    ];
    expect_cases(&rt, rt.alloc(), REPLACEMENTS, &cases)
}
