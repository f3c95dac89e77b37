// A bus that is out of memory at one access.
use super::programs::STORE_FAR_APART;
use super::{flat, setup};
use chip_run::run;
use fakes::CountingBus;
use hmac_tag::HmacTagger;
use sec_base::{Ending, Evidence, Geometry, Image, MemorySink};
use std::alloc::Global;
use std::test::Fail;

// How a run ends whose bus refuses this access, and how many instructions it retired: by the rules of the caches, from a model in
// Python. The third store has one access, since a line goes out for it; from the sixth on each store has seven, with a counter
// block and a node that go out and one of each that come in, and so does the load at the end.
fn refused_at(access: u64) -> (Ending, u64) {
    match access {
        0..=1 => (Ending::NoMemory, 7),
        2..=5 => (Ending::NoMemory, 11),
        6..=10 => (Ending::NoMemory, 12),
        11..=17 => (Ending::NoMemory, 13),
        18..=24 => (Ending::NoMemory, 17),
        25..=31 => (Ending::NoMemory, 18),
        32..=38 => (Ending::NoMemory, 19),
        39..=45 => (Ending::NoMemory, 23),
        _ => (Ending::Halted(67), 26),
    }
}

// The accesses in order: w is a write, r a read.
const ACCESSES: &[u8; 45] = b"wwwrrwwwrrwwrrwrrwwrrwrrwwrrwrrwwrrwrrwwrrwrr";

// How many messages are made where this access is refused. One is made before its bytes are written.
fn made_at(access: u64) -> u64 {
    let mut made = 0u64;
    for (at, kind) in ACCESSES.iter().enumerate() {
        if (at as u64) < access && *kind == b'w' {
            made = made.saturating_add(1);
        }
    }
    made
}

// What a run comes to whose bus refuses this access: how it ends, how many instructions it retired, the evidence, whether there
// is a report, and how many messages were made.
type Refused = ((Ending, u64), Option<Evidence>, bool, u64);

fn refused_run(alloc: Global, access: u64) -> Result<Refused, Fail> {
    let geometry = Geometry::new(4).ok_or("no geometry")?;
    let image = Image {
        entry: 0,
        size: 1048576,
        segments: flat(alloc, &STORE_FAR_APART)?,
    };
    let bus = CountingBus::refusing(alloc, geometry, access)?;
    let mut out = MemorySink::new(alloc, &[])?;
    let setup = setup(geometry, 2000, u64::MAX);
    let tagger = HmacTagger::new(&setup.keys);
    let (done, _bus) = run(alloc, &image, &[], &setup, tagger, bus, &mut out);
    Ok((
        (done.ending, done.retired),
        done.evidence,
        done.report.is_some(),
        done.made.len(),
    ))
}

#[test]
fn a_run_ends_where_the_bus_is_out_of_memory(rt: HostRuntime) -> Result<(), Fail> {
    for refused in 1..47u64 {
        let end = refused_run(rt.alloc(), refused)?;
        let expected = (refused_at(refused), None, refused == 46, made_at(refused));
        assert_eq!(rt; end, expected, "access {refused}");
    }
    Ok(())
}
