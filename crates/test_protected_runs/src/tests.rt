// Runs of programs of a few words, over buses that tell the truth, that flip a bit of one answer, that refuse one access, or
// that answer what stood there before. Some programs have data in two further segments.
ghost use Rattle.std.specs.Prelude.{◌≡◌, ◌+◌, ◌<◌, ◌≤◌, IfOk, length};
ghost use Rattle.sec_base.specs.Geometry.{one};
ghost use Rattle.sec_base.specs.Image.{IsImage};
ghost use Rattle.sec_base.specs.Place.{stored_size};
ghost use Rattle.sec_base.specs.Segment.{IsSegment};

mod evictions;
mod outcomes;
mod pairs;
mod programs;
mod replay_bus;
mod reports;
mod tampering;
mod turns;
mod want_of_memory;

use bus_model::{Bus, FlipBus, HonestBus};
use chip_run::{RunRecord, Setup, run};
use hmac_tag::{HmacTagger, Keys, derive};
use programs::STORE_FAR_APART;
use sec_base::{
    Bytes, Counter, Ending, Evidence, Geometry, Image, MemorySink, Place, Segment, Segments, Tagger,
};
use std::alloc::{AllocError, Global};
use std::test::Fail;

const LINE_64: Place = Place::Line(64);

// The byte 65 and 63 zeros, enciphered as line 64 under the counters (0, 1) and (0, 2). The key is by Python's hmac
// and hashlib, the four counter blocks are by `openssl enc -aes-128-ecb -nopad` (OpenSSL 3.0.19), mixed with the
// bytes by Python 3.
const CIPHER_65: [u8; 64] = [
    0x4c, 0xf7, 0x97, 0x3e, 0xfe, 0xc1, 0xaf, 0x4d, 0x94, 0x74, 0x28, 0xeb, 0x3b, 0x5c, 0xd6, 0xce,
    0x32, 0xf9, 0x43, 0x1a, 0xb6, 0x8c, 0x40, 0xab, 0xb5, 0xe3, 0x2a, 0x51, 0xb4, 0x1a, 0x7e, 0xad,
    0x51, 0xf4, 0xb6, 0xc5, 0xd8, 0x63, 0x18, 0xc4, 0xee, 0x74, 0xd6, 0x87, 0x85, 0xb4, 0x88, 0x30,
    0xeb, 0x4e, 0xa3, 0x2f, 0x7d, 0x75, 0xc7, 0x53, 0x47, 0x54, 0xe7, 0x1b, 0x1a, 0x0e, 0x90, 0xd4,
];

const CIPHER_65_AGAIN: [u8; 64] = [
    0x90, 0xe0, 0x31, 0x7f, 0x82, 0x96, 0x8a, 0x55, 0x09, 0xc8, 0x62, 0xc5, 0x8b, 0xbc, 0x92, 0x55,
    0xa2, 0xc7, 0xd9, 0xac, 0x78, 0x81, 0x23, 0x4b, 0x0a, 0xe7, 0xcd, 0xdd, 0x7d, 0xb0, 0x85, 0xec,
    0x0c, 0x63, 0x3e, 0x3b, 0x3f, 0x64, 0x79, 0x0c, 0x81, 0x3f, 0xc4, 0x97, 0xf9, 0xb5, 0x47, 0xc1,
    0x72, 0xfc, 0xd5, 0xc6, 0x70, 0xb8, 0x6c, 0x09, 0x77, 0x86, 0xb7, 0x9d, 0x42, 0xba, 0xd3, 0x51,
];

fn code(alloc: Global, words: &[u32]) -> Result<Vec<u8>, AllocError>
    requires { length words.now ≤ 16 }
    ensures { IfOk result (λ bytes. length bytes.items ≤ 64) }
{
    let mut bytes = Vec::new(alloc);
    for word in words {
        bytes.extend_from_slice(&word.to_le_bytes())?;
    }
    Ok(bytes)
}

fn segment(alloc: Global, addr: u32, length: u32, bytes: &[u8]) -> Result<Segment, AllocError>
    ensures addr { IfOk result (λ segment. segment.addr ≡ addr) }
    ensures length { IfOk result (λ segment. segment.length ≡ length) }
    ensures bytes { IfOk result (λ segment. segment.bytes ≡ bytes.now) }
{
    let bytes = Bytes::from_vec(bytes.to_vec(alloc)?);
    Ok(Segment {
        addr,
        length,
        bytes,
    })
}

fn three(
    alloc: Global,
    first: Segment,
    second: Segment,
    third: Segment,
) -> Result<Segments, AllocError>
    requires first { IsSegment 16384 first }
    requires second { IsSegment 16384 second }
    requires third { IsSegment 16384 third }
    ensures { IfOk result (λ segments. IsImage 0 16384 segments) }
{
    let mut items = Vec::new(alloc);
    items.push(first)?;
    items.push(second)?;
    items.push(third)?;
    Ok(Segments::from_vec(items))
}

// The device key that is used where none is given: 00, 01, and so on to 1f.
fn keys() -> Keys {
    let mut device = [0; 32];
    for i in 0..32u8 {
        device[i as usize] = i;
    }
    derive(&device)
}

fn setup(geometry: Geometry, budget: u64, page_limit: u64) -> Setup
    ensures geometry { result.geometry ≡ geometry }
{
    Setup {
        geometry,
        keys: keys(),
        budget,
        page_limit,
        nonce: [0; 16],
    }
}

// The code at 0, and two segments at these addresses.
fn image(
    alloc: Global,
    words: &[u32],
    second: (u32, &[u8]),
    third: (u32, &[u8]),
) -> Result<Image, AllocError>
    requires words { length words.now ≤ 16 }
    requires second { second.0 + 8 ≤ 16384 }
    requires second_bytes { length second.1.now ≤ 8 }
    requires third { third.0 + 4 ≤ 16384 }
    requires third_bytes { length third.1.now ≤ 4 }
    ensures { IfOk result (λ image. image.size ≡ 16384) }
{
    let bytes = code(alloc, words)?;
    let first = segment(alloc, 0, 64, bytes.as_slice())?;
    let second = segment(alloc, second.0, 8, second.1)?;
    let third = segment(alloc, third.0, 4, third.1)?;
    let segments = three(alloc, first, second, third)?;
    Ok(Image {
        entry: 0,
        size: 16384,
        segments,
    })
}

// What is told of a run: how many messages were made, and how many lines were encrypted, among the rest.
#[derive(Clone, Copy)]
struct Told {
    retired: u64,
    ending: Ending,
    evidence: Option<Evidence>,
    made: u64,
    used: u64,
}

impl Told {
    fn of(record: &RunRecord) -> Told {
        Told {
            retired: record.retired,
            ending: record.ending,
            evidence: record.evidence,
            made: record.made.len(),
            used: record.used.len(),
        }
    }
}

// What a program over an honest bus comes to.
fn outcome(
    alloc: Global,
    words: &[u32],
    second: (u32, &[u8]),
    third: (u32, &[u8]),
    budget: u64,
    out: &mut MemorySink,
) -> Result<RunRecord, Fail>
    requires words { length words.now ≤ 16 }
    requires second { second.0 + 8 ≤ 16384 }
    requires second_bytes { length second.1.now ≤ 8 }
    requires third { third.0 + 4 ≤ 16384 }
    requires third_bytes { length third.1.now ≤ 4 }
{
    let image = image(alloc, words, second, third)?;
    let geometry = Geometry::new(1).ok_or("no geometry")?;
    let setup = setup(geometry, budget, u64::MAX);
    let bus = HonestBus::new(alloc, geometry)?;
    let (record, _bus) = run(
        alloc,
        &image,
        &[],
        &setup,
        HmacTagger::new(&setup.keys),
        bus,
        out,
    );
    Ok(record)
}

// The words at 0, and nothing else, in a memory of one level or of four.
fn flat(alloc: Global, words: &[u32]) -> Result<Segments, AllocError>
    requires { length words.now ≤ 16 }
    ensures small { IfOk result (λ segments. IsImage 0 16384 segments) }
    ensures large { IfOk result (λ segments. IsImage 0 1048576 segments) }
{
    let bytes = code(alloc, words)?;
    let length = bytes.len() as u32;
    let mut items = Vec::new(alloc);
    items.push(Segment {
        addr: 0,
        length,
        bytes: Bytes::from_vec(bytes),
    })?;
    Ok(Segments::from_vec(items))
}

// A program of a few words over an honest bus, and the bytes that stand there for line 64 at the end.
fn honest(
    alloc: Global,
    words: &[u32],
    page_limit: u64,
    out: &mut MemorySink,
) -> Result<(RunRecord, [u8; 64]), Fail>
    requires { length words.now ≤ 16 }
{
    let geometry = Geometry::new(1).ok_or("no geometry")?;
    let image = Image {
        entry: 0,
        size: 16384,
        segments: flat(alloc, words)?,
    };
    let setup = setup(geometry, 2000, page_limit);
    let tagger = HmacTagger::new(&setup.keys);
    let bus = HonestBus::new(alloc, geometry)?;
    let (record, mut bus) = run(alloc, &image, &[], &setup, tagger, bus, out);
    let sealed = bus.read_data(64)?;
    Ok((record, sealed.cipher))
}

// The same, where nothing that it prints is looked at.
fn ends(alloc: Global, words: &[u32], page_limit: u64) -> Result<(Told, [u8; 64]), Fail>
    requires { length words.now ≤ 16 }
{
    let mut out = MemorySink::new(alloc, &[])?;
    let (record, outside) = honest(alloc, words, page_limit, &mut out)?;
    Ok((Told::of(&record), outside))
}

// A program of a few words, where the lowest bit of the `k`-th answer of a place is flipped, and how many answers were
// false.
fn flipped<T: Tagger>(
    alloc: Global,
    words: &[u32],
    place: Place,
    k: u64,
    tagger: T,
) -> Result<(Told, u64), Fail>
    requires words { length words.now ≤ 16 }
    requires place { 0 < stored_size (one 1) place }
{
    let geometry = Geometry::new(1).ok_or("no geometry")?;
    let image = Image {
        entry: 0,
        size: 16384,
        segments: flat(alloc, words)?,
    };
    let setup = setup(geometry, 2000, u64::MAX);
    let bus = FlipBus::new(alloc, geometry, place, k, 0, 1)?;
    let mut out = MemorySink::new(alloc, &[])?;
    let (record, bus) = run(alloc, &image, &[], &setup, tagger, bus, &mut out);
    Ok((Told::of(&record), bus.lies()))
}

// The same, under the keys of the device.
fn flipped_under_keys(
    alloc: Global,
    words: &[u32],
    place: Place,
    k: u64,
) -> Result<(Told, u64), Fail>
    requires words { length words.now ≤ 16 }
    requires place { 0 < stored_size (one 1) place }
{
    flipped(alloc, words, place, k, HmacTagger::new(&keys()))
}

// The same of a program whose counter blocks and nodes go out, in a memory of four levels.
fn far_apart<T: Tagger>(
    alloc: Global,
    place: Place,
    k: u64,
    tagger: T,
) -> Result<(RunRecord, u64), Fail>
    requires place { 0 < stored_size (one 4) place }
{
    let geometry = Geometry::new(4).ok_or("no geometry")?;
    let image = Image {
        entry: 0,
        size: 1048576,
        segments: flat(alloc, &STORE_FAR_APART)?,
    };
    let setup = setup(geometry, 2000, u64::MAX);
    let bus = FlipBus::new(alloc, geometry, place, k, 0, 1)?;
    let mut out = MemorySink::new(alloc, &[])?;
    let (record, bus) = run(alloc, &image, &[], &setup, tagger, bus, &mut out);
    Ok((record, bus.lies()))
}

// The counter of a line that was written so often, fewer than 128 times.
fn written(line: u8) -> Counter {
    Counter { page: 0, line }
}
