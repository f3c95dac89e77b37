// The reports of runs on the input `abc` under the nonce 01 02 .. 10. The texts are from Python 3.11: its `struct`,
// `hashlib` and `hmac`.
ghost use Rattle.std.specs.Prelude.{◌<◌, ◌≤◌, length};
ghost use Rattle.sec_base.specs.Geometry.{one};
ghost use Rattle.sec_base.specs.Place.{stored_size};

use super::programs::{EXIT_WITH_65_AGAIN, PRINT_A, PRINT_A_AGAIN, WEAR_LINE_64};
use super::{LINE_64, flat, keys};
use attest_report::write_report2;
use bus_model::FlipBus;
use chip_run::{Setup, run};
use fakes::ZeroTagger;
use hmac_tag::HmacTagger;
use sec_base::{Geometry, Image, MemorySink, Place, Tagger};
use std::alloc::Global;
use std::process::Abort;
use std::test::Fail;

const EBREAK: [u32; 1] = [0x0010_0073];

// A place that no program here reads, so that no answer is false.
const NOWHERE: Place = Place::Line(255);

const HALTED: &[u8; 318] = b"\
    02014187fa751bd71f78b94b3c5cbc470f79b7bee7d8f886544ea79353bb69f47e1e\
    ba7816bf8f01cfea414140de5dae2223b00361a396177a9cb410ff61f20015ad\
    559aead08264d5795d3909718cdd05abd49572e84fe55590eef31a88a08fdffd\
    0a0000000000000000010000000102030405060708090a0b0c0d0e0f10\
    48f7a30d066e9e3cc9229ad63c19f5c58898671cb860b9a16931f61573682019";

const TRAPPED: &[u8; 318] = b"\
    0201fcb372646f92a83df6a2555c25a9036ad2203d9c763da552884da77826d860b5\
    ba7816bf8f01cfea414140de5dae2223b00361a396177a9cb410ff61f20015ad\
    e3b0c44298fc1c149afbf4c8996fb92427ae41e4649b934ca495991b7852b855\
    000000000000000001050000000102030405060708090a0b0c0d0e0f10\
    2800e0419d848b1c917845ffa34958a9c05cd5c1a378acd5eec4cbf19de4bf68";

const OUT_OF_STEPS: &[u8; 318] = b"\
    02014187fa751bd71f78b94b3c5cbc470f79b7bee7d8f886544ea79353bb69f47e1e\
    ba7816bf8f01cfea414140de5dae2223b00361a396177a9cb410ff61f20015ad\
    559aead08264d5795d3909718cdd05abd49572e84fe55590eef31a88a08fdffd\
    090000000000000004000000000102030405060708090a0b0c0d0e0f10\
    46eb13b5505b35e385079e9b6d64f590bdcdec1f63c3fe4ce12afb35cc4deb1b";

const TAMPERED: &[u8; 318] = b"\
    0201698b55760d8e5f66b9952ede72d6e038d02e0e75081421b337d11b491868d3b6\
    ba7816bf8f01cfea414140de5dae2223b00361a396177a9cb410ff61f20015ad\
    559aead08264d5795d3909718cdd05abd49572e84fe55590eef31a88a08fdffd\
    0a0000000000000005000000000102030405060708090a0b0c0d0e0f10\
    e7f0b3ed1235841362a34ddebb1ce8abeaf3d14ff061cbc3f90099881fcc64fb";

const SPENT: &[u8; 318] = b"\
    0201ad7cddc78d019d545d3b9f7243321c2f4becb979c95ff736b06c30abba952a2c\
    ba7816bf8f01cfea414140de5dae2223b00361a396177a9cb410ff61f20015ad\
    e3b0c44298fc1c149afbf4c8996fb92427ae41e4649b934ca495991b7852b855\
    000200000000000006000000000102030405060708090a0b0c0d0e0f10\
    e949c4513e6a189832767df523d55e614b5e5ac832b64aa3d0dd7d08a5e3ebee";

const WITH_EVIDENCE: &[u8; 318] = b"\
    020198b2691784f2982c2e9ec8c657866e6324a6b2dd8822d5c830d13eb3c54514b4\
    ba7816bf8f01cfea414140de5dae2223b00361a396177a9cb410ff61f20015ad\
    e3b0c44298fc1c149afbf4c8996fb92427ae41e4649b934ca495991b7852b855\
    080000000000000000400000000102030405060708090a0b0c0d0e0f10\
    922d3dc601101cc1c607883b8573d3d85405f5d60069a85bfe2be803cbb0d4c8";

// The report of a program of a few words, if there is one. The lowest bit of the `k`-th answer of a place is flipped, and the
// writes with these numbers fail.
fn report<T: Tagger>(
    alloc: Global,
    words: &[u32],
    limits: (u64, u64),
    flip: (Place, u64),
    fails: &[u64],
    tagger: T,
) -> Result<Option<[u8; 159]>, Fail>
    requires words { length words.now ≤ 16 }
    requires place { 0 < stored_size (one 1) flip.0 }
{
    let geometry = Geometry::new(1).ok_or("no geometry")?;
    let image = Image {
        entry: 0,
        size: 16384,
        segments: flat(alloc, words)?,
    };
    let bus = FlipBus::new(alloc, geometry, flip.0, flip.1, 0, 1)?;
    let mut out = MemorySink::new(alloc, fails)?;
    let setup = Setup {
        geometry,
        keys: keys(),
        budget: limits.0,
        page_limit: limits.1,
        nonce: [1, 2, 3, 4, 5, 6, 7, 8, 9, 10, 11, 12, 13, 14, 15, 16],
    };
    let (record, _bus) = run(alloc, &image, b"abc", &setup, tagger, bus, &mut out);
    Ok(record.report)
}

// Under the keys of the device, and with no write that fails, the text of the report is this.
fn reports(
    rt: &impl Abort,
    alloc: Global,
    words: &[u32],
    limits: (u64, u64),
    flip: (Place, u64),
    expected: &[u8],
) -> Result<(), Fail>
    requires words { length words.now ≤ 16 }
    requires place { 0 < stored_size (one 1) flip.0 }
{
    let report = report(alloc, words, limits, flip, &[], HmacTagger::new(&keys()))?;
    let bytes = report.ok_or("no report")?;
    let text = write_report2(alloc, &bytes).ok().ok_or("no memory")?;
    let text = text.into_vec();
    assert_eq!(rt; text.as_slice(), expected);
    Ok(())
}

#[test]
fn a_report_tells_how_the_program_ended(rt: HostRuntime) -> Result<(), Fail> {
    let alloc = rt.alloc();
    reports(&rt, alloc, &PRINT_A, (2000, 0), (NOWHERE, 1), HALTED)?;
    reports(&rt, alloc, &PRINT_A, (9, 0), (NOWHERE, 1), OUT_OF_STEPS)?;
    reports(&rt, alloc, &EBREAK, (2000, 0), (NOWHERE, 1), TRAPPED)
}

// The first answer for line 64 is that of the second print.
#[test]
fn a_report_tells_how_the_memory_stopped(rt: HostRuntime) -> Result<(), Fail> {
    let alloc = rt.alloc();
    reports(
        &rt,
        alloc,
        &PRINT_A_AGAIN,
        (2000, 0),
        (LINE_64, 1),
        TAMPERED,
    )?;
    reports(&rt, alloc, &WEAR_LINE_64, (2000, 0), (NOWHERE, 1), SPENT)
}

#[test]
fn a_report_knows_of_no_evidence(rt: HostRuntime) -> Result<(), Fail> {
    let alloc = rt.alloc();
    let flip = (LINE_64, 1);
    let report = report(alloc, &EXIT_WITH_65_AGAIN, (2000, 0), flip, &[], ZeroTagger)?;
    let bytes = report.ok_or("no report")?;
    let text = write_report2(alloc, &bytes).ok().ok_or("no memory")?;
    let text = text.into_vec();
    assert_eq!(rt; text.as_slice(), WITH_EVIDENCE.as_slice());
    Ok(())
}

#[test]
fn a_write_fault_makes_no_report(rt: HostRuntime) -> Result<(), Fail> {
    let tagger = HmacTagger::new(&keys());
    let report = report(rt.alloc(), &PRINT_A, (2000, 0), (NOWHERE, 1), &[1], tagger)?;
    assert!(rt; report.is_none());
    Ok(())
}
