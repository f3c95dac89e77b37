// Runs in single turns, and stops that are kept for the first turn.
ghost use Rattle.std.specs.Prelude.{◌≡◌, ◌≢◌, ◌<◌, IfOk, None};
ghost use Rattle.sec_base.specs.Geometry.{memory_size, one};
ghost use Rattle.sec_base.specs.Place.{stored_size};
ghost use Rattle.bus_model.specs.BusHistory.{NothingWritten};

use super::programs::{EXIT_7, PRINT_8};
use super::{LINE_64, code, image, segment, setup, three};
use bus_model::{Bus, FlipBus};
use chip_run::{RunRecord, Session, Setup, run};
use fakes::CountingBus;
use hmac_tag::HmacTagger;
use sec_base::{Ending, Geometry, Image, MemorySink, Place, Tagger};
use std::alloc::{AllocError, Global};
use std::process::Abort;
use std::test::Fail;

// All turns up to the one that ends the run.
fn to_end<B: Bus, T: Tagger>(session: &mut Session<B, T>, out: &mut MemorySink) -> Ending
    ensures { session.new.ended ≢ None }
{
    loop {
        if let Some(ending) = session.turn(out) {
            return ending;
        }
    }
}

// The record of a run in turns, with the ending that its last turn answered, and that of a turn after that.
type InTurns = (RunRecord, Ending, Option<Ending>);

fn in_turns<B: Bus + Drop, T: Tagger>(
    alloc: Global,
    image: &Image,
    setup: &Setup,
    tagger: T,
    bus: B,
    out: &mut MemorySink,
) -> Result<InTurns, Fail>
    requires size { image.now.size ≡ memory_size setup.now.geometry }
    requires geometry { (B.history bus).geometry ≡ setup.now.geometry }
    requires no_lie { (B.history bus).lies ≡ 0 }
    requires nothing_written { NothingWritten (B.history bus) }
{
    match Session::boot(alloc, image, &[], setup, tagger, bus) {
        Ok(mut session) => {
            let ending = to_end(&mut session, out);
            let again = session.turn(out);
            let (record, _bus) = session.finish();
            Ok((record, ending, again))
        }
        Err(_) => Err("no memory".into()),
    }
}

fn check_same(rt: &impl Abort, turns: &RunRecord, whole: &RunRecord) {
    assert_eq!(rt;
        (turns.retired, turns.ending),
        (whole.retired, whole.ending)
    );
    assert_eq!(rt; turns.evidence, whole.evidence);
    assert_eq!(rt; turns.made.as_slice(), whole.made.as_slice());
    assert_eq!(rt; turns.used.as_slice(), whole.used.as_slice());
    assert_eq!(rt; turns.report, whole.report);
}

// A program that prints, over a bus whose first answer for this place is false, in turns and as a whole.
fn both_ways(
    alloc: Global,
    place: Place,
    budget: u64,
    out: &mut MemorySink,
    whole_out: &mut MemorySink,
) -> Result<(InTurns, RunRecord), Fail>
    requires { 0 < stored_size (one 1) place }
{
    let geometry = Geometry::new(1).ok_or("no geometry")?;
    let image = image(alloc, &PRINT_8, (0x0ffc, b"ABCDEFGH"), (0x2000, &[]))?;
    let setup = setup(geometry, budget, u64::MAX);
    let bus = FlipBus::new(alloc, geometry, place, 1, 0, 1)?;
    let turns = in_turns(
        alloc,
        &image,
        &setup,
        HmacTagger::new(&setup.keys),
        bus,
        out,
    )?;
    let bus = FlipBus::new(alloc, geometry, place, 1, 0, 1)?;
    let tagger = HmacTagger::new(&setup.keys);
    let (whole, _bus) = run(alloc, &image, &[], &setup, tagger, bus, whole_out);
    Ok((turns, whole))
}

// Line 255 is never read, so nothing is false there.
#[test]
fn turns_come_to_what_a_run_comes_to(rt: HostRuntime) -> Result<(), Fail> {
    let alloc = rt.alloc();
    let rows: [(Place, u64, Ending, &[u8]); 5] = [
        (Place::Line(255), 99, Ending::Halted(8), b"ABCDEFGH"),
        (Place::Line(255), 8, Ending::Halted(8), b"ABCDEFGH"),
        (Place::Line(255), 7, Ending::OutOfSteps, b"ABCDEFGH"),
        (Place::Line(255), 0, Ending::OutOfSteps, b""),
        (LINE_64, 99, Ending::Tampered(LINE_64), b"ABCD"),
    ];
    for (place, budget, ending, printed) in rows {
        let mut out = MemorySink::new(alloc, &[])?;
        let mut whole_out = MemorySink::new(alloc, &[])?;
        let (turns, whole) = both_ways(alloc, place, budget, &mut out, &mut whole_out)?;
        let (record, last, again) = turns;
        check_same(&rt, &record, &whole);
        assert_eq!(rt;
            (record.ending, last, again),
            (ending, ending, Some(ending))
        );
        assert_eq!(rt; out.bytes(), printed);
        assert_eq!(rt; whole_out.bytes(), printed);
    }
    Ok(())
}

// Its first segment reaches from line 0 to line 128, so line 0 goes out for line 128 while it is stored, and comes in again
// for the second one.
fn stores_line_0_again(alloc: Global) -> Result<Image, AllocError>
    ensures { IfOk result (λ image. image.size ≡ 16384) }
{
    let bytes = code(alloc, &EXIT_7)?;
    let first = segment(alloc, 0, 8256, bytes.as_slice())?;
    let second = segment(alloc, 0, 8, b"ABCDEFGH")?;
    let third = segment(alloc, 0x2000, 4, &[])?;
    let segments = three(alloc, first, second, third)?;
    Ok(Image {
        entry: 0,
        size: 16384,
        segments,
    })
}

// What such a program comes to over a bus whose first answer for line 0 is false.
fn tampered_while_stored(
    alloc: Global,
    budget: u64,
    out: &mut MemorySink,
) -> Result<InTurns, Fail> {
    let geometry = Geometry::new(1).ok_or("no geometry")?;
    let image = stores_line_0_again(alloc)?;
    let setup = setup(geometry, budget, u64::MAX);
    let bus = FlipBus::new(alloc, geometry, Place::Line(0), 1, 0, 1)?;
    in_turns(
        alloc,
        &image,
        &setup,
        HmacTagger::new(&setup.keys),
        bus,
        out,
    )
}

// And over one that is out of memory at its first access.
fn refused_while_stored(alloc: Global, budget: u64, out: &mut MemorySink) -> Result<InTurns, Fail> {
    let geometry = Geometry::new(1).ok_or("no geometry")?;
    let image = stores_line_0_again(alloc)?;
    let setup = setup(geometry, budget, u64::MAX);
    let bus = CountingBus::refusing(alloc, geometry, 1)?;
    in_turns(
        alloc,
        &image,
        &setup,
        HmacTagger::new(&setup.keys),
        bus,
        out,
    )
}

fn check_kept(rt: &impl Abort, turns: &InTurns, ending: Ending, reported: bool) {
    let (record, last, again) = turns;
    assert_eq!(rt;
        (record.ending, *last, *again),
        (ending, ending, Some(ending))
    );
    assert_eq!(rt; (record.retired, record.report.is_some()), (0, reported));
}

// The stop comes before the end of the budget.
#[test]
fn a_stop_while_the_image_is_stored_is_kept(rt: HostRuntime) -> Result<(), Fail> {
    for budget in [0, 1, 99] {
        let mut out = MemorySink::new(rt.alloc(), &[])?;
        let turns = tampered_while_stored(rt.alloc(), budget, &mut out)?;
        check_kept(&rt, &turns, Ending::Tampered(Place::Line(0)), true);
        let turns = refused_while_stored(rt.alloc(), budget, &mut out)?;
        check_kept(&rt, &turns, Ending::NoMemory, false);
        assert_eq!(rt; out.bytes(), b"".as_slice());
    }
    Ok(())
}
