// Two programs that share the core.
use super::programs::PRINT_8;
use super::{LINE_64, image, setup};
use bus_model::FlipBus;
use chip_run::{PairRecord, RunRecord, Side, SideStop, run, run_pair};
use hmac_tag::HmacTagger;
use sec_base::{Ending, Geometry, MemStop, MemorySink, Place};
use std::alloc::Global;
use std::test::Fail;
use turn_order::check_order;

// A program twice, in this order of turns: the first answer for a line of the second one's memory is false. Line 255 is never
// read, so nothing is false in the first one's.
fn one_is_attacked(
    alloc: Global,
    order: &[u8],
    out1: &mut MemorySink,
    out2: &mut MemorySink,
) -> Result<PairRecord, Fail> {
    let geometry = Geometry::new(1).ok_or("no geometry")?;
    let image = image(alloc, &PRINT_8, (0x0ffc, b"ABCDEFGH"), (0x2000, &[]))?;
    let setup = setup(geometry, 99, u64::MAX);
    let bus1 = FlipBus::new(alloc, geometry, Place::Line(255), 1, 0, 1)?;
    let bus2 = FlipBus::new(alloc, geometry, LINE_64, 1, 0, 1)?;
    let Ok(()) = check_order(order) else {
        return Err("no order".into());
    };
    let first = Side {
        image: &image,
        input: &[],
        setup: &setup,
        tagger: HmacTagger::new(&setup.keys),
        bus: bus1,
    };
    let second = Side {
        image: &image,
        input: &[],
        setup: &setup,
        tagger: HmacTagger::new(&setup.keys),
        bus: bus2,
    };
    let (record, _bus1, _bus2) = run_pair(alloc, first, second, order, out1, out2);
    Ok(record)
}

// The second one's run by itself.
fn attacked_alone(alloc: Global, out: &mut MemorySink) -> Result<RunRecord, Fail> {
    let geometry = Geometry::new(1).ok_or("no geometry")?;
    let image = image(alloc, &PRINT_8, (0x0ffc, b"ABCDEFGH"), (0x2000, &[]))?;
    let setup = setup(geometry, 99, u64::MAX);
    let bus = FlipBus::new(alloc, geometry, LINE_64, 1, 0, 1)?;
    let tagger = HmacTagger::new(&setup.keys);
    let (record, _bus) = run(alloc, &image, &[], &setup, tagger, bus, out);
    Ok(record)
}

#[test]
fn an_attack_on_one_is_not_noticed_by_the_other(rt: HostRuntime) -> Result<(), Fail> {
    let alloc = rt.alloc();
    let mut alone_out = MemorySink::new(alloc, &[])?;
    let alone = attacked_alone(alloc, &mut alone_out)?;
    let orders: [&[u8]; 4] = [&[], &[1], &[0, 0, 1], &[0]];
    for order in orders {
        let mut out1 = MemorySink::new(alloc, &[])?;
        let mut out2 = MemorySink::new(alloc, &[])?;
        let pair = one_is_attacked(alloc, order, &mut out1, &mut out2)?;
        assert_eq!(rt;
            (pair.first.ending, pair.first_stop),
            (Ending::Halted(8), None)
        );
        assert_eq!(rt; out1.bytes(), b"ABCDEFGH".as_slice());
        assert_eq!(rt; pair.second.ending, Ending::Tampered(LINE_64));
        assert_eq!(rt;
            pair.second_stop,
            Some(SideStop {
                turn: alone.retired,
                printed: 4,
                stop: MemStop::Tampered(LINE_64)
            })
        );
        assert_eq!(rt; out2.bytes(), b"ABCD".as_slice());
    }
    Ok(())
}
