// A bus that is recorded, over buses that are honest, that lie and that refuse.
ghost use Rattle.std.specs.Prelude.{◌≡◌, IfOk};
ghost use Rattle.sec_base.specs.Geometry.{one};
ghost use Rattle.bus_model.specs.FlipBus.{flip_history};
ghost use Rattle.bus_model.specs.HonestBus.{honest_history};

use bus_model::{Bus, FlipBus, HonestBus};
use bus_trace::{Entry, RecordBus, Trace, parse, write};
use fakes::CountingBus;
use sec_base::{Bytes, Geometry, NoMemory, NoMemoryWith, Place, Sealed};
use std::alloc::Global;
use std::test::Fail;

const ONES: Sealed = Sealed {
    cipher: [1; 64],
    tag: [2; 16],
};

const ZEROS: Sealed = Sealed {
    cipher: [0; 64],
    tag: [0; 16],
};

// The bus, recorded.
fn record<B: Bus + Drop>(alloc: Global, bus: B) -> Result<RecordBus<B>, NoMemory>
    ensures { IfOk result (λ recorded. recorded.bus ≡ bus) }
{
    match RecordBus::new(alloc, bus) {
        Ok(recorded) => Ok(recorded),
        Err(NoMemoryWith(_)) => Err(NoMemory),
    }
}

// A call of each kind, and a read of a place that was never written.
fn make_calls(bus: &mut RecordBus<HonestBus>) -> Result<(Sealed, [u8; 64], Sealed), NoMemory>
    requires { (honest_history bus.old.bus).geometry ≡ one 2 }
    ensures { (honest_history bus.new.bus).geometry ≡ one 2 }
{
    bus.write_data(1023, &ONES)?;
    let sealed = bus.read_data(1023)?;
    bus.write_node(1, 3, &[4; 64])?;
    let block = bus.read_node(1, 3)?;
    let beside = bus.read_data(0)?;
    Ok((sealed, block, beside))
}

// What is kept of them.
const CALLS: [Entry; 5] = [
    Entry::WriteLine {
        line: 1023,
        sealed: ONES,
    },
    Entry::ReadLine {
        line: 1023,
        sealed: ONES,
    },
    Entry::WriteNode {
        level: 1,
        index: 3,
        block: [4; 64],
    },
    Entry::ReadNode {
        level: 1,
        index: 3,
        block: [4; 64],
    },
    Entry::ReadLine {
        line: 0,
        sealed: ZEROS,
    },
];

#[test]
fn calls_are_passed_on_and_kept(rt: HostRuntime) -> Result<(), Fail> {
    let alloc = rt.alloc();
    let geometry = Geometry::new(2).ok_or("no geometry")?;
    let bus = HonestBus::new(alloc, geometry)?;
    let mut recorded = record(alloc, bus)?;
    assert_eq!(rt; make_calls(&mut recorded)?, (ONES, [4; 64], ZEROS));
    let (entries, mut bus) = recorded.finish();
    assert_eq!(rt; entries.as_slice(), CALLS.as_slice());
    assert_eq!(rt; bus.read_data(1023)?, ONES);
    assert_eq!(rt; bus.accesses(), 6);

    let trace = Trace {
        output: Bytes::new(alloc),
        ending: 4,
        code: 0,
        retired: 9,
        entries,
    };
    let file = write(alloc, &trace)?;
    let read = parse(alloc, file.as_slice(), geometry)?;
    assert_eq!(rt; read.entries.as_slice(), CALLS.as_slice());
    Ok(())
}

fn read_twice(bus: &mut RecordBus<FlipBus>) -> Result<[Sealed; 2], NoMemory>
    requires { (flip_history bus.old.bus).geometry ≡ one 2 }
{
    let first = bus.read_data(7)?;
    let second = bus.read_data(7)?;
    Ok([first, second])
}

#[test]
fn a_false_answer_is_kept_as_it_was_given(rt: HostRuntime) -> Result<(), Fail> {
    let alloc = rt.alloc();
    let geometry = Geometry::new(2).ok_or("no geometry")?;
    let bus = FlipBus::new(alloc, geometry, Place::Line(7), 1, 0, 1)?;
    let mut recorded = record(alloc, bus)?;
    let mut flipped = ZEROS;
    flipped.cipher[0] = 1;
    assert_eq!(rt; read_twice(&mut recorded)?, [flipped, ZEROS]);
    let (entries, bus) = recorded.finish();
    let kept = [
        Entry::ReadLine {
            line: 7,
            sealed: flipped,
        },
        Entry::ReadLine {
            line: 7,
            sealed: ZEROS,
        },
    ];
    assert_eq!(rt; entries.as_slice(), kept.as_slice());
    assert_eq!(rt; bus.lies(), 1);
    Ok(())
}

// A write, a read that is refused, and one that isn't.
fn ask_thrice(bus: &mut RecordBus<CountingBus>) -> Result<[u8; 64], NoMemory>
    requires { (flip_history bus.old.bus).geometry ≡ one 2 }
{
    bus.write_node(2, 0, &[5; 64])?;
    match bus.read_node(2, 0) {
        Ok(_) => Ok([0; 64]),
        Err(NoMemory) => bus.read_node(2, 0),
    }
}

#[test]
fn a_refused_call_is_not_kept(rt: HostRuntime) -> Result<(), Fail> {
    let alloc = rt.alloc();
    let geometry = Geometry::new(2).ok_or("no geometry")?;
    let bus = CountingBus::refusing(alloc, geometry, 2)?;
    let mut recorded = record(alloc, bus)?;
    assert_eq!(rt; ask_thrice(&mut recorded)?, [5; 64]);
    let (entries, bus) = recorded.finish();
    let kept = [
        Entry::WriteNode {
            level: 2,
            index: 0,
            block: [5; 64],
        },
        Entry::ReadNode {
            level: 2,
            index: 0,
            block: [5; 64],
        },
    ];
    assert_eq!(rt; entries.as_slice(), kept.as_slice());
    assert_eq!(rt; bus.asked(), 3);
    Ok(())
}
