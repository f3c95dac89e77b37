// How many accesses the runs of generated programs make. Each number is that of an independent model in Python.
use crate::counted_ram::CountedRam;
use crate::watching_bus::WatchingBus;
use hmac_tag::{HmacTagger, derive};
use rv32_run::{Execution, store_image};
use sec_base::{Ending, Geometry, MemorySink, Ram};
use secure_memory::SecureRam;
use std::alloc::Global;
use std::cell::Cell;
use std::test::Fail;
use workload_gen::make;

// What a run made of the bus: accesses in all, at most in one load, store or fetch, and reads of nodes of level 1, of those that
// were written and of others.
#[derive(Clone, Copy, Debug, PartialEq, Eq)]
struct Made {
    accesses: u64,
    most: u64,
    read_again: u64,
    read_unwritten: u64,
}

// Runs the generated program of a number at four levels, under a device key of zeros.
fn run_counted(alloc: Global, number: u32) -> Result<(Ending, Made), Fail> {
    let image = make(alloc, number)?;
    let geometry = Geometry::new(4).ok_or("no geometry")?;
    let count = Cell::new(0);
    let mut out = MemorySink::new(alloc, &[])?;
    let bus = WatchingBus::new(alloc, geometry, &count)?;
    let keys = derive(&[0; 32]);
    let tagger = HmacTagger::new(&keys);
    let Ok(memory) = SecureRam::boot(alloc, bus, tagger, &keys, geometry, u64::MAX) else {
        return Err(Fail::from("no memory"));
    };
    if memory.size() != image.size || memory.stopped().is_some() {
        return Err(Fail::from("not booted"));
    }
    let mut counted = CountedRam {
        memory,
        accesses: &count,
        most: 0,
    };
    let Ok(()) = store_image(&mut counted, &image) else {
        return Err(Fail::from("not stored"));
    };
    let mut execution = Execution::new(&image, &[], counted, u64::MAX);
    let ending = execution.finish(&mut out);
    let (counted, _calls) = execution.into_parts();
    let most = counted.most;
    let (_account, bus) = counted.memory.finish();
    let made = Made {
        accesses: count.get(),
        most,
        read_again: bus.read_again,
        read_unwritten: bus.read_unwritten,
    };
    Ok((ending, made))
}

// The most that one call makes is an overflow: 64 lines are written, 63 of them and the line that comes in are read. The bound at
// four levels is 252. No node is read that was never written.
#[test]
fn no_call_makes_more_accesses_than_its_bound(rt: HostRuntime) -> Result<(), Fail> {
    let rows = [
        (0, Ending::Halted(3), 2375, 1),
        (1, Ending::Halted(51), 98226, 20),
    ];
    for (number, ending, accesses, read_again) in rows {
        let (ended, made) = run_counted(rt.alloc(), number)?;
        assert_eq!(rt; ended, ending, "number {number}");
        let expected = Made {
            accesses,
            most: 128,
            read_again,
            read_unwritten: 0,
        };
        assert_eq!(rt; made, expected, "number {number}");
    }
    Ok(())
}
