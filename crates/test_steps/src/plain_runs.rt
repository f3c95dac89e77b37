// Programs of a few words at 0, which were put together by hand from the RISC-V unprivileged manual.
ghost use Rattle.std.specs.Prelude.{◌≡◌, IfOk, length};
ghost use Rattle.sec_base.specs.Image.{IsImage};

use plain_machine::{FlatRam, PlainRecord, run};
use sec_base::{Bytes, Cause, Ending, Image, MemorySink, Ram, Segment, Segments, Width};
use std::alloc::{AllocError, Global};
use std::test::Fail;

type Words = [u32; 10];

// Exits with 7.
const EXIT_7: Words = [0x0070_0513, 0x05d0_0893, 0x0000_0073, 0, 0, 0, 0, 0, 0, 0];

// Stores 65 at 0x1000, loads it, and exits with it.
const EXIT_65: Words = [
    0x0000_12b7,
    0x0410_0313,
    0x0062_a023,
    0x0002_a503,
    0x05d0_0893,
    0x0000_0073,
    0,
    0,
    0,
    0,
];

// Stores 65 at 0x1000, prints that byte, and exits with 1.
const PRINT_A: Words = [
    0x0000_12b7,
    0x0410_0313,
    0x0062_a023,
    0x0010_0513,
    0x0002_8593,
    0x0010_0613,
    0x0400_0893,
    0x0000_0073,
    0x05d0_0893,
    0x0000_0073,
];

// Loads the word at 0x4000, where the memory ends.
const LOAD_OUTSIDE: Words = [0x0000_42b7, 0x0002_a503, 0, 0, 0, 0, 0, 0, 0, 0];

// Goes on into a word that is no instruction.
const NO_INSTRUCTION: Words = [0x0070_0513, 0, 0, 0, 0, 0, 0, 0, 0, 0];

fn code(alloc: Global, words: &Words) -> Result<Vec<u8>, AllocError>
    ensures { IfOk result (λ bytes. length bytes.items ≡ 40) }
{
    let mut bytes = Vec::new(alloc);
    for word in words {
        bytes.extend_from_slice(&word.to_le_bytes())?;
    }
    Ok(bytes)
}

fn segments(alloc: Global, words: &Words) -> Result<Segments, AllocError>
    ensures { IfOk result (λ segments. IsImage 0 16384 segments) }
{
    let bytes = code(alloc, words)?;
    let mut items = Vec::new(alloc);
    items.push(Segment {
        addr: 0,
        length: 40,
        bytes: Bytes::from_vec(bytes),
    })?;
    Ok(Segments::from_vec(items))
}

fn ran(
    alloc: Global,
    words: &Words,
    budget: u64,
    out: &mut MemorySink,
) -> Result<PlainRecord, AllocError> {
    let image = Image {
        entry: 0,
        size: 16384,
        segments: segments(alloc, words)?,
    };
    Ok(run(alloc, &image, &[], budget, out))
}

#[test]
fn a_memory_has_numbers_of_each_width(rt: HostRuntime) -> Result<(), Fail> {
    let mut memory = FlatRam::new(rt.alloc(), 16_384)?;
    assert_eq!(rt; memory.size(), 16_384);
    assert_eq!(rt; memory.store(8, Width::Four, 0x0403_0201), Ok(()));
    assert_eq!(rt; memory.store(14, Width::Two, 0xffff_0605), Ok(()));
    assert_eq!(rt; memory.store(13, Width::One, 0x0107), Ok(()));
    assert_eq!(rt; memory.load(8, Width::Four), Ok(0x0403_0201));
    assert_eq!(rt; memory.load(10, Width::Two), Ok(0x0403));
    assert_eq!(rt; memory.load(9, Width::One), Ok(2));
    assert_eq!(rt; memory.load(12, Width::Four), Ok(0x0605_0700));
    assert_eq!(rt; memory.load(16_380, Width::Four), Ok(0));
    Ok(())
}

#[test]
fn a_run_ends_as_its_program_does(rt: HostRuntime) -> Result<(), Fail> {
    let outside = Ending::Trapped {
        cause: Cause::OutsideMemory,
        pc: 4,
    };
    let illegal = Ending::Trapped {
        cause: Cause::Illegal,
        pc: 4,
    };
    let rows: [(&Words, u64, u64, Ending); 7] = [
        (&EXIT_7, 0, 0, Ending::OutOfSteps),
        (&EXIT_7, 2, 2, Ending::OutOfSteps),
        (&EXIT_7, 3, 3, Ending::Halted(7)),
        (&EXIT_65, 99, 6, Ending::Halted(65)),
        (&LOAD_OUTSIDE, 1, 1, Ending::OutOfSteps),
        (&LOAD_OUTSIDE, 2, 1, outside),
        (&NO_INSTRUCTION, 99, 1, illegal),
    ];
    for (words, budget, retired, ending) in rows {
        let mut out = MemorySink::new(rt.alloc(), &[])?;
        let done = ran(rt.alloc(), words, budget, &mut out)?;
        assert_eq!(rt; done.retired, retired, "budget {budget}");
        assert_eq!(rt; done.ending, ending, "budget {budget}");
    }
    Ok(())
}

#[test]
fn what_a_program_prints_is_written(rt: HostRuntime) -> Result<(), Fail> {
    let rows: [(&[u64], &[u8], u64, Ending); 2] = [
        (&[], b"A", 10, Ending::Halted(1)),
        (&[1], b"", 7, Ending::WriteFault),
    ];
    for (fails, printed, retired, ending) in rows {
        let mut out = MemorySink::new(rt.alloc(), fails)?;
        let done = ran(rt.alloc(), &PRINT_A, 99, &mut out)?;
        assert_eq!(rt; out.bytes(), printed);
        assert_eq!(rt; done.retired, retired);
        assert_eq!(rt; done.ending, ending);
    }
    Ok(())
}
