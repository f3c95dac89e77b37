ghost use Rattle.std.specs.Prelude.{◌<◌, List, ℕ};

use rv32_core::{Calls, Core, Processor, Step, StepStop};
use sec_base::{
    Bytes, Cause, Image, MemStop, MemorySink, Ram, Segment, Segments, Sink, SinkStop, Width,
};
use std::alloc::{AllocError, Global};
use std::test::Fail;

// A memory that keeps its first bytes alone, and of which nothing is claimed.
#[derive(Drop)]
struct FewBytes {
    bytes: [u8; 128],
}

impl FewBytes {
    fn new(word: u32) -> FewBytes {
        let mut bytes = [0; 128];
        bytes[..4].copy_from_slice(&word.to_le_bytes());
        FewBytes { bytes }
    }

    fn byte(&self, at: u32) -> u32
        ensures { result < 256 }
    {
        match self.bytes.get(at as usize) {
            Some(byte) => u32::from(*byte),
            None => 0,
        }
    }

    fn set_byte(&mut self, at: u32, number: u32) {
        if at < 128 {
            self.bytes[at as usize] = (number % 256) as u8;
        }
    }

    fn set_word(&mut self, at: u32, word: u32) {
        let mut place = at;
        for byte in word.to_le_bytes() {
            self.set_byte(place, u32::from(byte));
            place = place.saturating_add(1);
        }
    }
}

impl Ram for FewBytes {
    ghost use Rattle.std.specs.Prelude.{None, replicate};
    ghost use Rattle.std.proofs.lemmas.List.{length-replicate};

    ghost contents = { λ _. replicate 16384 0 };

    ghost extent = { λ _. 16384 };

    ghost sound = { λ _. ⊥ };

    ghost stopped = { λ _. None };

    ghost moved = { λ _ _ _. Unit {0} };

    fn size(&self) -> u32 {
        16_384
    }

    fn load(&mut self, addr: u32, width: Width) -> Result<u32, MemStop> {
        let low = self.byte(addr);
        match width {
            Width::One => Ok(low),
            Width::Two => Ok(low + self.byte(addr + 1) * 0x100),
            Width::Four => {
                let high = self.byte(addr + 2) + self.byte(addr + 3) * 0x100;
                Ok(low + self.byte(addr + 1) * 0x100 + high * 0x1_0000)
            }
        }
    }

    fn store(&mut self, addr: u32, width: Width, value: u32) -> Result<(), MemStop> {
        self.set_byte(addr, value);
        if width != Width::One {
            self.set_byte(addr + 1, value / 0x100);
        }
        if width == Width::Four {
            self.set_byte(addr + 2, value / 0x1_0000);
            self.set_byte(addr + 3, value / 0x100_0000);
        }
        Ok(())
    }

    ghost sized = { λ _. length-replicate {A = ℕ} 16384 0 };

    ghost unmoved = { λ _. tt };

    ghost moved_on = { λ _ _ _ _ _ _ _. tt };
}

// A program of 40 bytes in a memory of 16384.
fn image(alloc: Global) -> Result<Image, AllocError> {
    let mut items = Vec::new(alloc);
    items.push(Segment {
        addr: 0,
        length: 40,
        bytes: Bytes::new(alloc),
    })?;
    Ok(Image {
        entry: 0,
        size: 16_384,
        segments: Segments::from_vec(items),
    })
}

const ECALL: u32 = 0x73;

// A core at 0 that asks for a service with three arguments: it loaded them from address 64 on, and jumped there.
fn asking(calls: &mut Calls, number: u32, first: u32, second: u32, third: u32) -> Core {
    let mut ram = FewBytes::new(0);
    for (at, word) in [
        (16, 0x0400_2883), // lw a7, 64(zero)
        (20, 0x0440_2503), // lw a0, 68(zero)
        (24, 0x0480_2583), // lw a1, 72(zero)
        (28, 0x04c0_2603), // lw a2, 76(zero)
        (32, 0xfe1f_f06f), // jal zero, -32
        (64, number),
        (68, first),
        (72, second),
        (76, third),
    ] {
        ram.set_word(at, word);
    }
    let mut core = Core::new(16, 16_384);
    let mut out = Narrow { left: 0, faults: 0 };
    for _ in 0..5 {
        let _ = core.step(&mut ram, calls, &mut out);
    }
    core
}

#[test]
fn a_core_begins_at_its_entry(rt: HostRuntime) {
    let core = Core::new(8, 16_384);
    assert_eq!(rt; core.pc(), 8);
    for (number, value) in [(0, 0), (1, 0), (2, 16_320), (3, 0), (31, 0)] {
        assert_eq!(rt; core.reg(number), value, "register {number}");
    }
}

#[test]
fn services_answer_in_a0(rt: HostRuntime) -> Result<(), Fail> {
    let rows = [
        (57, 0, 0, 0, 0xffff_ffda),
        (64, 3, 0, 1, 0xffff_fff7), // no output
        (64, 1, 16_382, 3, 0xffff_fff2), // past the end
        (64, 3, 16_382, 3, 0xffff_fff7), // no output, and past the end
        (64, 1, 0xffff_ffff, 0, 0),
        (63, 1, 64, 4, 0xffff_fff7), // no input
        (63, 0, 16_382, 3, 0xffff_fff2),
        (63, 1, 16_382, 3, 0xffff_fff7), // no input, and past the end
        (63, 0, 62, 4, 2), // two bytes are left
        (63, 0, 64, 4, 0),
        (64, 2, 61, 5, 5),
        (214, 0, 0, 0, 48), // below the first break
        (214, 12_288, 0, 0, 12_288),
        (214, 12_289, 0, 0, 12_288), // less than a page is left
    ];
    let mut ram = FewBytes::new(ECALL);
    let mut calls = Calls::new(b"hi", &image(rt.alloc())?);
    let mut out = MemorySink::new(rt.alloc(), &[])?;
    for (number, first, second, third, answer) in rows {
        let mut core = asking(&mut calls, number, first, second, third);
        let step = core.step(&mut ram, &mut calls, &mut out);
        assert_eq!(rt; step, Ok(Step::Retired), "service {number} of {first}");
        assert_eq!(rt; core.reg(10), answer, "service {number} of {first}");
        assert_eq!(rt; core.pc(), 4);
    }
    assert_eq!(rt; out.bytes(), b"\0hi\0\0".as_slice());
    let mut core = asking(&mut calls, 93, 7, 0, 0);
    assert_eq!(rt;
        core.step(&mut ram, &mut calls, &mut out),
        Ok(Step::Halted(7))
    );
    Ok(())
}

// 140 bytes from address 60 on are four pieces: up to 64, two lines, and what is left. The write with this number fails
// after so many bytes.
#[test]
fn pieces_end_at_lines(rt: HostRuntime) -> Result<(), Fail> {
    let mut ram = FewBytes::new(ECALL);
    let mut calls = Calls::new(b"", &image(rt.alloc())?);
    for (fails, printed) in [(1, 0), (2, 4), (3, 68), (4, 132)] {
        let mut out = MemorySink::new(rt.alloc(), &[fails])?;
        let mut core = asking(&mut calls, 64, 1, 60, 140);
        assert_eq!(rt;
            core.step(&mut ram, &mut calls, &mut out),
            Err(StepStop::WriteFault)
        );
        assert_eq!(rt; out.bytes().len(), printed, "write {fails}");
        assert_eq!(rt; (core.pc(), core.reg(10)), (0, 1));
    }
    let mut out = MemorySink::new(rt.alloc(), &[5])?;
    let mut core = asking(&mut calls, 64, 1, 60, 140);
    assert_eq!(rt;
        core.step(&mut ram, &mut calls, &mut out),
        Ok(Step::Retired)
    );
    assert_eq!(rt; out.bytes().len(), 140);
    Ok(())
}

#[test]
fn quotients_at_the_borders(rt: HostRuntime) -> Result<(), Fail> {
    let rows = [
        (0x02c5_c533, 0x8000_0000, 0xffff_ffff, 0x8000_0000), // div a0, a1, a2
        (0x02c5_e533, 0x8000_0000, 0xffff_ffff, 0), // rem a0, a1, a2
        (0x02c5_d533, 5, 0, 0xffff_ffff), // divu a0, a1, a2
        (0x02c5_e533, 5, 0, 5),
    ];
    let mut calls = Calls::new(b"", &image(rt.alloc())?);
    let mut out = MemorySink::new(rt.alloc(), &[])?;
    for (word, a, b, answer) in rows {
        let mut core = asking(&mut calls, 0, 0, a, b);
        let step = core.step(&mut FewBytes::new(word), &mut calls, &mut out);
        assert_eq!(rt; step, Ok(Step::Retired), "{word:08x}");
        assert_eq!(rt; core.reg(10), answer, "{word:08x}");
    }
    Ok(())
}

// The first cause of the order is told, where others hold too; a1 has the address or the target.
#[test]
fn the_first_cause_is_told(rt: HostRuntime) -> Result<(), Fail> {
    let rows = [
        (0x0005_9503, 16_383, Cause::MisalignedData), // lh a0, 0(a1): the last byte is outside too
        (0x0005_a503, 16_382, Cause::MisalignedData), // lw a0, 0(a1)
        (0x0005_a503, 16_384, Cause::OutsideMemory),
        (0x0005_8503, 16_384, Cause::OutsideMemory), // lb a0, 0(a1)
        (0x00c5_9023, 16_385, Cause::MisalignedData), // sh a2, 0(a1)
        (0x00c5_a023, 0xffff_fffe, Cause::MisalignedData), // sw a2, 0(a1)
        (0x00c5_a023, 0xffff_fffc, Cause::OutsideMemory),
        (0x0005_8567, 16_387, Cause::MisalignedTarget), // jalr a0, 0(a1): to 16386, which is outside too
        (0x0010_0073, 0, Cause::Breakpoint), // ebreak
        (0x0020_0073, 0, Cause::Illegal),
    ];
    let mut calls = Calls::new(b"", &image(rt.alloc())?);
    let mut out = MemorySink::new(rt.alloc(), &[])?;
    for (word, address, cause) in rows {
        let mut core = asking(&mut calls, 0, 1, address, 0);
        let step = core.step(&mut FewBytes::new(word), &mut calls, &mut out);
        assert_eq!(rt; step, Err(StepStop::Trap(cause)), "{word:08x}");
        assert_eq!(rt; (core.pc(), core.reg(10)), (0, 1), "{word:08x}");
    }
    Ok(())
}

// The word at 16380 is 0, which is no instruction; nothing is there at 16384.
#[test]
fn a_fetch_outside_is_told_first(rt: HostRuntime) -> Result<(), Fail> {
    let rows = [
        (16_380, Cause::Illegal),
        (16_384, Cause::OutsideMemory),
        (0xffff_fffc, Cause::OutsideMemory),
    ];
    let mut calls = Calls::new(b"", &image(rt.alloc())?);
    let mut out = MemorySink::new(rt.alloc(), &[])?;
    for (pc, cause) in rows {
        let mut core = Core::new(pc, 16_384);
        let step = core.step(&mut FewBytes::new(ECALL), &mut calls, &mut out);
        assert_eq!(rt; step, Err(StepStop::Trap(cause)), "pc {pc:08x}");
        assert_eq!(rt; core.pc(), pc);
    }
    Ok(())
}

// A jump to the end of the memory is retired; what traps is the fetch there.
#[test]
fn a_jump_out_of_the_memory_is_retired(rt: HostRuntime) -> Result<(), Fail> {
    let mut ram = FewBytes::new(0x0005_8567); // jalr a0, 0(a1)
    let mut calls = Calls::new(b"", &image(rt.alloc())?);
    let mut out = MemorySink::new(rt.alloc(), &[])?;
    let mut core = asking(&mut calls, 0, 0, 16_385, 0);
    assert_eq!(rt;
        core.step(&mut ram, &mut calls, &mut out),
        Ok(Step::Retired)
    );
    assert_eq!(rt; (core.pc(), core.reg(10)), (16_384, 4));
    assert_eq!(rt;
        core.step(&mut ram, &mut calls, &mut out),
        Err(StepStop::Trap(Cause::OutsideMemory))
    );
    assert_eq!(rt; (core.pc(), core.reg(10)), (16_384, 4));
    Ok(())
}

// SHA-256 of no bytes, of `A`, `ABCDE`, `ABCDEFGH` and `ABCDEABCDEFGH`, by Python 3.11's hashlib.
const OF_NOTHING: [u8; 32] = [
    0xe3, 0xb0, 0xc4, 0x42, 0x98, 0xfc, 0x1c, 0x14, 0x9a, 0xfb, 0xf4, 0xc8, 0x99, 0x6f, 0xb9, 0x24,
    0x27, 0xae, 0x41, 0xe4, 0x64, 0x9b, 0x93, 0x4c, 0xa4, 0x95, 0x99, 0x1b, 0x78, 0x52, 0xb8, 0x55,
];

const OF_A: [u8; 32] = [
    0x55, 0x9a, 0xea, 0xd0, 0x82, 0x64, 0xd5, 0x79, 0x5d, 0x39, 0x09, 0x71, 0x8c, 0xdd, 0x05, 0xab,
    0xd4, 0x95, 0x72, 0xe8, 0x4f, 0xe5, 0x55, 0x90, 0xee, 0xf3, 0x1a, 0x88, 0xa0, 0x8f, 0xdf, 0xfd,
];

const OF_ABCDE: [u8; 32] = [
    0xf0, 0x39, 0x3f, 0xeb, 0xe8, 0xba, 0xaa, 0x55, 0xe3, 0x2f, 0x7b, 0xe2, 0xa7, 0xcc, 0x18, 0x0b,
    0xf3, 0x4e, 0x52, 0x13, 0x7d, 0x99, 0xe0, 0x56, 0xc8, 0x17, 0xa9, 0xc0, 0x7b, 0x8f, 0x23, 0x9a,
];

const OF_ABCDEFGH: [u8; 32] = [
    0x9a, 0xc2, 0x19, 0x7d, 0x92, 0x58, 0x25, 0x7b, 0x1a, 0xe8, 0x46, 0x3e, 0x42, 0x14, 0xe4, 0xcd,
    0x0a, 0x57, 0x8b, 0xc1, 0x51, 0x7f, 0x24, 0x15, 0x92, 0x8b, 0x91, 0xbe, 0x42, 0x83, 0xfc, 0x48,
];

const OF_BOTH: [u8; 32] = [
    0xd6, 0x79, 0x7d, 0x7e, 0x16, 0xff, 0xbc, 0x4c, 0xec, 0xb2, 0x71, 0x44, 0xc7, 0x44, 0xaf, 0x6b,
    0x6b, 0x27, 0x46, 0x6e, 0xd7, 0xef, 0xcd, 0xea, 0x43, 0x3f, 0xda, 0xdc, 0x0c, 0x91, 0x91, 0x86,
];

// Tells nothing, takes two bytes of a piece at a time, and fails once it took so many.
#[derive(Drop)]
struct Narrow {
    left: usize,
    faults: u64,
}

impl Sink for Narrow {
    ghost use Rattle.std.specs.Prelude.{None};

    ghost state = { λ sink. record { written = None; faults = sink.faults } };

    fn write(&mut self, piece: &[u8]) -> Result<usize, SinkStop> {
        let taken = piece.len().min(2).min(self.left);
        if taken == 0 && !piece.is_empty() {
            self.faults = self.faults.saturating_add(1);
            return Err(SinkStop::Failed);
        }
        self.left -= taken;
        Ok(taken)
    }
}

// A memory with `ABCDEFGH` from address 60 on, of which four bytes are a piece.
fn with_letters() -> FewBytes {
    let mut ram = FewBytes::new(ECALL);
    for i in 0..8u8 {
        ram.set_byte(60 + u32::from(i), 65 + u32::from(i));
    }
    ram
}

#[test]
fn the_digest_is_of_what_the_sink_took(rt: HostRuntime) -> Result<(), Fail> {
    let image = image(rt.alloc())?;
    let rows = [
        (9, 0, Ok(Step::Retired), OF_NOTHING),
        (9, 1, Ok(Step::Retired), OF_A),
        (0, 8, Err(StepStop::WriteFault), OF_NOTHING),
        (1, 8, Err(StepStop::WriteFault), OF_A),
        (5, 8, Err(StepStop::WriteFault), OF_ABCDE),
        (8, 8, Ok(Step::Retired), OF_ABCDEFGH),
    ];
    for (left, count, answer, digest) in rows {
        let mut calls = Calls::new(b"", &image);
        let mut out = Narrow { left, faults: 0 };
        let step = asking(&mut calls, 64, 1, 60, count).step(
            &mut with_letters(),
            &mut calls,
            &mut out,
        );
        assert_eq!(rt; step, answer, "{count} bytes to a sink of {left}");
        assert_eq!(rt; calls.finish(), digest, "{count} bytes to a sink of {left}");
    }
    Ok(())
}

// What was taken before a stop stays in it.
#[test]
fn the_digest_goes_on_after_a_stop(rt: HostRuntime) -> Result<(), Fail> {
    let mut calls = Calls::new(b"", &image(rt.alloc())?);
    let mut ram = with_letters();
    let mut out = Narrow { left: 5, faults: 0 };
    let mut core = asking(&mut calls, 64, 1, 60, 8);
    assert_eq!(rt;
        core.step(&mut ram, &mut calls, &mut out),
        Err(StepStop::WriteFault)
    );
    let mut out = MemorySink::new(rt.alloc(), &[])?;
    assert_eq!(rt;
        core.step(&mut ram, &mut calls, &mut out),
        Ok(Step::Retired)
    );
    assert_eq!(rt; calls.finish(), OF_BOTH);
    Ok(())
}

// Also where they come in pieces, and where the sink fails after a front part.
#[test]
fn the_bytes_that_the_sink_took_are_counted(rt: HostRuntime) -> Result<(), Fail> {
    let mut ram = with_letters();
    let mut calls = Calls::new(b"", &image(rt.alloc())?);
    assert_eq!(rt; calls.printed(), 0);
    let rows = [
        (9, 0, 0),
        (9, 1, 1),
        (0, 8, 1), // it fails at once
        (1, 8, 2),
        (5, 8, 7),
        (8, 8, 15),
    ];
    for (left, count, all) in rows {
        let mut out = Narrow { left, faults: 0 };
        let _ = asking(&mut calls, 64, 1, 60, count).step(&mut ram, &mut calls, &mut out);
        assert_eq!(rt; calls.printed(), all, "{count} bytes to a sink of {left}");
    }
    let mut out = MemorySink::new(rt.alloc(), &[3])?;
    let _ = asking(&mut calls, 64, 3, 60, 8).step(&mut ram, &mut calls, &mut out);
    assert_eq!(rt; calls.printed(), 15, "no output");
    let _ = asking(&mut calls, 64, 1, 60, 140).step(&mut ram, &mut calls, &mut out);
    assert_eq!(rt;
        calls.printed(),
        83,
        "pieces of 4 and 64 bytes, and then a fault"
    );
    Ok(())
}
