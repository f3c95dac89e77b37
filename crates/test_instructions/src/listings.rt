// The words are LLVM's for riscv32 with M, and so are their texts but for addresses. The lines were put together by
// hand.
ghost use Rattle.std.specs.Prelude.{◌≡◌, ◌+◌, ◌≤◌, [], IfOk, length};
ghost use Rattle.sec_base.specs.Image.{IsImage};
ghost use Rattle.sec_base.specs.Segment.{IsSegment};

use rv32_listing::write_listing;
use sec_base::{Bytes, Image, MemorySink, Segment, Segments, SinkStop};
use std::alloc::{AllocError, Global};
use std::test::Fail;

// A program that exits with 7.
const EXIT_7: [u8; 12] = [
    0x13, 0x05, 0x70, 0x00, 0x93, 0x08, 0xd0, 0x05, 0x73, 0x00, 0x00, 0x00,
];

// FENCE with the fields of `fence` and with none, and a CSR instruction.
const FENCES: [u8; 12] = [
    0x0f, 0x00, 0xf0, 0x0f, 0x0f, 0x00, 0x00, 0x00, 0x73, 0x10, 0x00, 0x30,
];

// BNE, four bytes back, and two bytes more.
const BACK: [u8; 6] = [0xe3, 0x1e, 0x05, 0xfe, 0x07, 0xff];

fn segment(alloc: Global, addr: u32, size: u32, bytes: &[u8]) -> Result<Segment, AllocError>
    requires bytes { length bytes.now ≤ size }
    requires inside { addr + size ≤ 16384 }
    ensures { IfOk result (IsSegment 16384) }
{
    let bytes = Bytes::from_vec(bytes.to_vec(alloc)?);
    Ok(Segment {
        addr,
        length: size,
        bytes,
    })
}

// Zeros stand behind the first segment's bytes, and the third begins below the second.
fn three(alloc: Global) -> Result<Segments, AllocError>
    ensures { IfOk result (IsImage 0 16384) }
{
    let first = segment(alloc, 0, 20, &EXIT_7)?;
    let second = segment(alloc, 0x1001, 6, &BACK)?;
    let third = segment(alloc, 0x40, 12, &FENCES)?;
    let mut items = Vec::new(alloc);
    items.push(first)?;
    items.push(second)?;
    items.push(third)?;
    Ok(Segments::from_vec(items))
}

// The listing of a program for 16384 bytes, as far as it was written before a call of the sink failed.
fn listed(
    alloc: Global,
    segments: Segments,
    fails: &[u64],
    expected: Result<(), SinkStop>,
) -> Result<MemorySink, Fail>
    requires { IsImage 0 16384 segments }
{
    let image = Image {
        entry: 0,
        size: 16384,
        segments,
    };
    let mut out = MemorySink::new(alloc, fails)?;
    if write_listing(alloc, &image, &mut out) != expected {
        return Err("another answer")?;
    }
    Ok(out)
}

#[test]
fn words_and_bytes_have_lines(rt: HostRuntime) -> Result<(), Fail> {
    let out = listed(rt.alloc(), three(rt.alloc())?, &[], Ok(()))?;
    let expected = b"00000000 00700513 addi a0, zero, 7
00000004 05d00893 addi a7, zero, 93
00000008 00000073 ecall
00001001 fe051ee3 bne a0, zero, 0x00000ffd
00001005 07 .byte 0x07
00001006 ff .byte 0xff
00000040 0ff0000f fence
00000044 0000000f .word 0x0000000f
00000048 30001073 .word 0x30001073
";
    assert_eq!(rt; out.bytes(), expected.as_slice());
    Ok(())
}

#[test]
fn no_segment_has_no_line(rt: HostRuntime) -> Result<(), Fail> {
    let none = Segments::from_vec(Vec::new(rt.alloc()));
    let out = listed(rt.alloc(), none, &[1], Ok(()))?;
    assert!(rt; out.bytes().is_empty());
    Ok(())
}

#[test]
fn a_line_is_one_piece(rt: HostRuntime) -> Result<(), Fail> {
    let out = listed(rt.alloc(), three(rt.alloc())?, &[2], Err(SinkStop::Failed))?;
    assert_eq!(rt;
        out.bytes(),
        b"00000000 00700513 addi a0, zero, 7\n".as_slice()
    );
    Ok(())
}

// The last of nine lines fails once, and isn't tried again.
#[test]
fn a_last_line_that_fails_is_left_out(rt: HostRuntime) -> Result<(), Fail> {
    let whole = listed(rt.alloc(), three(rt.alloc())?, &[], Ok(()))?;
    let out = listed(rt.alloc(), three(rt.alloc())?, &[9], Err(SinkStop::Failed))?;
    let front = whole
        .bytes()
        .strip_suffix(b"00000048 30001073 .word 0x30001073\n")
        .ok_or("another last line")?;
    assert_eq!(rt; out.bytes(), front);
    Ok(())
}
