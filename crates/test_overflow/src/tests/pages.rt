// The end of a line's counter: its page is encrypted anew, or the line is spent.
ghost use Rattle.std.specs.Prelude.{◌<◌};

use page_cases::{Memory, SomeBytes, booted, flipped, honest, once};
use sec_base::{Counter, MemStop, Message, Place};
use std::alloc::{AllocError, Global};
use std::process::Abort;
use std::test::Fail;

// The entries of a line that is written up to the end of its counter.
fn add_line(entries: &mut Vec<(u32, Counter)>, line: u32, page: u64) -> Result<(), AllocError> {
    for count in 1..=127u8 {
        entries.push((line, Counter { page, line: count }))?;
    }
    Ok(())
}

// The entries of a page that is encrypted anew, by its first line.
fn add_page(entries: &mut Vec<(u32, Counter)>, first: u32, page: u64) -> Result<(), AllocError>
    requires { first < 256 }
{
    for at in 0..64u32 {
        entries.push((first + at, Counter { page, line: 0 }))?;
    }
    Ok(())
}

// A line's 128th write encrypts its page: the lines from the first one on.
#[test]
fn a_page_is_encrypted_in_the_order_of_its_places(rt: HostRuntime) -> Result<(), Fail> {
    for (line, first) in [(5, 0), (64, 64), (255, 192)] {
        let mut memory = honest(rt.alloc(), u64::MAX)?;
        assert_eq!(rt; memory.wear(line, 128, 1), Ok(()), "line {line}");
        let (account, _bus) = memory.finish();
        let mut wanted = Vec::new(rt.alloc());
        add_line(&mut wanted, line, 0)?;
        add_page(&mut wanted, first, 1)?;
        assert_eq!(rt; wanted.len(), 191, "line {line}");
        assert_eq!(rt; account.used.as_slice(), wanted.as_slice(), "line {line}");
        assert_eq!(rt; account.made.len(), 191, "line {line}");
        assert_eq!(rt; account.evidence, None, "line {line}");
    }
    Ok(())
}

// Line 6 is zeros: without an access while its page counter is 0, and then by a read of its place, where a bit is
// flipped that the tag leaves out.
#[test]
fn a_line_that_was_never_written_is_read_once_its_page_was_encrypted(
    rt: HostRuntime,
) -> Result<(), Fail> {
    let mut flip = [0; 64];
    flip[2] = 1;
    for (k, first, second) in [
        (1, flip, [0; 64]),
        (2, [0; 64], flip),
        (3, [0; 64], [0; 64]),
    ] {
        let mut memory = flipped(rt.alloc(), u64::MAX, 6, k, 2)?;
        assert_eq!(rt; memory.read(6), Ok([0; 64]), "read {k}");
        assert_eq!(rt; memory.wear(5, 127, 1), Ok(()), "read {k}");
        assert_eq!(rt; memory.read(6), Ok([0; 64]), "read {k}");
        assert_eq!(rt; memory.fill(5, 2), Ok(()), "read {k}");
        assert_eq!(rt; memory.read(6), Ok(first), "read {k}");
        assert_eq!(rt; memory.read(6), Ok(second), "read {k}");
        let (account, bus) = memory.finish();
        assert_eq!(rt; account.used.len(), 191, "read {k}");
        assert_eq!(rt; account.evidence.is_some(), k < 3, "read {k}");
        assert_eq!(rt; bus.lies() == 1, k < 3, "read {k}");
    }
    Ok(())
}

// Lines that are 64 times the bytes 14, 128 and 0, under the key of bytes 7 and the counter (1, 0): the four counter
// blocks of each by Python's `cryptography` 48.0.0 (AES, ECB), mixed with the bytes by Python 3.11.
const CIPHER_4: [u8; 64] = [
    0xa6, 0x42, 0x2c, 0xd2, 0x94, 0xa3, 0x73, 0x6e, 0xbe, 0x88, 0x66, 0x07, 0x8b, 0x71, 0x5e, 0xea,
    0xce, 0x08, 0x29, 0xce, 0x2c, 0xc5, 0x16, 0x99, 0xed, 0xf7, 0x23, 0xec, 0x0c, 0x7b, 0xca, 0x6b,
    0xa1, 0x21, 0x03, 0xbc, 0x64, 0x1c, 0xe1, 0xaf, 0xa0, 0xe1, 0x99, 0x34, 0xb6, 0xb0, 0x08, 0x08,
    0x6a, 0x3c, 0xd5, 0x36, 0x8a, 0x0e, 0x8d, 0xe0, 0x5f, 0xfa, 0xe0, 0x1e, 0xbc, 0x74, 0x55, 0x1f,
];

const CIPHER_5: [u8; 64] = [
    0x20, 0x02, 0xb4, 0xa2, 0xcd, 0x81, 0x92, 0x35, 0x1d, 0x2a, 0x0d, 0x76, 0x63, 0x08, 0x30, 0xac,
    0x28, 0xc3, 0xea, 0xe6, 0x87, 0x46, 0xe3, 0x03, 0xbe, 0x68, 0x13, 0x3c, 0x53, 0x17, 0x2d, 0x96,
    0xb2, 0x17, 0x1c, 0x74, 0xab, 0x41, 0x40, 0x41, 0x41, 0xb7, 0x23, 0x75, 0xac, 0x21, 0x0f, 0xce,
    0x0c, 0x72, 0x7a, 0x10, 0xcf, 0xb3, 0x64, 0xd5, 0xc8, 0x67, 0xa3, 0x26, 0x39, 0x85, 0x9a, 0x58,
];

const CIPHER_6: [u8; 64] = [
    0x78, 0xfd, 0x08, 0x29, 0xbb, 0x43, 0xb5, 0xcf, 0xab, 0xe5, 0xcd, 0x77, 0xbf, 0xf1, 0x78, 0x3d,
    0x71, 0x1d, 0xc0, 0x93, 0x4f, 0x57, 0xe6, 0x0c, 0xf6, 0x07, 0x7c, 0xa0, 0xe8, 0x5f, 0xd3, 0xdb,
    0x1e, 0x74, 0xb6, 0x75, 0xb3, 0xef, 0xbc, 0x8e, 0xdc, 0x6e, 0x9a, 0x5c, 0x51, 0x77, 0x24, 0xc6,
    0x3c, 0x5f, 0x10, 0x08, 0x60, 0x04, 0x8f, 0xc2, 0xb3, 0x9b, 0x54, 0xe6, 0xc3, 0xe9, 0x9c, 0xcf,
];

// Line 4 was written before, line 5 is written, and line 6 never was.
#[test]
fn a_page_is_encrypted_under_its_new_counter(rt: HostRuntime) -> Result<(), Fail> {
    let mut memory = honest(rt.alloc(), u64::MAX)?;
    assert_eq!(rt; memory.fill(4, 14), Ok(()));
    assert_eq!(rt; memory.wear(5, 127, 1), Ok(()));
    assert_eq!(rt; memory.fill(5, 128), Ok(()));
    let (account, _bus) = memory.finish();
    for (line, cipher) in [(4, CIPHER_4), (5, CIPHER_5), (6, CIPHER_6)] {
        let counter = Counter { page: 1, line: 0 };
        let wanted = Message::Line {
            line,
            counter,
            cipher,
        };
        assert_eq!(rt;
            account.made.get(128 + u64::from(line)),
            Some(wanted),
            "line {line}"
        );
    }
    Ok(())
}

// Lines of the first page and the first of the next, where line 5 is written again and again.
fn held(line: u32, worn: u8) -> u8 {
    match line {
        0 => 10,
        4 => 14,
        5 => worn,
        6 => 16,
        63 => 73,
        64 => 74,
        _ => 0,
    }
}

fn assert_all_held(rt: &impl Abort, memory: &mut Memory<SomeBytes>, worn: u8) {
    for line in 0..128u32 {
        let wanted = [held(line, worn); 64];
        assert_eq!(rt;
            memory.read(line),
            Ok(wanted),
            "line {line} where {worn} was written last"
        );
    }
}

#[test]
fn a_page_that_is_worn_out_again_and_again_keeps_its_lines(rt: HostRuntime) -> Result<(), Fail> {
    let mut memory = honest(rt.alloc(), 2)?;
    let mut wanted = Vec::new(rt.alloc());
    for line in [0, 4, 6, 63, 64] {
        assert_eq!(rt; memory.fill(line, held(line, 0)), Ok(()), "line {line}");
        wanted.push(once(line))?;
    }
    let spent = Err(MemStop::Spent(0));
    let rows = [
        (0, 21, 31, Ok(()), 31),
        (1, 22, 32, Ok(()), 32),
        (2, 23, 33, spent, 23),
    ];
    for (page, byte, last, answer, worn) in rows {
        assert_eq!(rt; memory.wear(5, 127, byte), Ok(()), "page counter {page}");
        assert_all_held(&rt, &mut memory, byte);
        assert_eq!(rt; memory.fill(5, last), answer, "page counter {page}");
        assert_all_held(&rt, &mut memory, worn);
        add_line(&mut wanted, 5, page)?;
        if page < 2 {
            add_page(&mut wanted, 0, page + 1)?;
        }
    }
    assert_eq!(rt; memory.lines.stopped(), spent.err());
    let (account, _bus) = memory.finish();
    assert_eq!(rt; wanted.len(), 514);
    assert_eq!(rt; account.used.as_slice(), wanted.as_slice());
    assert_eq!(rt; account.made.len(), 514);
    assert_eq!(rt; account.evidence, None);
    Ok(())
}

// The other lines of its page and those of other pages serve on.
#[test]
fn a_line_that_is_spent_leaves_others(rt: HostRuntime) -> Result<(), Fail> {
    let spent = Err(MemStop::Spent(0));
    let mut memory = honest(rt.alloc(), 0)?;
    assert_eq!(rt; memory.wear(5, 127, 1), Ok(()));
    assert_eq!(rt; memory.fill(5, 2), spent);
    assert_eq!(rt; memory.fill(5, 2), spent);
    assert_eq!(rt; memory.read(5), Ok([1; 64]));
    assert_eq!(rt; memory.read(6), Ok([0; 64]));
    assert_eq!(rt; memory.lines.stopped(), spent.err());
    assert_eq!(rt; memory.fill(6, 3), Ok(()));
    assert_eq!(rt; memory.fill(64, 4), Ok(()));
    assert_eq!(rt; memory.read(6), Ok([3; 64]));
    assert_eq!(rt; memory.read(64), Ok([4; 64]));
    assert_eq!(rt; memory.fill(5, 2), spent);
    let (account, _bus) = memory.finish();
    let mut wanted = Vec::new(rt.alloc());
    add_line(&mut wanted, 5, 0)?;
    assert_eq!(rt; wanted.len(), 127);
    wanted.push(once(6))?;
    wanted.push(once(64))?;
    assert_eq!(rt; account.used.as_slice(), wanted.as_slice());
    Ok(())
}

// All lines of a page were written once, and the one at place 5 up to the end of its counter: 64 and 126 entries behind
// that of line 0.
fn worn_page(
    rt: &impl Abort,
    alloc: Global,
    levels: u8,
    first: u32,
    page_limit: u64,
) -> Result<Memory<SomeBytes>, Fail>
    requires { first < 262144 }
{
    let mut memory = booted(alloc, SomeBytes, levels, page_limit, Place::Line(0), 0, 0)?;
    assert_eq!(rt; memory.fill(0, 100), Ok(()), "levels {levels}");
    for at in 0..64u8 {
        let line = first + u32::from(at);
        assert_eq!(rt; memory.fill(line, at + 1), Ok(()), "line {line}");
    }
    let worn = memory.wear(first + 5, 126, 6);
    assert_eq!(rt; worn, Ok(()), "levels {levels}");
    Ok(memory)
}

// Each line of that page holds the number of its place, counted from 1 on, but for the one at place 5.
fn assert_page_held(rt: &impl Abort, memory: &mut Memory<SomeBytes>, first: u32, worn: u8)
    requires { first < 262144 }
{
    for at in 0..64u8 {
        let line = first + u32::from(at);
        let byte = if at == 5 { worn } else { at + 1 };
        assert_eq!(rt; memory.read(line), Ok([byte; 64]), "line {line}");
    }
    assert_eq!(rt; memory.read(0), Ok([100; 64]));
}

// Pages 3, 9, 200 and 4001, each by its first line.
#[test]
fn at_each_level_a_page_is_encrypted_anew(rt: HostRuntime) -> Result<(), Fail> {
    let rows = [(1, 192), (2, 576), (4, 12_800), (6, 256_064)];
    for (levels, first) in rows {
        let mut memory = worn_page(&rt, rt.alloc(), levels, first, 1)?;
        assert_page_held(&rt, &mut memory, first, 6);
        let last = memory.fill(first + 5, 200);
        assert_eq!(rt; last, Ok(()), "levels {levels}");
        assert_page_held(&rt, &mut memory, first, 200);
        let (account, _bus) = memory.finish();
        let anew = Counter { page: 1, line: 0 };
        for at in 0..64u32 {
            let entry = account.used.get(191 + u64::from(at));
            assert_eq!(rt; entry, Some((first + at, anew)), "levels {levels}");
        }
        let counts = (account.used.len(), account.made.len());
        assert_eq!(rt; counts, (255, 255), "levels {levels}");
        assert_eq!(rt; account.evidence, None, "levels {levels}");
    }
    Ok(())
}

#[test]
fn a_page_other_than_the_first_is_spent(rt: HostRuntime) -> Result<(), Fail> {
    let spent = Err(MemStop::Spent(9));
    let mut memory = worn_page(&rt, rt.alloc(), 2, 576, 0)?;
    assert_eq!(rt; memory.fill(581, 200), spent);
    assert_page_held(&rt, &mut memory, 576, 6);
    assert_eq!(rt; memory.lines.stopped(), spent.err());
    let (account, _bus) = memory.finish();
    let counts = (account.used.len(), account.made.len());
    assert_eq!(rt; counts, (191, 191));
    assert_eq!(rt; account.evidence, None);
    Ok(())
}
