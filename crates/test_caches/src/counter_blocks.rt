// The format against an implementation of another kind, and how counters wear out.
ghost use Rattle.std.specs.Prelude.{◌<◌};

use sec_base::{Counter, put};
use split_counter::{Bumped, CounterBlock, LAST_LINE_COUNTER};
use std::process::Abort;

// The worked example: the line counter of place 1 stands at 127, and all else is 0.
#[test]
fn one_full_line_counter_fills_seven_bits(rt: HostRuntime) {
    let mut bytes = [0; 64];
    bytes[8] = 0x80;
    bytes[9] = 0x3f;
    let mut block = CounterBlock::new();
    for _ in 0..127 {
        let _ = block.bump(1, u64::MAX);
    }
    assert_eq!(rt; block.to_bytes(), bytes);
    assert_eq!(rt; CounterBlock::from_bytes(&bytes), block);
    assert_eq!(rt; CounterBlock::new().to_bytes(), [0; 64]);
}

// Random bytes, and the counters that Python 3.11 finds in them: `int.from_bytes(block[:8], "little")`, and with
// `n = int.from_bytes(block[8:], "little")` the numbers `n >> 7 * i & 127`.
const BLOCK: [u8; 64] = [
    0xd7, 0x13, 0x52, 0x4a, 0x6f, 0x17, 0x24, 0x4a, 0x51, 0x58, 0xcf, 0xd4, 0x6c, 0xc5, 0x13, 0xa5,
    0x00, 0xde, 0x48, 0xbf, 0x8c, 0x27, 0x43, 0x22, 0x12, 0xba, 0xb1, 0x3e, 0xc7, 0xac, 0xee, 0xb0,
    0x09, 0x85, 0xef, 0xde, 0xa7, 0xd7, 0x17, 0x89, 0x8d, 0xc9, 0x9e, 0x28, 0x3d, 0xea, 0x90, 0xa2,
    0x63, 0xa2, 0x94, 0x84, 0x64, 0xc2, 0x18, 0x91, 0x11, 0x9d, 0x60, 0x41, 0x74, 0xb2, 0x89, 0x1a,
];

const PAGE: u64 = 0x4a24_176f_4a52_13d7;

const LINES: [u8; 64] = [
    81, 48, 61, 38, 77, 45, 113, 9, 37, 1, 120, 70, 116, 23, 99, 19, 67, 68, 72, 80, 27, 86, 79,
    99, 44, 93, 67, 77, 80, 112, 59, 111, 39, 47, 95, 72, 88, 49, 50, 79, 40, 122, 40, 7, 41, 116,
    24, 81, 20, 9, 18, 19, 12, 35, 100, 8, 29, 65, 5, 34, 39, 54, 34, 13,
];

#[test]
fn a_block_has_the_counters_that_python_finds(rt: HostRuntime) {
    let block = CounterBlock::from_bytes(&BLOCK);
    for place in 0..64u8 {
        let counter = Counter {
            page: PAGE,
            line: LINES[place as usize],
        };
        assert_eq!(rt; block.get(place), counter, "at {place}");
    }
    assert_eq!(rt; block.to_bytes(), BLOCK);
}

// All 127 writes of a line up to the end of its counter.
fn write_to_the_end(rt: &impl Abort, block: &mut CounterBlock, place: u8)
    requires { place < 64 }
{
    for line in 1..=LAST_LINE_COUNTER {
        let counter = Counter { page: 0, line };
        let outcome = Bumped::of(block.get(place), u64::MAX);
        assert_eq!(rt; outcome, Bumped::Line(counter));
        assert_eq!(rt; block.bump(place, u64::MAX), Bumped::Line(counter));
        assert_eq!(rt; block.get(place), counter);
    }
}

#[test]
fn each_place_counts_to_its_end_and_then_raises_the_page(rt: HostRuntime) {
    let mut bytes = [0; 64];
    bytes[0] = 1;
    let next_page = CounterBlock::from_bytes(&bytes);
    let unwritten = Counter { page: 0, line: 0 };
    for place in 0..64u8 {
        let mut block = CounterBlock::new();
        write_to_the_end(&rt, &mut block, place);
        assert_eq!(rt; block.get((place + 1) % 64), unwritten, "beside {place}");
        assert_eq!(rt; block.bump(place, u64::MAX), Bumped::Page(1), "at {place}");
        assert_eq!(rt; block, next_page, "at {place}");
    }
}

// The line counter of place 0 stands at 127.
fn worn_out_at(page: u64) -> CounterBlock {
    let mut bytes = [0; 64];
    put(&mut bytes, 0, &page.to_le_bytes());
    bytes[8] = 0x7f;
    CounterBlock::from_bytes(&bytes)
}

#[test]
fn a_worn_out_line_is_spent_from_the_limit_on(rt: HostRuntime) {
    for (page, limit, outcome) in [
        (0, 0, Bumped::Spent),
        (0, 1, Bumped::Page(1)),
        (1, 1, Bumped::Spent),
        (2, 1, Bumped::Spent),
        (u64::MAX - 1, u64::MAX - 1, Bumped::Spent),
        (u64::MAX - 1, u64::MAX, Bumped::Page(u64::MAX)),
        (u64::MAX, u64::MAX, Bumped::Spent),
    ] {
        let mut block = worn_out_at(page);
        let told = Bumped::of(block.get(0), limit);
        assert_eq!(rt; told, outcome, "at {page} of {limit}");
        assert_eq!(rt; block.bump(0, limit), outcome, "at {page} of {limit}");
        if outcome == Bumped::Spent {
            assert_eq!(rt; block, worn_out_at(page), "at {page} of {limit}");
        }
    }
}

// A limit that is reached ends no line but those that are worn out.
#[test]
fn a_line_beside_a_spent_one_is_written(rt: HostRuntime) {
    let mut block = worn_out_at(0);
    assert_eq!(rt; block.bump(0, 0), Bumped::Spent);
    let counter = Counter { page: 0, line: 1 };
    assert_eq!(rt; block.bump(1, 0), Bumped::Line(counter));
}
