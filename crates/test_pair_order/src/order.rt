// Whose turn it is. Each turn does one instruction, and both sides note in one log that they print a byte, so the log shows in
// which turns they did.
ghost use Rattle.std.specs.Prelude.{◌≡◌, IfOk, None};
ghost use Rattle.sec_base.specs.Geometry.{memory_size};

use chip_run::{Setup, Side, run_pair};
use fakes::CountingBus;
use hmac_tag::{HmacTagger, derive};
use rv32_asm::assemble;
use sec_base::{Geometry, Image, Sink, SinkStop};
use std::alloc::{AllocError, Global};
use std::cell::RefCell;
use std::test::Fail;
use turn_order::check_order;

// Prints a byte in each of its turns 4 to 9, and ends in turn 11.
const SIX_BYTES: &[u8] = b"li a0, 1
li a2, 1
li a7, 64
ecall
ecall
ecall
ecall
ecall
ecall
li a7, 93
ecall
";

// Prints a byte in its turns 4, 6, 8 and 10, and ends in turn 12.
const FOUR_BYTES: &[u8] = b"li a0, 1
li a2, 1
li a7, 64
ecall
nop
ecall
nop
ecall
nop
ecall
li a7, 93
ecall
";

// A sink that notes its side for each byte. It takes one byte of a piece.
#[derive(Drop)]
struct NotingSink<'a> {
    side: u8,
    log: &'a RefCell<Vec<u8>>,
}

impl<'a> NotingSink<'a> {
    fn note(&self) -> Result<(), AllocError> {
        match self.log.try_borrow_mut() {
            Ok(mut log) => log.push(self.side)?,
            Err(_) => return Err(AllocError),
        }
        Ok(())
    }
}

impl<'a> Sink for NotingSink<'a> {
    ghost state = { λ _. record { written = None; faults = 0 } };

    fn write(&mut self, piece: &[u8]) -> Result<usize, SinkStop> {
        if piece.is_empty() {
            return Ok(0);
        }
        self.note()?;
        Ok(1)
    }
}

fn program(alloc: Global, geometry: Geometry, text: &[u8]) -> Result<Image, Fail>
    ensures { IfOk result (λ image. image.size ≡ memory_size geometry) }
{
    if text.len() > 1000 {
        return Err("a long text".into());
    }
    let image = assemble(alloc, text, geometry.size())?;
    if image.size != geometry.size() {
        return Err("another size".into());
    }
    Ok(image)
}

// Two programs by their texts, and the order of their turns.
#[derive(Clone, Copy)]
struct Turns {
    first: &'static [u8],
    second: &'static [u8],
    order: &'static [u8],
}

fn run_noting(alloc: Global, turns: Turns, log: &RefCell<Vec<u8>>) -> Result<(), Fail> {
    let geometry = Geometry::new(1).ok_or("no geometry")?;
    let setup = Setup {
        geometry,
        keys: derive(&[0; 32]),
        budget: 99,
        page_limit: u64::MAX,
        nonce: [0; 16],
    };
    let image1 = program(alloc, geometry, turns.first)?;
    let image2 = program(alloc, geometry, turns.second)?;
    let bus1 = CountingBus::honest(alloc, geometry)?;
    let bus2 = CountingBus::honest(alloc, geometry)?;
    let Ok(()) = check_order(turns.order) else {
        return Err("no order".into());
    };
    let first = Side {
        image: &image1,
        input: &[],
        setup: &setup,
        tagger: HmacTagger::new(&setup.keys),
        bus: bus1,
    };
    let second = Side {
        image: &image2,
        input: &[],
        setup: &setup,
        tagger: HmacTagger::new(&setup.keys),
        bus: bus2,
    };
    let mut out1 = NotingSink { side: b'0', log };
    let mut out2 = NotingSink { side: b'1', log };
    let (_pair, _bus1, _bus2) = run_pair(alloc, first, second, turns.order, &mut out1, &mut out2);
    Ok(())
}

// Whose each byte is, in the order in which they were printed.
fn printers(alloc: Global, turns: Turns) -> Result<Vec<u8>, Fail> {
    let log = RefCell::new(Vec::new(alloc));
    run_noting(alloc, turns, &log)?;
    Ok(log.into_inner())
}

// The programs, the order of their turns, and whose each byte is: by hand, from the turns in which each program prints and ends.
// Where one has ended, the other one goes on.
type Row = (&'static [u8], &'static [u8], &'static [u8], &'static [u8]);

const ROWS: [Row; 11] = [
    (SIX_BYTES, FOUR_BYTES, b"", b"0100100101"),
    (SIX_BYTES, FOUR_BYTES, b"\0\x01", b"0100100101"),
    (SIX_BYTES, FOUR_BYTES, b"\x01\0", b"1001001001"),
    (SIX_BYTES, FOUR_BYTES, b"\0", b"0000001111"),
    (SIX_BYTES, FOUR_BYTES, b"\x01", b"1111000000"),
    (SIX_BYTES, FOUR_BYTES, b"\0\0\x01", b"0000010111"),
    (SIX_BYTES, FOUR_BYTES, b"\0\x01\x01", b"1101010000"),
    (
        SIX_BYTES,
        FOUR_BYTES,
        b"\x01\x01\x01\x01\0\0\0\0",
        b"1011000010",
    ),
    (FOUR_BYTES, SIX_BYTES, b"", b"0110110110"),
    (FOUR_BYTES, SIX_BYTES, b"\0\0\x01", b"0001011111"),
    (SIX_BYTES, SIX_BYTES, b"\0\x01\x01\0", b"100110011001"),
];

#[test]
fn turns_are_given_in_the_order_that_was_handed_over(rt: HostRuntime) -> Result<(), Fail> {
    for (first, second, order, expected) in ROWS {
        let turns = Turns {
            first,
            second,
            order,
        };
        let log = printers(rt.alloc(), turns)?;
        assert_eq!(rt; log.as_slice(), expected, "{order:?}");
    }
    Ok(())
}
