// Each public call once with ample memory.
use crate::PadEngine;
use crate::pad::input_block;
use sec_base::Counter;
use std::test::Fail;

#[test]
fn a_counter_block_has_each_part_at_its_place(rt: HostRuntime) {
    let counter = Counter { page: 1, line: 2 };
    let block = [5, 0, 0, 0, 1, 0, 0, 0, 0, 0, 0, 0, 2, 3, 0, 0];
    assert_eq!(rt; input_block(5, counter, 3), block);
    let counter = Counter {
        page: 0x0c0b_0a09_0807_0605,
        line: 13,
    };
    let block = [1, 2, 3, 4, 5, 6, 7, 8, 9, 10, 11, 12, 13, 1, 0, 0];
    assert_eq!(rt; input_block(0x0403_0201, counter, 1), block);
}

const KEY: [u8; 16] = [0, 1, 2, 3, 4, 5, 6, 7, 8, 9, 10, 11, 12, 13, 14, 15];

// The bytes 0 to 3f.
const PLAIN: [u8; 64] = [
    0x00, 0x01, 0x02, 0x03, 0x04, 0x05, 0x06, 0x07, 0x08, 0x09, 0x0a, 0x0b, 0x0c, 0x0d, 0x0e, 0x0f,
    0x10, 0x11, 0x12, 0x13, 0x14, 0x15, 0x16, 0x17, 0x18, 0x19, 0x1a, 0x1b, 0x1c, 0x1d, 0x1e, 0x1f,
    0x20, 0x21, 0x22, 0x23, 0x24, 0x25, 0x26, 0x27, 0x28, 0x29, 0x2a, 0x2b, 0x2c, 0x2d, 0x2e, 0x2f,
    0x30, 0x31, 0x32, 0x33, 0x34, 0x35, 0x36, 0x37, 0x38, 0x39, 0x3a, 0x3b, 0x3c, 0x3d, 0x3e, 0x3f,
];

// Their cipher at line 5 under the counters 1 and 2: the four counter blocks by `openssl enc -aes-128-ecb -nopad`
// (OpenSSL 3.0.19), mixed with the bytes by Python 3.
const CIPHER: [u8; 64] = [
    0x7c, 0x23, 0xc8, 0x14, 0x70, 0xe0, 0xca, 0x79, 0xcc, 0x90, 0x08, 0x0f, 0x25, 0x92, 0xa7, 0x91,
    0x64, 0x3e, 0x0d, 0x8e, 0x15, 0xcd, 0x69, 0x7b, 0xe5, 0x50, 0x06, 0x81, 0xa8, 0x94, 0xc8, 0x9c,
    0x30, 0xdd, 0xfb, 0xf8, 0xf6, 0xf3, 0x2c, 0x4d, 0xe2, 0x01, 0x58, 0xdb, 0x09, 0x37, 0xad, 0x60,
    0x75, 0xe1, 0x94, 0x73, 0x4f, 0xa1, 0x90, 0xb1, 0x27, 0x26, 0xe7, 0x78, 0xdc, 0x4d, 0x08, 0x58,
];

#[test]
fn a_line_is_enciphered_as_openssl_does_and_deciphered(rt: HostRuntime) -> Result<(), Fail> {
    let counter = Counter { page: 1, line: 2 };
    let mut engine = PadEngine::new(rt.alloc(), &KEY)?;
    assert_eq!(rt; engine.encrypt(5, counter, &PLAIN)?, CIPHER);
    assert_eq!(rt; engine.decrypt(5, counter, &CIPHER), PLAIN);
    Ok(())
}

#[test]
fn what_was_used_comes_at_the_end_in_order(rt: HostRuntime) -> Result<(), Fail> {
    let first = Counter { page: 1, line: 0 };
    let second = Counter { page: 1, line: 1 };
    let mut engine = PadEngine::new(rt.alloc(), &KEY)?;
    engine.reserve(2)?;
    let cipher = engine.encrypt(64, first, &PLAIN)?;
    let _ = engine.encrypt(63, first, &PLAIN)?;
    assert_eq!(rt; engine.decrypt(64, first, &cipher), PLAIN);
    let _ = engine.encrypt(64, second, &PLAIN)?;
    let used = engine.finish();
    let wanted = [(64, first), (63, first), (64, second)];
    assert_eq!(rt; used.as_slice(), wanted.as_slice());
    Ok(())
}
