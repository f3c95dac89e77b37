use crate::Key;
use crate::schedule::expanded_key;
use std::process::Abort;

// Key, block and cipher, the first byte highest.
type Case = (u128, u128, u128);

fn goes_both_ways(rt: &impl Abort, cases: &[Case]) {
    for (key, block, cipher) in cases {
        let made = Key::new(&key.to_be_bytes()).encrypt(&block.to_be_bytes());
        assert_eq!(rt; made, cipher.to_be_bytes());
        let back = Key::new(&key.to_be_bytes()).decrypt(&cipher.to_be_bytes());
        assert_eq!(rt; back, block.to_be_bytes());
    }
}

// FIPS 197, appendices B and C.1.
#[test]
fn goes_both_ways_as_the_standard_shows(rt: HostRuntime) {
    goes_both_ways(
        &rt,
        &[
            (
                0x2b7e151628aed2a6abf7158809cf4f3c,
                0x3243f6a8885a308d313198a2e0370734,
                0x3925841d02dc09fbdc118597196a0b32,
            ),
            (
                0x000102030405060708090a0b0c0d0e0f,
                0x00112233445566778899aabbccddeeff,
                0x69c4e0d86a7b0430d8cdb78070b4c55a,
            ),
        ],
    );
}

// The ciphers are those of `openssl enc -aes-128-ecb -nopad` (OpenSSL 3.0.19).
#[test]
fn goes_both_ways_as_openssl_does(rt: HostRuntime) {
    goes_both_ways(
        &rt,
        &[
            (
                0x00000000000000000000000000000000,
                0x00000000000000000000000000000000,
                0x66e94bd4ef8a2c3b884cfa59ca342b2e,
            ),
            (
                0xffffffffffffffffffffffffffffffff,
                0xffffffffffffffffffffffffffffffff,
                0xbcbf217cb280cf30b2517052193ab979,
            ),
            (
                0x00000000000000000000000000000000,
                0xffffffffffffffffffffffffffffffff,
                0x3f5b8cc9ea855a0afa7347d23e8d664e,
            ),
            (
                0xffffffffffffffffffffffffffffffff,
                0x00000000000000000000000000000000,
                0xa1f6258c877d5fcd8964484538bfc92c,
            ),
            (
                0x80000000000000000000000000000000,
                0x00000000000000000000000000000000,
                0x0edd33d3c621e546455bd8ba1418bec8,
            ),
            (
                0x00000000000000000000000000000001,
                0x00000000000000000000000000000000,
                0x0545aad56da2a97c3663d1432a3d1c84,
            ),
            (
                0x00000000000000000000000000000000,
                0x80000000000000000000000000000000,
                0x3ad78e726c1ec02b7ebfe92b23d9ec34,
            ),
            (
                0x00000000000000000000000000000000,
                0x00000000000000000000000000000001,
                0x58e2fccefa7e3061367f1d57a4e7455a,
            ),
            (
                0x00000000000000100000000000000000,
                0x00000000000000000000000000000000,
                0xdf9c0130ac77e7c72c997f587b46dbe0,
            ),
            (
                0x00000000000000000000000000000000,
                0x00000000000000000000040000000000,
                0x0cec48cd34043ea29ca3b8ed5278721e,
            ),
            (
                0x0123456789abcdef0123456789abcdef,
                0xfedcba9876543210fedcba9876543210,
                0x10ec6f154467d69aa99cb9af60557857,
            ),
            (
                0x52525252525252525252525252525252,
                0x52525252525252525252525252525252,
                0xb2c2995d67a4da0ef7cbe2ee59f53784,
            ),
        ],
    );
}

// FIPS 197, appendix A.1: the words w4, w39 and w40 to w43 of its key.
#[test]
fn expands_a_key_as_the_standard_shows(rt: HostRuntime) {
    let words = expanded_key(&0x2b7e151628aed2a6abf7158809cf4f3cu128.to_be_bytes());
    let cases = [
        (4, 0xa0fafe17),
        (39, 0x575c006e),
        (40, 0xd014f9a8),
        (41, 0xc9ee2589),
        (42, 0xe13f0cc8),
        (43, 0xb6630ca6),
    ];
    for (place, word) in cases {
        assert_eq!(rt; words[place].swap_bytes(), word, "at {place}");
    }
}
