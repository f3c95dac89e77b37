// How the bytes of a block spell its counters. Eight line counters of 7 bits fill seven bytes.
ghost use Rattle.std.specs.Prelude.{◌≡◌, ◌+◌, ◌≤◌, ◌<◌, ◌++◌, length, take, drop, All};
ghost use Rattle.std.specs.Int.{w64, from_le_bytes, to_le_bytes};
ghost use Rattle.split_counter.specs.Digits.{digits_of, number_of};

use sec_base::put;

/// The page counter of a block's bytes.
pub(crate) fn page_counter(bytes: &[u8; 64]) -> u64
    ensures { result ≡ from_le_bytes w64 (take 8 bytes.now) }
{
    number_at(bytes, 0)
}

/// The line counters of a block's bytes.
pub(crate) fn line_counters(bytes: &[u8; 64]) -> [u8; 64]
    ensures { result ≡ digits_of 128 64 (number_of 256 (drop 8 bytes.now)) }
{
    let mut lines = [0; 64];
    for group in 0..8 {
        // The eight bytes that end with the group, without the first of them.
        let packed = number_at(bytes, 7 * group + 7) >> 8;
        put(&mut lines, 8 * group, &unpack_group(packed));
    }
    lines
}

/// The bytes that spell a page counter and line counters.
pub(crate) fn bytes_of(page: u64, lines: &[u8; 64]) -> [u8; 64]
    requires { All (λ counter. counter < 128) lines.now }
    ensures { result ≡ to_le_bytes w64 page ++ digits_of 256 56 (number_of 128 lines.now) }
{
    let mut bytes = [0; 64];
    put(&mut bytes, 0, &page.to_le_bytes());
    for group in 0..8 {
        let packed = pack_group(&lines[8 * group..8 * group + 8]);
        put(&mut bytes, 7 * group + 8, &packed.to_le_bytes()[..7]);
    }
    bytes
}

// Eight bytes as a number, the lowest first.
fn number_at(bytes: &[u8; 64], at: usize) -> u64
    requires { at + 8 ≤ 64 }
    ensures { result ≡ from_le_bytes w64 (take 8 (drop at bytes.now)) }
{
    u64::from_le_bytes([
        bytes[at],
        bytes[at + 1],
        bytes[at + 2],
        bytes[at + 3],
        bytes[at + 4],
        bytes[at + 5],
        bytes[at + 6],
        bytes[at + 7],
    ])
}

// The eight line counters of seven bytes.
fn unpack_group(packed: u64) -> [u8; 8]
    ensures { result ≡ digits_of 128 8 packed }
{
    let mut counters = [0; 8];
    for place in 0..8 {
        counters[place] = (packed >> (7 * place) & 0x7f) as u8;
    }
    counters
}

// Eight line counters as a number of seven bytes.
fn pack_group(counters: &[u8]) -> u64
    requires eight { length counters.now ≡ 8 }
    requires fit { All (λ counter. counter < 128) counters.now }
    ensures { result ≡ number_of 128 counters.now }
{
    let mut packed = 0;
    for place in 0..8 {
        packed += u64::from(counters[place]) << (7 * place);
    }
    packed
}
