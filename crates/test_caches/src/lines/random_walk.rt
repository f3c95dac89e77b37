// Ten thousand loads and stores, beside a plain list of bytes.
use super::{Lines, load, over, store};
use std::process::Abort;
use std::test::Fail;

// The next number of a generator of 32 bits, by shifts (Marsaglia, Xorshift RNGs, 2003).
fn next(seed: u32) -> u32 {
    let first = seed ^ seed << 13;
    let second = first ^ first >> 17;
    second ^ second << 5
}

// One call at a word that the number picks. Its other bits are what is stored.
fn step(rt: &impl Abort, lines: &mut Lines, words: &mut [u32; 4096], number: u32) {
    let word = (number % 4096) as usize;
    let addr = 4 * (number % 4096);
    if number & 0x1000 == 0 {
        assert_eq!(rt; load(rt, lines, addr), Ok(words[word]));
    } else {
        assert_eq!(rt; store(rt, lines, addr, number), Ok(()));
        words[word] = number;
    }
}

#[test]
fn loads_are_those_of_a_plain_list(rt: HostRuntime) -> Result<(), Fail> {
    let mut lines = over(rt.alloc(), 0)?;
    let mut words = [0; 4096];
    let mut number = 0x1234_5678;
    for _ in 0..10_000 {
        number = next(number);
        step(&rt, &mut lines, &mut words, number);
    }
    for word in 0..4096u32 {
        assert_eq!(rt; load(&rt, &mut lines, 4 * word), Ok(words[word as usize]));
    }
    assert_eq!(rt; lines.held_count(), 128);
    Ok(())
}
