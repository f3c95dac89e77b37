// A cache over a store in memory that logs its calls and refuses one of them.
mod logged_store;
mod orders;
mod random_walk;
mod refusals;
mod tables;

use line_cache::LineCache;
use logged_store::LoggedStore;
use sec_base::{MemStop, Ram, Width};
use std::alloc::Global;
use std::process::Abort;
use std::test::Fail;

type Lines = LineCache<LoggedStore>;

// The store refuses its call of this number.
fn over(alloc: Global, fails: u32) -> Result<Lines, Fail> {
    let store = LoggedStore::new(alloc, fails)?;
    Ok(LineCache::new(alloc, store).ok().ok_or("no memory")?)
}

fn load(rt: &impl Abort, lines: &mut Lines, addr: u32) -> Result<u32, MemStop> {
    assert!(rt; addr % 4 == 0);
    assert!(rt; addr <= 16380);
    lines.load(addr, Width::Four)
}

fn store(rt: &impl Abort, lines: &mut Lines, addr: u32, value: u32) -> Result<(), MemStop> {
    assert!(rt; addr % 4 == 0);
    assert!(rt; addr <= 16380);
    lines.store(addr, Width::Four, value)
}

// The word of a line at a place in it.
fn load_word(rt: &impl Abort, lines: &mut Lines, line: u32, word: u32) -> Result<u32, MemStop> {
    assert!(rt; line < 256);
    assert!(rt; word < 16);
    load(rt, lines, 64 * line + 4 * word)
}

fn store_word(
    rt: &impl Abort,
    lines: &mut Lines,
    line: u32,
    word: u32,
    value: u32,
) -> Result<(), MemStop> {
    assert!(rt; line < 256);
    assert!(rt; word < 16);
    store(rt, lines, 64 * line + 4 * word, value)
}

fn held(rt: &impl Abort, lines: &Lines, line: u32) -> bool {
    assert!(rt; line < 256);
    lines.held(line)
}
