// What is expected is worked out by hand from the order in which the lines of a page are read and sealed.
use adversary_script::parse;
use bus_adversary::ScriptBus;
use hmac_tag::{HmacTagger, derive};
use page_reencrypt::SealedLines;
use sec_base::{Counter, Geometry, LineStore, MemStop, Place};
use std::alloc::{AllocError, Global};
use std::process::Abort;
use std::test::Fail;

type Lines = SealedLines<ScriptBus, HmacTagger>;

// Lines of a memory of four levels under a device key of zeros, over a bus that follows a script.
fn lines_over(rt: &impl Abort, alloc: Global, script: &str) -> Result<Lines, Fail> {
    let geometry = Geometry::new(4).ok_or("no geometry")?;
    assert!(rt; script.len() < 1 << 32);
    let script = parse(alloc, script.as_bytes(), geometry)?;
    let bus = ScriptBus::new(alloc, script, geometry)?;
    let keys = derive(&[0; 32]);
    let tagger = HmacTagger::new(&keys);
    let lines = SealedLines::boot(alloc, bus, tagger, &keys.enc_key, geometry, u64::MAX);
    Ok(lines.ok().ok_or("no memory")?)
}

fn fill(rt: &impl Abort, lines: &mut Lines, line: u32) -> Result<(), MemStop> {
    assert!(rt; line < lines.lines());
    lines.write_line(line, &[1; 64])
}

// Line 6 once, line 5 up to the end of its counter, and then the lines of their page as far as line 5.
fn used_before_line_6(alloc: Global) -> Result<Vec<(u32, Counter)>, AllocError> {
    let mut used = Vec::new(alloc);
    used.push((6, Counter { page: 0, line: 1 }))?;
    for line in 1..=127u8 {
        used.push((5, Counter { page: 0, line }))?;
    }
    for line in 0..=5u32 {
        used.push((line, Counter { page: 1, line: 0 }))?;
    }
    Ok(used)
}

// The 128th write of line 5 reads line 6 for the first time.
#[test]
fn an_overflow_stops_at_a_line_that_was_changed(rt: HostRuntime) -> Result<(), Fail> {
    let script = "read data 6 1: flip data 6 0 01\n";
    let mut lines = lines_over(&rt, rt.alloc(), script)?;
    assert_eq!(rt; fill(&rt, &mut lines, 6), Ok(()));
    for _ in 0..127u8 {
        assert_eq!(rt; fill(&rt, &mut lines, 5), Ok(()));
    }
    let tampered = Err(MemStop::Tampered(Place::Line(6)));
    assert_eq!(rt; fill(&rt, &mut lines, 5), tampered);
    let (account, bus) = lines.finish();
    let used = used_before_line_6(rt.alloc())?;
    assert_eq!(rt; account.used.as_slice(), used.as_slice());
    assert_eq!(rt; account.used.len(), 134);
    assert_eq!(rt; account.evidence, None);
    assert_eq!(rt; bus.lies(), 1);
    Ok(())
}
