// A store that refuses one of its calls.
use super::logged_store::Call::{Read, Write};
use super::{held, load, over, store};
use sec_base::MemStop;
use std::test::Fail;

#[test]
fn a_changed_line_stays_where_its_write_is_refused(rt: HostRuntime) -> Result<(), Fail> {
    let mut lines = over(rt.alloc(), 3)?;
    assert_eq!(rt; store(&rt, &mut lines, 0, 9), Ok(()));
    assert_eq!(rt; load(&rt, &mut lines, 4096), Ok(0));
    assert_eq!(rt; load(&rt, &mut lines, 8192), Err(MemStop::Spent(7)));
    assert!(rt; held(&rt, &lines, 0));
    assert!(rt; held(&rt, &lines, 64));
    assert!(rt; !held(&rt, &lines, 128));
    assert_eq!(rt; load(&rt, &mut lines, 8192), Ok(0));
    assert_eq!(rt; load(&rt, &mut lines, 0), Ok(9));
    let calls = [Read(0), Read(64), Write(0), Read(128), Read(0)];
    assert_eq!(rt; lines.finish().log.as_slice(), calls.as_slice());
    Ok(())
}

#[test]
fn a_refused_read_leaves_what_was_stored(rt: HostRuntime) -> Result<(), Fail> {
    for fails in 1..10 {
        let mut lines = over(rt.alloc(), fails)?;
        let mut refusals = 0u32;
        for addr in [0, 4096, 8192] {
            let mut stored = store(&rt, &mut lines, addr, addr ^ 1);
            if stored.is_err() {
                refusals = refusals.saturating_add(1);
                stored = store(&rt, &mut lines, addr, addr ^ 1);
            }
            assert_eq!(rt; stored, Ok(()));
        }
        for addr in [0, 4096, 8192] {
            let mut loaded = load(&rt, &mut lines, addr);
            if loaded.is_err() {
                refusals = refusals.saturating_add(1);
                loaded = load(&rt, &mut lines, addr);
            }
            assert_eq!(rt; loaded, Ok(addr ^ 1));
        }
        assert_eq!(rt; refusals, 1);
        assert_eq!(rt; lines.held_count(), 2);
    }
    Ok(())
}
