// Which calls the store sees.
use super::logged_store::Call::{Read, Write};
use super::{held, load, over, store};
use std::test::Fail;

#[test]
fn a_line_is_read_again_once_it_went_out(rt: HostRuntime) -> Result<(), Fail> {
    let mut lines = over(rt.alloc(), 0)?;
    for addr in [0, 4096, 8192, 0] {
        assert_eq!(rt; load(&rt, &mut lines, addr), Ok(0));
    }
    assert_eq!(rt; lines.held_count(), 2);
    assert!(rt; held(&rt, &lines, 0));
    assert!(rt; !held(&rt, &lines, 64));
    assert!(rt; held(&rt, &lines, 128));
    let calls = [Read(0), Read(64), Read(128), Read(0)];
    assert_eq!(rt; lines.finish().log.as_slice(), calls.as_slice());
    Ok(())
}

#[test]
fn a_changed_line_is_written_when_it_goes_out(rt: HostRuntime) -> Result<(), Fail> {
    let mut lines = over(rt.alloc(), 0)?;
    assert_eq!(rt; store(&rt, &mut lines, 0, 0x0102_0304), Ok(()));
    assert_eq!(rt; load(&rt, &mut lines, 4096), Ok(0));
    assert_eq!(rt; load(&rt, &mut lines, 8192), Ok(0));
    assert_eq!(rt; load(&rt, &mut lines, 0), Ok(0x0102_0304));
    assert_eq!(rt; lines.held_count(), 2);
    let calls = [Read(0), Read(64), Write(0), Read(128), Read(0)];
    assert_eq!(rt; lines.finish().log.as_slice(), calls.as_slice());
    Ok(())
}

#[test]
fn nothing_is_written_at_the_end(rt: HostRuntime) -> Result<(), Fail> {
    let mut lines = over(rt.alloc(), 0)?;
    assert_eq!(rt; store(&rt, &mut lines, 64, 5), Ok(()));
    assert_eq!(rt; store(&rt, &mut lines, 68, 6), Ok(()));
    let store = lines.finish();
    assert_eq!(rt; store.log.as_slice(), [Read(1)].as_slice());
    assert_eq!(rt; store.line(1), [0; 64]);
    Ok(())
}
