// What was written last is read.
use page_cases::{honest, once};
use sec_base::{Counter, LineStore};
use std::test::Fail;

#[test]
fn what_was_written_last_is_read(rt: HostRuntime) -> Result<(), Fail> {
    let mut memory = honest(rt.alloc(), 2)?;
    assert_eq!(rt; memory.lines.lines(), 256);
    assert_eq!(rt; memory.fill(64, 1), Ok(()));
    assert_eq!(rt; memory.read(64), Ok([1; 64]));
    assert_eq!(rt; memory.fill(64, 2), Ok(()));
    assert_eq!(rt; memory.fill(255, 3), Ok(()));
    assert_eq!(rt; memory.read(64), Ok([2; 64]));
    assert_eq!(rt; memory.read(255), Ok([3; 64]));
    assert_eq!(rt; memory.lines.stopped(), None);
    let (account, _bus) = memory.finish();
    let again = (64, Counter { page: 0, line: 2 });
    let wanted = [once(64), again, once(255)];
    assert_eq!(rt; account.used.as_slice(), wanted.as_slice());
    assert_eq!(rt; account.made.len(), 3);
    assert_eq!(rt; account.evidence, None);
    Ok(())
}
