// Three lines of one set, in every order.
use super::logged_store::Call::{Read, Write};
use super::{load_word, over, store_word};
use std::test::Fail;

#[test]
fn the_least_recently_used_line_goes_out(rt: HostRuntime) -> Result<(), Fail> {
    for order in [
        [3, 67, 131],
        [3, 131, 67],
        [67, 3, 131],
        [67, 131, 3],
        [131, 3, 67],
        [131, 67, 3],
    ] {
        let [first, second, third] = order;
        let mut lines = over(rt.alloc(), 0)?;
        assert_eq!(rt; store_word(&rt, &mut lines, first, 0, first), Ok(()));
        assert_eq!(rt; store_word(&rt, &mut lines, second, 1, second), Ok(()));
        assert_eq!(rt; load_word(&rt, &mut lines, first, 0), Ok(first));
        assert_eq!(rt; store_word(&rt, &mut lines, third, 15, third), Ok(()));
        assert_eq!(rt; load_word(&rt, &mut lines, second, 1), Ok(second));
        assert_eq!(rt; load_word(&rt, &mut lines, third, 15), Ok(third));
        assert_eq!(rt; load_word(&rt, &mut lines, first, 0), Ok(first));
        assert_eq!(rt; lines.held_count(), 2);
        let calls = [
            Read(first),
            Read(second),
            Write(second),
            Read(third),
            Write(first),
            Read(second),
            Read(first),
        ];
        assert_eq!(rt; lines.finish().log.as_slice(), calls.as_slice());
    }
    Ok(())
}
