// Whose turn it is, worked out by hand: an order is a list of sides that begins anew at its end, an entry of a side that
// has ended is used up, and where no entry is of a side that goes on, that side has its turn without one.

use std::process::Abort;
use turn_order::{OrderError, TurnOrder, check_order};

// The turns of a pair whose sides end with their turns of these numbers, up to the end of both.
fn expect_turns(rt: &impl Abort, order: &[u8], first: u32, second: u32, turns: &[u8]) {
    assert!(rt; check_order(order).is_ok());
    let mut turn_order = TurnOrder::new(order);
    let mut first_left = first;
    let mut second_left = second;
    for turn in turns {
        let side = turn_order.next(first_left == 0, second_left == 0);
        if *turn == b'0' {
            assert_eq!(rt; side, Some(0));
            first_left = first_left.saturating_sub(1);
        } else {
            assert_eq!(rt; side, Some(1));
            second_left = second_left.saturating_sub(1);
        }
    }
    assert_eq!(rt; first_left, 0);
    assert_eq!(rt; second_left, 0);
    assert_eq!(rt; turn_order.next(true, true), None);
}

// Two programs that retire 20 instructions and 11.
#[test]
fn each_side_has_all_its_turns(rt: HostRuntime) {
    let rt = &rt;
    expect_turns(rt, &[], 20, 11, b"0101010101010101010101000000000");
    expect_turns(rt, &[0, 1], 20, 11, b"0101010101010101010101000000000");
    expect_turns(rt, &[1], 20, 11, b"1111111111100000000000000000000");
    expect_turns(rt, &[0, 0, 1], 20, 11, b"0010010010010010010010010010011");
    expect_turns(rt, &[0], 20, 11, b"0000000000000000000011111111111");
    expect_turns(rt, &[1, 0], 2, 0, b"00");
    expect_turns(rt, &[1, 0], 0, 0, b"");
}

// The sides that have ended are others from call to call.
#[test]
fn entries_of_a_side_that_has_ended_are_used_up(rt: HostRuntime) {
    let order = [0, 1, 1];
    assert!(rt; check_order(&order).is_ok());
    let mut turns = TurnOrder::new(&order);
    for (ended0, ended1, side) in [
        (false, false, Some(0)),
        (false, true, Some(0)),
        (false, false, Some(1)),
        (true, true, None),
        (true, false, Some(1)),
        (true, false, Some(1)),
        (false, false, Some(1)),
        (false, false, Some(0)),
    ] {
        assert_eq!(rt; turns.next(ended0, ended1), side);
    }
}

#[test]
fn a_turn_without_an_entry_leaves_the_order(rt: HostRuntime) {
    let order = [1, 1];
    assert!(rt; check_order(&order).is_ok());
    let mut turns = TurnOrder::new(&order);
    for (ended1, side) in [(false, 1), (true, 0), (true, 0), (false, 1)] {
        assert_eq!(rt; turns.next(false, ended1), Some(side));
    }
}

// Bytes are no order, as this byte of them says.
fn expect_wrong(rt: &impl Abort, bytes: &[u8], place: usize) {
    assert_eq!(rt; check_order(bytes), Err(OrderError { place }));
}

#[test]
fn the_first_byte_that_is_no_side_is_named(rt: HostRuntime) {
    let rt = &rt;
    expect_wrong(rt, &[2], 0);
    expect_wrong(rt, &[0, 1, 2], 2);
    expect_wrong(rt, &[0, 0xff, 2, 1], 1);
    expect_wrong(rt, b"01", 0);
    expect_wrong(rt, b"\0\x01\0\n", 3);
}
