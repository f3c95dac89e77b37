// The order of turns of a pair of runs, as it goes on.
ghost use Rattle.std.specs.Prelude.{◌≡◌, Some, slice_get};
ghost use Rattle.std.specs.Option.{option_map};
ghost use Rattle.turn_order.specs.Side.{side_number};
ghost use Rattle.turn_order.specs.TurnOrder.{IsOrder, first_round, round_from, next_side, round_after};

use crate::side::{Side, side_left, side_of};
use std::marker::Model;

/// An order of turns, as a list of sides that begins anew at its end. Seen as one round of its entries from the next one
/// on. No call takes memory.
#[derive(Debug, Drop)]
pub struct TurnOrder<'a> {
    order: &'a [u8],
    at: usize,
}

impl<'a> Model for TurnOrder<'a> {
    ghost use Rattle.std.specs.Prelude.{List, ◌<◌, length, map};
    ghost use Rattle.turn_order.specs.declared.side.Side.{Side};
    ghost use Rattle.turn_order.specs.Side.{side_of};
    ghost use Rattle.turn_order.specs.TurnOrder.{round_from};

    ghost Value = { List Side };

    ghost view = { λ turns. round_from turns.at (map side_of turns.order.now) };

    ghost invariant = { λ turns. turns.at < length turns.order.now };
}

impl<'a> TurnOrder<'a> {
    /// An order from its first entry on, each 0 for the first side or 1 for the second. Of an empty one the sides take
    /// turns, the first side first.
    pub fn new(order: &'a [u8]) -> TurnOrder<'a>
        requires { IsOrder order.now }
        ensures { result ≡ first_round order.now }
    {
        if order.is_empty() {
            TurnOrder {
                order: &[0, 1],
                at: 0,
            }
        } else {
            TurnOrder { order, at: 0 }
        }
    }

    /// The number of the side whose turn it is, 0 or 1: that of the next entry whose side hasn't ended, which is used up
    /// with all before it. Where there is no such entry it is the side that hasn't ended, and no entry is used up. There
    /// is none where both sides have ended.
    ///
    /// Where a side has ended, a call may pass over a whole round. The answer is the other side anyway, so a caller whose
    /// sides stay ended need not ask.
    pub fn next(&mut self, ended0: bool, ended1: bool) -> Option<u8>
        ensures side { result ≡ option_map side_number (next_side ended0 ended1 self.old) }
        ensures round { self.new ≡ round_after ended0 ended1 self.old }
    {
        self.next_side(ended0, ended1).map(Side::number)
    }

    // The side whose turn it is.
    fn next_side(&mut self, ended0: bool, ended1: bool) -> Option<Side>
        ensures side { result ≡ next_side ended0 ended1 self.old }
        ensures round { self.new ≡ round_after ended0 ended1 self.old }
    {
        for _ in 0..self.order.len() {
            let side = self.pass();
            if side.goes_on(ended0, ended1) {
                return Some(side);
            }
        }
        side_left(ended0, ended1)
    }

    /// The side that the next entry names, which is used up, whether it has ended or not. Of sides that both go on it is the one
    /// that `next` tells.
    #[inline(always)]
    pub fn pass(&mut self) -> Side
        ensures entry { slice_get self.old 0 ≡ Some result }
        ensures begun_anew { self.new ≡ round_from 1 self.old }
    {
        let side = side_of(self.order[self.at]);
        self.at += 1;
        if self.at == self.order.len() {
            self.at = 0;
        }
        side
    }
}
