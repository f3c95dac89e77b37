// The two sides of a pair of runs.
ghost use Rattle.std.specs.Prelude.{◌≡◌};
ghost use Rattle.turn_order.specs.Side as spec;
ghost use Rattle.turn_order.specs.Side.{side_number};
ghost use Rattle.turn_order.specs.TurnOrder as order;

/// A side of a pair of runs. Orders and answers name it by its number.
#[derive(Clone, Copy, Debug, PartialEq, Eq)]
pub enum Side {
    First = 0,
    Second = 1,
}

impl Side {
    // Its number, 0 or 1.
    pub(crate) fn number(self) -> u8
        ensures { result ≡ side_number self }
    {
        self as u8
    }

    // Whether it has not ended.
    pub(crate) fn goes_on(self, ended0: bool, ended1: bool) -> bool
        ensures { result ≡ spec.goes_on ended0 ended1 self }
    {
        match self {
            Side::First => !ended0,
            Side::Second => !ended1,
        }
    }
}

/// The side that a byte of an order names.
#[inline(always)]
pub fn side_of(byte: u8) -> Side
    ensures { result ≡ spec.side_of byte }
{
    if byte == 0 { Side::First } else { Side::Second }
}

/// A side that has not ended, the first one before the second.
pub fn side_left(ended0: bool, ended1: bool) -> Option<Side>
    ensures { result ≡ order.side_left ended0 ended1 }
{
    match (ended0, ended1) {
        (false, _) => Some(Side::First),
        (true, false) => Some(Side::Second),
        (true, true) => None,
    }
}
