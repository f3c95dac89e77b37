// Bytes that are no order of turns.
ghost use Rattle.std.specs.Prelude.{◌≡◌, ◌↔◌, IsOk, IfErr, Some};
ghost use Rattle.turn_order.specs.OrderError.{wrong_place};
ghost use Rattle.turn_order.specs.TurnOrder.{IsOrder};

use thiserror::Error;

/// A byte of an order is neither 0 nor 1.
#[derive(Clone, Copy, Debug, PartialEq, Eq, Error)]
#[error("the byte at place {place} is neither 0 nor 1")]
pub struct OrderError {
    /// The place of the first such byte, counted from 0.
    pub place: usize,
}

/// Whether bytes are an order of turns, as they are where each of them is 0 or 1.
pub fn check_order(bytes: &[u8]) -> Result<(), OrderError>
    ensures order { IsOk result ↔ IsOrder bytes.now }
    ensures wrong { IfErr result (λ error. wrong_place bytes.now ≡ Some error.place) }
{
    match bytes.iter().position(|byte| *byte > 1) {
        Some(place) => Err(OrderError { place }),
        None => Ok(()),
    }
}
