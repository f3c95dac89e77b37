// The access that comes next, and the triggers that are due before it.
ghost use Rattle.bus_adversary.specs.NextAccess as spec;
ghost use Rattle.std.specs.Prelude.{◌≡◌};

use adversary_script::Trigger;
use sec_base::Place;

/// A read or a write of a place.
#[derive(Clone, Copy, Debug)]
pub enum Access {
    Read(Place),
    Write(Place),
}

/// The access that comes next.
#[derive(Clone, Copy, Debug)]
pub struct NextAccess {
    /// What it is.
    pub access: Access,
    /// How many accesses there were before it,
    pub accesses_before: u64,
    /// and how many of its kind at its place.
    pub same_before: u64,
}

impl NextAccess {
    // Whether a trigger waits for it.
    pub(crate) fn is_due(&self, trigger: Trigger) -> bool
        ensures { result ≡ spec.is_due self.now trigger }
    {
        match trigger {
            Trigger::Access(n) => is_next(n, self.accesses_before),
            Trigger::Read(place, k) => is_read_of(place, self.access)
                && is_next(k, self.same_before),
            Trigger::Write(place, k) => is_write_of(place, self.access)
                && is_next(k, self.same_before),
        }
    }
}

fn is_read_of(place: Place, access: Access) -> bool
    ensures { result ≡ spec.is_read_of place access }
{
    match access {
        Access::Read(here) => here == place,
        Access::Write(_) => false,
    }
}

fn is_write_of(place: Place, access: Access) -> bool
    ensures { result ≡ spec.is_write_of place access }
{
    match access {
        Access::Read(_) => false,
        Access::Write(here) => here == place,
    }
}

// Whether a number, counted from 1, is the one after so many.
fn is_next(number: u64, before: u64) -> bool
    ensures { result ≡ spec.is_next number before }
{
    number > 0 && before == number - 1
}
