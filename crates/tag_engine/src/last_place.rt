// Where the last message of a line or of a node stands, in 8 bytes.
ghost use Rattle.std.specs.Prelude.{◌≡◌, ◌<◌, ◌-◌, Some, None};

use std::marker::Model;

// Where a message stands in the list of those that were tagged, if there is one.
#[derive(Clone, Copy)]
pub(crate) struct LastPlace {
    // How many messages there were with it, and 0 where there is none.
    count: usize,
}

impl Model for LastPlace {
    ghost use Rattle.std.specs.Prelude.{ℕ, Option};
    ghost use Rattle.tag_engine.specs.LastPlace.{count_of, place_of};

    ghost Value = { Option ℕ };

    ghost view = { λ place. place_of place.count };

    ghost inverse = { λ at. record { count = count_of at } };
}

impl LastPlace {
    // There is none.
    pub(crate) fn none() -> LastPlace
        ensures { result ≡ None }
    {
        LastPlace { count: 0 }
    }

    // It is the last of so many messages.
    pub(crate) fn last_of(count: usize) -> LastPlace
        requires { 0 < count }
        ensures { result ≡ Some (count - 1) }
    {
        LastPlace { count }
    }

    pub(crate) fn get(&self) -> Option<usize>
        ensures { result ≡ self.now }
    {
        self.count.checked_sub(1)
    }
}
