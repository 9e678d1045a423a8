//! Moments in time.
ghost use Rattle.std.specs.Prelude.{◌≡◌, ℕ};
ghost use Rattle.std.specs.Option.{SomeIff};
ghost use Rattle.site_ids.specs.Moment.{IsMoment};

use std::marker::Model;

/// The greatest moment: the last second of the year 9998.
pub const LAST_MOMENT: u64 = 253_370_764_799;

/// Seconds since 1970-01-01T00:00:00Z, from 0 to 253,370,764,799, with no leap seconds
/// (POSIX.1-2017, base definitions, 4.16).
#[derive(Clone, Copy, Debug, PartialEq, Eq, PartialOrd, Ord, Hash)]
pub struct Moment {
    seconds: u64,
}

impl Model for Moment {
    ghost Value = { ℕ };

    ghost view = { λ moment. moment.seconds };

    ghost invariant = { λ moment. IsMoment moment.seconds };

    ghost inverse = { λ n. record { seconds = n } };
}

impl Moment {
    /// The moment so many seconds after 1970, or `None` exactly past the end of the year 9998.
    pub fn new(n: u64) -> Option<Self>
        ensures { SomeIff result (IsMoment n) n }
    {
        if n <= LAST_MOMENT {
            Some(Moment { seconds: n })
        } else {
            None
        }
    }

    /// The seconds since 1970, from 0 to 253,370,764,799.
    pub fn get(self) -> u64
        ensures value { result ≡ self }
        ensures range { IsMoment result }
    {
        self.seconds
    }
}
