//! A clock in memory.
ghost use Rattle.std.specs.Prelude.{◌≡◌, ◌+◌, ◌*◌, min, Some};
ghost use Rattle.outside_world.specs.declared.clock.TheConstants.{LAST_MOMENT};

use crate::clock::{Clock, LAST_MOMENT};

/// A clock that gives a first moment and then goes on by steps.
#[derive(Debug, Clone, Copy, PartialEq, Eq)]
pub struct MemoryClock {
    /// The moment that it gives next, in seconds since 1970-01-01T00:00:00Z. One above
    /// `LAST_MOMENT` is given as `LAST_MOMENT`.
    pub next: u64,
    /// The seconds from one moment to the next, which are added up to the greatest `u64`.
    pub step: u64,
}

impl Clock for MemoryClock {
    ghost coming = { λ c k. Some (min (c.next + k * c.step) LAST_MOMENT) };

    fn now(&mut self) -> u64
        ensures given { result ≡ min self.old.next LAST_MOMENT }
        ensures next { self.new ≡ record self.old {
          next = min (self.old.next + self.old.step) u64.MAX;
        } }
    {
        let moment = self.next.min(LAST_MOMENT);
        self.next = self.next.saturating_add(self.step);
        moment
    }

    fn twin(&self) -> Self
        ensures { result ≡ self.now }
    {
        *self
    }
}
