//! The calls of an object in memory, some of which are to fail.
ghost use Rattle.std.specs.Prelude.{◌≡◌, ◌≤◌, ◌↔◌, IsTrue, if◌then◌else◌};
ghost use Rattle.outside_world.specs.Faults.{raised, Rose};
ghost use Rattle.outside_world.specs.Calls.{Calls as CallsSeen, fresh_calls, FailsNext, counted, failed};

use std::marker::Model;

/// Counts the calls of an object from 1, and its faults, and knows which calls are to fail.
///
/// Both counts stand still at the greatest `u64`.
#[derive(Drop)]
pub(crate) struct Calls {
    fails: Vec<u64>,
    made: u64,
    faults: u64,
}

impl Model for Calls {
    ghost use Rattle.outside_world.specs.Calls.{Calls as CallsSeen};

    ghost Value = { CallsSeen };

    ghost view = { λ c. record { fails = c.fails.items; made = c.made; faults = c.faults } };
}

impl Calls {
    /// No call yet, and the calls with these numbers are to fail.
    ///
    /// Order and repeats do not matter.
    pub(crate) fn new(fails: Vec<u64>) -> Self
        ensures { result ≡ fresh_calls fails.items }
    {
        Calls {
            fails,
            made: 0,
            faults: 0,
        }
    }

    /// Counts the next call, and a fault where it is to fail: whether it is to fail.
    pub(crate) fn begin(&mut self) -> bool
        ensures listed { IsTrue result ↔ FailsNext self.old }
        ensures after { self.new ≡ (if result then failed self.old else counted self.old) }
    {
        self.made = raised(self.made);
        let is_failing = self.fails.contains(&self.made);
        if is_failing {
            self.faults = raised(self.faults);
        }
        is_failing
    }

    /// Counts a fault of the call that was begun last.
    pub(crate) fn fail(&mut self)
        ensures { self.new ≡ record self.old { faults = raised self.old.faults } }
    {
        self.faults = raised(self.faults);
    }
}

/// One more, or the same at the greatest `u64`.
pub(crate) fn raised(count: u64) -> u64
    ensures { result ≡ raised count }
{
    if count < u64::MAX { count + 1 } else { count }
}
