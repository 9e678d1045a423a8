//! The calls of a disk in memory, some of which are to fail.
ghost use Rattle.std.specs.Prelude.{◌≡◌, ◌↔◌, IsTrue, if◌then◌else◌};
ghost use Rattle.disk_model.specs.Faults.{raised};
ghost use Rattle.disk_model.specs.CallCount.{CallCount, fresh_count, FailsNext, counted, failed};

use std::marker::Model;

/// Counts the calls of a disk from 1, and its faults, and knows which calls are to fail.
///
/// Both counts stand still at the greatest `u64`.
#[derive(Drop)]
pub(crate) struct Calls {
    fails: Vec<u64>,
    most: u64,
    made: u64,
    faults: u64,
}

impl Model for Calls {
    ghost use Rattle.disk_model.specs.CallCount.{CallCount};

    ghost Value = { CallCount };

    ghost view = { λ c.
        record { fails = c.fails.items; most = c.most; made = c.made; faults = c.faults } };
}

impl Calls {
    /// No call yet. The calls with the numbers in `fails` are to fail, and all above `most`.
    pub(crate) fn new(fails: Vec<u64>, most: u64) -> Self
        ensures { result ≡ fresh_count fails.items most }
    {
        Calls {
            fails,
            most,
            made: 0,
            faults: 0,
        }
    }

    /// Counts the next call, and a fault if it is to fail: whether it is to fail.
    pub(crate) fn begin(&mut self) -> bool
        ensures listed { IsTrue result ↔ FailsNext self.old }
        ensures after { self.new ≡ (if result then failed self.old else counted self.old) }
    {
        if self.is_failing() {
            self.made = raised(self.made);
            self.faults = raised(self.faults);
            return true;
        }
        self.made = raised(self.made);
        false
    }

    /// Is the next call to fail?
    fn is_failing(&self) -> bool
        ensures { IsTrue result ↔ FailsNext self.now }
    {
        if self.made >= self.most {
            return true;
        }
        self.fails.contains(&(self.made + 1))
    }

    /// Counts a fault of the call that was begun last.
    pub(crate) fn fail(&mut self)
        ensures { self.new ≡ record self.old { faults = raised self.old.faults } }
    {
        self.faults = raised(self.faults);
    }

    /// How many faults there were.
    pub(crate) fn faults(&self) -> u64
        ensures { result ≡ self.now.faults }
    {
        self.faults
    }
}

/// One more, or the same at the greatest `u64`.
pub(crate) fn raised(count: u64) -> u64
    ensures { result ≡ raised count }
{
    if count < u64::MAX { count + 1 } else { count }
}
