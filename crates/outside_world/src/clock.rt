//! Clocks: moments in seconds since 1970-01-01T00:00:00Z.
ghost use Rattle.std.specs.Prelude.{◌≡◌, ℕ, ◌+◌, ◌≤◌, Option, IfSome};

/// The greatest moment: the last second of the year 9998, in seconds since 1970-01-01T00:00:00Z.
pub const LAST_MOMENT: u64 = 253_370_764_799;

/// Something that tells the time.
pub trait Clock {
    // The moments still to come, by their place from 0, where the clock tells them.
    ghost coming: { Self → ℕ → Option ℕ };

    /// The moment now, in seconds since 1970-01-01T00:00:00Z, from 0 to `LAST_MOMENT`: the first of
    /// those still to come.
    ///
    /// It cannot fail, and goes on to the next moment.
    fn now(&mut self) -> u64
        ensures in_range { result ≤ LAST_MOMENT }
        ensures first { IfSome (coming self.old 0) (λ moment. result ≡ moment) }
        ensures goes_on { (k : ℕ) → coming self.new k ≡ coming self.old (k + 1) };

    /// A clock for another worker, with the same moments to come.
    fn twin(&self) -> Self
        ensures same { (k : ℕ) → coming result k ≡ coming self.now k };
}
