ghost use Rattle.std.specs.Prelude.{List, ℕ, Option};
ghost use Rattle.outside.specs.Clocks.{ReadsTime};

/// Where the time comes from.
pub trait Clock {
    /// What the calls to come answer, where the clock is observable. The last value is repeated.
    ghost values: { Self → Option (List ℕ) };

    /// The time in milliseconds. It may go back.
    fn now(&mut self) -> u64
        ensures { ReadsTime (values self.old) (values self.new) result };
}
