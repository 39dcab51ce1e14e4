//! A clock for short times.

use outside::Clock;
use std::time::Duration;

/// The clock of the operating system, in microseconds from a start of its own. Where it cannot be
/// read, the last value.
#[derive(Drop)]
pub(crate) struct MicroClock<'a, R: std::time::Clock> {
    system: &'a R,
    last: u64,
}

impl<'a, R: std::time::Clock> MicroClock<'a, R> {
    pub(crate) fn new(system: &'a R) -> MicroClock<'a, R> {
        MicroClock { system, last: 0 }
    }
}

/// A time in microseconds, as far as 64 bits reach.
fn in_micros(time: Duration) -> u64 {
    u64::try_from(time.as_nanos() / 1000).unwrap_or(u64::MAX)
}

impl<'a, R: std::time::Clock> Clock for MicroClock<'a, R> {
    ghost use Rattle.std.specs.Prelude.{None};

    ghost values = { λ _. None };

    /// It never falls.
    fn now(&mut self) -> u64 {
        let reading = self.system.monotonic().ok().map(in_micros);
        self.last = reading.map_or(self.last, |time| time.max(self.last));
        self.last
    }
}
