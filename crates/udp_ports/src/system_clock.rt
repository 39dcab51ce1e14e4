//! The clock of the operating system, in milliseconds; it never falls.
ghost use Rattle.std.specs.Prelude.{◌≡◌, ◌/◌, max, min, None, IfSome};
ghost use Rattle.std.specs.Duration.{as_nanos};

use outside::Clock;
use std::time::Duration;

/// The clock of the operating system, in milliseconds from a start of its own. Where it cannot be read, the last value.
#[derive(Drop)]
pub struct SystemClock<'a, R: std::time::Clock> {
    system: &'a R,
    last: u64,
}

impl<'a, R: std::time::Clock> SystemClock<'a, R> {
    pub fn new(system: &'a R) -> SystemClock<'a, R>
        ensures { result ≡ record { system = system.entry; last = 0 } }
    {
        SystemClock { system, last: 0 }
    }
}

/// A time in milliseconds, as far as 64 bits reach.
fn in_millis(time: Duration) -> u64
    ensures { result ≡ min (as_nanos time / 1_000_000) u64.MAX }
{
    u64::try_from(time.as_millis()).unwrap_or(u64::MAX)
}

/// The value after this one, at a reading of the clock, or at none where that failed.
fn later(last: u64, reading: Option<u64>) -> u64
    ensures read { IfSome reading (λ time. result ≡ max last time) }
    ensures failed { reading ≡ None → result ≡ last }
{
    reading.map_or(last, |time| time.max(last))
}

impl<'a, R: std::time::Clock> Clock for SystemClock<'a, R> {
    ghost use Rattle.std.specs.Prelude.{◌≡◌, ◌≤◌, None};
    ghost use Rattle.outside.specs.Clocks.{ReadsTime};

    ghost values = { λ _. None };

    /// It never falls.
    fn now(&mut self) -> u64
        ensures values { ReadsTime None None result }
        ensures last { self.new.last ≡ result }
        ensures rises { self.old.last ≤ result }
    {
        let reading = self.system.monotonic().ok().map(in_millis);
        self.last = later(self.last, reading);
        self.last
    }
}
