ghost use Rattle.std.specs.Prelude.{◌≡◌, ◌≤◌};
ghost use Rattle.resending.specs.RoundTrips.{distance, measured, on_the_way, short, timeout, unmeasured};

/// A part is sent again after so many microseconds at least. A process that computes does not answer for some milliseconds.
pub const LEAST_TIMEOUT_MICROS: u64 = 10_000;

/// A part is sent again after so many microseconds at most.
pub const MOST_TIMEOUT_MICROS: u64 = 320_000;

/// The longest round trip that is told from longer ones.
pub const MOST_TRIP_MICROS: u64 = 1_000_000;

/// The time before any round trip was measured.
pub const FIRST_TIMEOUT_MICROS: u64 = 100_000;

/// The most parts that are on the way of a path, beside those that may be in the receiver's buffer.
pub const MOST_ON_THE_WAY: usize = 1024;

const _: () = prove!(
    LEAST_TIMEOUT_MICROS == 10_000
        && MOST_TIMEOUT_MICROS == 320_000
        && MOST_TRIP_MICROS == 1_000_000
        && FIRST_TIMEOUT_MICROS == 100_000
        && MOST_ON_THE_WAY == 1024
);

/// The round trip to a port, in microseconds, as RFC 6298 has it.
#[derive(Clone, Copy)]
pub struct RoundTrip {
    // The smoothed round trip, and the smoothed deviation from it.
    smoothed: u32,
    deviation: u32,
    // The least round trip; 0 before the first one.
    least: u32,
}

/// A time of at most a second.
fn short(micros: u64) -> u32
    ensures { result ≡ short micros }
{
    micros.min(MOST_TRIP_MICROS) as u32
}

fn distance(a: u32, b: u32) -> u32
    ensures { result ≡ distance a b }
{
    a.max(b) - a.min(b)
}

impl RoundTrip {
    /// None was measured.
    pub fn new() -> RoundTrip
        ensures { result ≡ unmeasured }
    {
        RoundTrip {
            smoothed: 0,
            deviation: 0,
            least: 0,
        }
    }

    /// One more was measured.
    pub fn measured(self, micros: u64) -> RoundTrip
        ensures { result ≡ measured micros self }
    {
        let micros = short(micros.max(1));
        if self.least == 0 {
            return RoundTrip {
                smoothed: micros,
                deviation: micros / 2,
                least: micros,
            };
        }
        let smoothed = 7 * u64::from(self.smoothed) + u64::from(micros);
        let deviation = 3 * u64::from(self.deviation) + u64::from(distance(self.smoothed, micros));
        RoundTrip {
            smoothed: short(smoothed / 8),
            deviation: short(deviation / 4),
            least: self.least.min(micros),
        }
    }

    /// After which time a part is sent again: the smoothed round trip and four times the deviation.
    pub fn timeout(self) -> u64
        ensures { result ≡ timeout self }
    {
        if self.least == 0 {
            return FIRST_TIMEOUT_MICROS;
        }
        (u64::from(self.smoothed) + 4 * u64::from(self.deviation))
            .max(LEAST_TIMEOUT_MICROS)
            .min(MOST_TIMEOUT_MICROS)
    }

    /// How many parts are on the way at this many a millisecond: the least round trip has no time in which they waited.
    pub fn on_the_way(self, pace: usize) -> usize
        ensures is { result ≡ on_the_way pace self }
        ensures most { result ≤ MOST_ON_THE_WAY }
    {
        ((self.least as usize).saturating_mul(pace) / 1000).min(MOST_ON_THE_WAY)
    }
}
