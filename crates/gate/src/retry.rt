//! When a core sends its open requests again.

ghost use Rattle.std.specs.Prelude.{◌≤◌};

use nop_types::NoMemory;
use std::alloc::Global;

/// The least and the greatest time, in milliseconds, after which a request is sent again.
pub const LEAST_RETRY_MILLIS: u64 = 5;

pub const MOST_RETRY_MILLIS: u64 = 200;

/// The time before any round trip was measured.
pub const FIRST_RETRY_MILLIS: u64 = 50;

/// A request is sent again at once where as many that were submitted later were answered as are
/// open, of all cores, and so many at least: it was lost, or its replies.
pub const LEAST_PASSED: u8 = 3;

const _: () = prove!(
    LEAST_RETRY_MILLIS == 5
        && MOST_RETRY_MILLIS == 200
        && FIRST_RETRY_MILLIS == 50
        && LEAST_PASSED == 3
);

/// The round trip of requests, as RFC 6298 has it: 8 times its smoothed length, and 4 times the
/// smoothed deviation, in milliseconds.
#[derive(Clone, Copy)]
pub struct RoundTrip {
    smoothed: u64,
    deviation: u64,
    is_measured: bool,
}

/// A request that was submitted: the how manieth of all cores, when, whether it was sent again
/// since, how many later ones were answered before that, and whether those are so many that it is
/// to be sent again at once.
#[derive(Clone, Copy)]
struct OpenRequest {
    id: u64,
    order: u64,
    since: u64,
    again: bool,
    passed: u8,
    is_passed: bool,
}

/// The open requests of a core, and when they are sent again.
#[derive(Drop)]
pub struct RetryTimer {
    trip: RoundTrip,
    open: Vec<OpenRequest>,
    wait: u64,
    due: u64,
}

impl RoundTrip {
    pub fn new() -> RoundTrip {
        RoundTrip {
            smoothed: 0,
            deviation: 0,
            is_measured: false,
        }
    }

    /// One more was measured; one of more than the greatest time counts as that.
    pub fn measured(self, millis: u64) -> RoundTrip {
        let millis = millis.min(MOST_RETRY_MILLIS);
        if !self.is_measured {
            return RoundTrip {
                smoothed: 8 * millis,
                deviation: 2 * millis,
                is_measured: true,
            };
        }
        let before = self.smoothed / 8;
        let distance = before.max(millis) - before.min(millis);
        RoundTrip {
            smoothed: (self.smoothed - self.smoothed / 8).saturating_add(millis),
            deviation: (self.deviation - self.deviation / 4).saturating_add(distance),
            is_measured: true,
        }
    }

    /// After which time a request is sent again: the smoothed round trip and four times the
    /// deviation.
    pub fn timeout(self) -> u64
        ensures least { LEAST_RETRY_MILLIS ≤ result }
        ensures most { result ≤ MOST_RETRY_MILLIS }
    {
        if !self.is_measured {
            return FIRST_RETRY_MILLIS;
        }
        (self.smoothed / 8)
            .saturating_add(self.deviation)
            .max(LEAST_RETRY_MILLIS)
            .min(MOST_RETRY_MILLIS)
    }
}

impl RetryTimer {
    pub fn new(alloc: Global) -> RetryTimer {
        RetryTimer {
            trip: RoundTrip::new(),
            open: Vec::new(alloc),
            wait: FIRST_RETRY_MILLIS,
            due: 0,
        }
    }

    fn restart(&mut self, now: u64) {
        self.wait = self.trip.timeout();
        self.due = now.saturating_add(self.wait);
    }

    /// A request was submitted; `order` counts those of all cores, from 1 on.
    pub fn submitted(&mut self, id: u64, order: u64, now: u64) -> Result<(), NoMemory> {
        if self.open.is_empty() {
            self.restart(now);
        }
        self.open.push(OpenRequest {
            id,
            order,
            since: now,
            again: false,
            passed: 0,
            is_passed: false,
        })?;
        Ok(())
    }

    /// No request is open.
    pub fn is_idle(&self) -> bool {
        self.open.is_empty()
    }

    /// A request was answered: gives its order, or 0 where none with this id was open. Its round
    /// trip is measured where it was sent once: else it is not known which one was answered.
    pub fn accepted(&mut self, id: u64, now: u64) -> u64 {
        let mut order = 0;
        for request in self.open.iter() {
            if request.id == id {
                order = request.order;
                if !request.again {
                    self.trip = self.trip.measured(now.saturating_sub(request.since));
                }
            }
        }
        self.open.retain(|request| request.id != id);
        self.restart(now);
        order
    }

    /// How many requests are open.
    pub fn open(&self) -> usize {
        self.open.len()
    }

    /// The request with this order, of any core, was answered; so many are open, of all cores.
    pub fn passed(&mut self, order: u64, open: usize) {
        for request in self.open.iter_mut() {
            if request.order < order && !request.again {
                let passed = request.passed.saturating_add(1);
                request.passed = passed;
                request.is_passed = LEAST_PASSED <= passed && open <= usize::from(passed);
            }
        }
    }

    fn is_over(&self, now: u64) -> bool {
        for request in self.open.iter() {
            if request.is_passed && !request.again {
                return true;
            }
        }
        self.due <= now
    }

    /// Whether the open requests are to be sent again now; then the time after which they are again
    /// is twice as long.
    pub fn is_due(&mut self, now: u64) -> bool {
        if self.open.is_empty() || !self.is_over(now) {
            return false;
        }
        for request in self.open.iter_mut() {
            request.again = true;
        }
        self.wait = self.wait.saturating_mul(2).min(MOST_RETRY_MILLIS);
        self.due = now.saturating_add(self.wait);
        true
    }
}
