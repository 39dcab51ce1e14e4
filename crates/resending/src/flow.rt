ghost use Rattle.std.specs.Prelude.{◌≡◌, ◌≤◌, ◌<◌, length, slice_get, true, if◌then◌else◌, IfOk, IsTrue, IsFalse, OnErr};
ghost use Rattle.resending.specs.Sending.{acknowledged, admitted, advanced, at_time, away, counted, given_up, has_room, has_space, kept, is_admitted};
ghost use Rattle.resending.specs.Sending.{is_at_rest, is_due, is_pressing, opening, pace, paced_now, resent, room};
ghost use Rattle.resending.specs.Sending.{told, turn_begun, turned_away};
ghost use Rattle.std.specs.Prelude.{Some};

use crate::acks::Ack;
use crate::backlog::{Backlog, MOST_WAITING};
use crate::flight::{Flight, MOST_IN_FLIGHT, MOST_WINDOW, Sending, Sent};
use crate::names::{name_of, topic_of};
use crate::round_trip::RoundTrip;
use crate::topics::{Choice, Topics};
use nop_types::{MAX_REPLICAS, NoMemory};
use std::alloc::Global;
use std::marker::Model;

/// How many may be in flight until the port says how many it takes: all other replicas may begin at the same moment.
pub const FIRST_WINDOW: usize = MOST_WINDOW / (MAX_REPLICAS as usize - 1);

/// How many parts go to a port in a turn at most, so that what comes does not wait for long.
pub const MOST_AT_ONCE: usize = FIRST_WINDOW;

/// After how many microseconds without an acknowledgement all that is on its way to a port is given up.
pub const SILENCE_MICROS: u64 = 1_000_000;

const _: () = prove!(FIRST_WINDOW == 6 && MOST_AT_ONCE == 6 && SILENCE_MICROS == 1_000_000);

/// The parts that go to a port: those that wait, and those in flight. What is not acknowledged in time is sent again.
#[derive(Drop)]
pub struct Flow {
    waiting: Backlog,
    flight: Flight,
    topics: Topics,
    trip: RoundTrip,
    // How many may be in flight that are not on the way.
    window: usize,
    // In microseconds of the clock.
    time: u64,
    // When the port acknowledged a part, or else the first one was given.
    heard: u64,
    // How many were sent to the port so far, and the last of these that was acknowledged.
    serial: u64,
    reached: u64,
    // In which millisecond the last one was sent, and how many were then.
    tick: u64,
    paced: usize,
}

impl Model for Flow {
    ghost use Rattle.std.specs.Prelude.{◌≤◌};
    ghost use Rattle.resending.specs.declared.flight.TheConstants.{MOST_WINDOW};
    ghost use Rattle.resending.specs.Sending.{Outgoing};

    ghost Value = { Outgoing };

    ghost view = { λ f. record {
      waiting = f.waiting;
      flight = f.flight;
      topics = f.topics;
      trip = f.trip;
      window = f.window;
      time = f.time;
      heard = f.heard;
      serial = f.serial;
      reached = f.reached;
      tick = f.tick;
      paced = f.paced;
    } };

    ghost invariant = { λ f. f.window ≤ MOST_WINDOW };
}

impl Flow {
    pub fn new(alloc: Global) -> Flow
        ensures { result ≡ opening }
    {
        Flow {
            waiting: Backlog::new(alloc),
            flight: Flight::new(alloc),
            topics: Topics::new(),
            trip: RoundTrip::new(),
            window: FIRST_WINDOW,
            time: 0,
            heard: 0,
            serial: 0,
            reached: 0,
            tick: 0,
            paced: 0,
        }
    }

    /// The parts that wait.
    pub fn waiting(&self) -> &Backlog
        ensures { result.now ≡ self.now.waiting }
    {
        &self.waiting
    }

    /// The parts in flight.
    pub fn flight(&self) -> &Flight
        ensures { result.now ≡ self.now.flight }
    {
        &self.flight
    }

    /// Whether nothing waits and nothing is in flight.
    pub fn is_at_rest(&self) -> bool
        ensures { result ≡ is_at_rest self.now }
    {
        self.waiting.len() == 0 && self.flight.len() == 0
    }

    /// How many parts go in a millisecond, beside those that the window lets go.
    fn pace(&self) -> usize
        ensures { result ≡ pace self.now }
    {
        (self.window * 4 / 9).max(1)
    }

    /// How many went in this millisecond.
    fn paced(&self) -> usize
        ensures { result ≡ paced_now self.now }
    {
        if self.tick == self.time / 1000 {
            self.paced
        } else {
            0
        }
    }

    /// How many may be in flight.
    fn room(&self) -> usize
        ensures { result ≡ room self.now }
    {
        self.window + self.trip.on_the_way(self.pace())
    }

    /// Whether a part waits for no acknowledgement, but for its turn.
    pub fn is_pressing(&self) -> bool
        ensures { result ≡ is_pressing self.now }
    {
        self.waiting.len() > 0 && self.flight.len() < self.room()
    }

    /// Whether one more may be sent now.
    fn has_room(&self) -> bool
        ensures { result ≡ has_room self.now }
    {
        self.flight.len() < self.window
            || self.flight.len() < self.room() && self.paced() < self.pace()
    }

    /// The time is this, or what it was, where that is later.
    pub fn set_time(&mut self, now: u64)
        ensures { self.new ≡ at_time now self.old }
    {
        self.time = self.time.max(now);
    }

    /// Nothing is on its way any more.
    fn give_up(&mut self)
        ensures { self.new ≡ given_up self.old }
    {
        self.waiting.clear();
        self.flight.clear();
        self.window = FIRST_WINDOW;
    }

    /// Takes a part: it waits then, to be sent. Or it is refused, and so is what its message has more.
    pub fn admit(&mut self, port: u16, bytes: &[u8]) -> Result<bool, NoMemory>
        ensures ok { IfOk result (λ it. (it ≡ is_admitted bytes.now self.old) × (self.new
            ≡ (if it then admitted port bytes.now self.old else turned_away bytes.now self.old))) }
        // Memory is taken for a part that waits alone.
        ensures err { OnErr result ((is_admitted bytes.now self.old ≡ true)
            × (self.new ≡ turned_away bytes.now self.old)) }
    {
        let message = name_of(bytes).message;
        match self
            .topics
            .choice(self.is_at_rest(), message, topic_of(bytes))
        {
            Choice::Goes => self.keep(port, bytes),
            Choice::Replaces => {
                self.give_up();
                self.keep(port, bytes)
            }
            Choice::Refused => {
                self.topics = self.topics.refusing(message);
                Ok(false)
            }
        }
    }

    /// Takes a part behind those that wait, where there is space.
    fn keep(&mut self, port: u16, bytes: &[u8]) -> Result<bool, NoMemory>
        ensures ok { IfOk result (λ it. (it ≡ has_space self.old) × (self.new
            ≡ (if it then kept port bytes.now self.old else away bytes.now self.old))) }
        ensures err { OnErr result ((has_space self.old ≡ true)
            × (self.new ≡ away bytes.now self.old)) }
    {
        let message = name_of(bytes).message;
        if self.waiting.len() >= MOST_WAITING {
            self.topics = self.topics.refusing(message);
            return Ok(false);
        }
        let is_at_rest = self.is_at_rest();
        if let Err(NoMemory) = self.waiting.push(port, bytes) {
            self.topics = self.topics.refusing(message);
            return Err(NoMemory);
        }
        self.topics = self.topics.begun(message, topic_of(bytes));
        if is_at_rest {
            self.heard = self.time;
        }
        Ok(true)
    }

    /// One is sent now.
    fn count(&mut self)
        ensures { self.new ≡ counted self.old }
    {
        self.paced = self.paced().saturating_add(1);
        self.tick = self.time / 1000;
        self.serial = self.serial.saturating_add(1);
    }

    /// The first part that waits is in flight from now on, where it may be sent: it is the last in flight then.
    pub fn advance(&mut self) -> bool
        ensures sent { IsTrue result → (has_room self.old ≡ true)
            × ((0 < length self.old.waiting) × (self.new ≡ advanced self.old)) }
        ensures none { IsFalse result → self.new ≡ self.old }
    {
        if !self.has_room() || self.flight.len() >= MOST_IN_FLIGHT {
            return false;
        }
        let sending = Sending {
            at: self.time,
            wait: self.trip.timeout(),
            serial: self.serial.saturating_add(1),
            is_again: false,
        };
        let is_sent = self.flight.take_first(&mut self.waiting, sending);
        if is_sent {
            self.count();
        }
        is_sent
    }

    /// Whether one in flight is to be sent again, by its place: the first one, or one that was sent before one that was acknowledged.
    fn is_due(&self, i: usize, sent: &Sent) -> bool
        ensures { result ≡ is_due i self.now (Some sent.now) }
    {
        (i == 0 || sent.sending.serial <= self.reached)
            && self.time.saturating_sub(sent.sending.at) >= sent.sending.wait
            && self.paced() < self.pace()
    }

    /// A new turn begins at this time.
    pub fn begin_turn(&mut self, now: u64)
        ensures { self.new ≡ turn_begun now self.old }
    {
        self.set_time(now);
        if !self.is_at_rest() && self.time.saturating_sub(self.heard) >= SILENCE_MICROS {
            self.give_up();
        }
    }

    /// One in flight, by its place, counts as sent again, where it is to be.
    pub fn resend(&mut self, i: usize) -> bool
        ensures is { result ≡ is_due i self.old (slice_get self.old.flight i) }
        ensures flow { self.new ≡ resent i self.old }
    {
        let Some(sent) = self.flight.get(i) else {
            return false;
        };
        if !self.is_due(i, sent) {
            return false;
        }
        self.count();
        self.flight.resend(i, self.time, self.serial);
        true
    }

    /// What the newest part that a port acknowledges tells, where it is in flight.
    fn measure(&mut self, newest: Option<Sending>)
        ensures { self.new ≡ told newest self.old }
    {
        let Some(newest) = newest else {
            return;
        };
        if !newest.is_again {
            self.trip = self.trip.measured(self.time.saturating_sub(newest.at));
        }
        self.reached = self.reached.max(newest.serial);
    }

    /// A port acknowledged parts, and says how many may be in flight from now on.
    pub fn acknowledge(&mut self, port: u16, ack: &Ack)
        ensures { self.new ≡ acknowledged port ack.now self.old }
    {
        let newest = self.flight.sending_of(port, ack.newest());
        self.measure(newest);
        self.flight.acknowledge(port, ack);
        self.window = if self.is_at_rest() {
            FIRST_WINDOW
        } else {
            usize::from(ack.window).min(MOST_WINDOW)
        };
        self.heard = self.time;
    }
}
