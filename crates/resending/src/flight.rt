ghost use Rattle.std.specs.Prelude.{◌≡◌, ◌≤◌, ◌<◌, [], drop, find, length, option_map, slice_get, IsTrue, IsFalse};
ghost use Rattle.resending.specs.Flights.{is_it, is_taken, left, resent_at, twice, with_first};

use crate::acks::Ack;
use crate::backlog::{Backlog, Part};
use crate::names::Name;
use crate::round_trip::{MOST_ON_THE_WAY, MOST_TIMEOUT_MICROS};
use std::alloc::Global;
use std::marker::Model;

/// How many parts may be in flight to a port that are not on the way: what a receive buffer takes.
pub const MOST_WINDOW: usize = 36;

/// The most parts that are in flight to a port: sent to it, and neither acknowledged nor given up.
pub const MOST_IN_FLIGHT: usize = MOST_WINDOW + MOST_ON_THE_WAY;

const _: () = prove!(MOST_WINDOW == 36 && MOST_IN_FLIGHT == 1060);

/// When a part was sent, and which of all those to its port it was then.
#[derive(Clone, Copy)]
pub struct Sending {
    /// In microseconds of the clock.
    pub at: u64,
    /// After how many microseconds it is sent again.
    pub wait: u64,
    /// Its number among all that were sent.
    pub serial: u64,
    /// Whether it was sent before.
    pub is_again: bool,
}

/// A part in flight.
#[derive(Drop)]
pub struct Sent {
    pub part: Part,
    pub sending: Sending,
}

/// The parts that are in flight to a port, in the order in which they were sent first.
#[derive(Drop)]
pub struct Flight {
    sent: Vec<Sent>,
}

impl Model for Flight {
    ghost use Rattle.std.specs.Prelude.{List, length, ◌≤◌};
    ghost use Rattle.resending.specs.declared.flight.TheConstants.{MOST_IN_FLIGHT};
    ghost use Rattle.resending.specs.declared.flight.Sent.{Sent};

    ghost Value = { List Sent };

    ghost view = { λ f. f.sent.items };

    ghost invariant = { λ f. length f.sent.items ≤ MOST_IN_FLIGHT };
}

/// Twice the time, as far as a part waits.
fn twice(wait: u64) -> u64
    ensures { result ≡ twice wait }
{
    (2 * wait.min(MOST_TIMEOUT_MICROS)).min(MOST_TIMEOUT_MICROS)
}

/// Whether it is this part to this port.
fn is_it(port: u16, name: Name, sent: &Sent) -> bool
    ensures { result ≡ is_it port name sent.now }
{
    sent.part.port == port
        && sent.part.name.message == name.message
        && sent.part.name.index == name.index
}

/// Whether an acknowledgement from this port names it.
fn is_taken(port: u16, ack: &Ack, sent: &Sent) -> bool
    ensures { result ≡ is_taken port ack.now sent.now }
{
    sent.part.port == port && ack.is_named(sent.part.name)
}

/// A port acknowledged parts: those are in flight no more.
fn take_out(sent: &mut Vec<Sent>, port: u16, ack: &Ack)
    ensures left { sent.new.items ≡ left port ack.now sent.old.items }
    ensures fewer { length sent.new.items ≤ length sent.old.items }
{
    sent.retain(|s| !is_taken(port, ack, s));
}

impl Flight {
    /// Nothing is in flight.
    pub fn new(alloc: Global) -> Flight
        ensures { result ≡ [] }
    {
        Flight {
            sent: Vec::new(alloc),
        }
    }

    /// How many are in flight.
    pub fn len(&self) -> usize
        ensures { result ≡ length self.now }
    {
        self.sent.len()
    }

    /// One of them, by its place.
    pub fn get(&self, i: usize) -> Option<&Sent>
        ensures { option_map (λ sent. sent.now) result ≡ slice_get self.now i }
    {
        self.sent.get(i)
    }

    /// Takes the first one of those that wait. False where none waits, or no memory is left: then nothing changes.
    pub fn take_first(&mut self, waiting: &mut Backlog, sending: Sending) -> bool
        requires { length self.old < MOST_IN_FLIGHT }
        ensures taken { IsTrue result → (0 < length waiting.old)
            × ((self.new ≡ with_first (slice_get waiting.old 0) sending self.old)
            × (waiting.new ≡ drop 1 waiting.old)) }
        ensures none { IsFalse result → (self.new ≡ self.old) × (waiting.new ≡ waiting.old) }
    {
        if self.sent.reserve(1).is_err() {
            return false;
        }
        let Some(part) = waiting.pop() else {
            return false;
        };
        self.sent.push(Sent { part, sending }).unwrap();
        true
    }

    /// When a part to a port was sent last, if it is in flight.
    pub fn sending_of(&self, port: u16, name: Name) -> Option<Sending>
        ensures { result ≡ option_map (λ sent. sent.sending) (find (is_it port name) self.now) }
    {
        let sent = self.sent.iter().find(|s| is_it(port, name, s))?;
        Some(sent.sending)
    }

    /// A port acknowledged parts.
    pub fn acknowledge(&mut self, port: u16, ack: &Ack)
        ensures { self.new ≡ left port ack.now self.old }
    {
        take_out(&mut self.sent, port, ack);
    }

    /// One of them is sent again, with twice the time until it is once more.
    pub fn resend(&mut self, i: usize, now: u64, serial: u64)
        requires { i < length self.old }
        ensures { self.new ≡ resent_at i now serial self.old }
    {
        let wait = self.sent[i].sending.wait;
        self.sent[i].sending = Sending {
            at: now,
            wait: twice(wait),
            serial,
            is_again: true,
        };
    }

    /// Nothing is in flight any more.
    pub fn clear(&mut self)
        ensures { self.new ≡ [] }
    {
        self.sent.clear();
    }
}
