ghost use Rattle.std.specs.Prelude.{◌≡◌, ◌≢◌, ◌≤◌, ◌+◌, IfSome, IfNone, IfOk, OnSome, OnOk, OnErr};
ghost use Rattle.std.specs.FinMap as finite;
ghost use Rattle.nop_types.specs.Ranges.{StampedFits, RequestFits};

use crate::queue::Queue;
use crate::{Upcall, Verdict};
use nop_types::{MAX_QUEUED, NUMBER_END, NoMemory, Request, Stamped};
use std::alloc::Global;
use std::marker::Model;

/// The requests of one session that came and were not handed up yet, and the message number that is handed up next.
#[derive(Drop)]
pub struct Receiver {
    session: u64,
    next: u64,
    queue: Queue,
}

impl Model for Receiver {
    ghost use Rattle.oum_receiver.specs.Receiving.{Receiving, receiving_code, IsSound};

    ghost Value = { Receiving };

    ghost coded = { receiving_code };

    ghost view = { λ r. record { session = r.session; next = r.next; queued = r.queue } };

    ghost invariant = { λ r. IsSound (record {
      session = r.session;
      next = r.next;
      queued = r.queue;
    }) };
}

impl Receiver {
    ghost use Rattle.oum_receiver.specs.Front.{Nothing, front_given, request_in};
    ghost use Rattle.oum_receiver.specs.Receiving.{IsSound, opened, verdict_of, offered, front_of, front_taken};
    ghost use Rattle.oum_receiver.specs.Receiving.{advanced};

    /// A receiver with an empty queue.
    pub fn new(alloc: Global, session: u64, next: u64) -> Result<Receiver, NoMemory>
        requires { next ≤ NUMBER_END }
        ensures { IfOk result (λ r. r ≡ opened session next) }
    {
        Ok(Receiver {
            session,
            next,
            queue: Queue::new(alloc),
        })
    }

    pub fn session(&self) -> u64
        ensures { result ≡ self.now.session }
    {
        self.session
    }

    /// The message number that is handed up next.
    pub fn next(&self) -> u64
        ensures value { result ≡ self.now.next }
        ensures sound { IsSound self.now }
    {
        self.next
    }

    #[tactic(auto, unfolding(crate::specs::Receiving::verdict_of))]
    fn judge(&self, packet: &Stamped) -> Verdict
        ensures { result ≡ verdict_of self.now packet.now }
    {
        if packet.session > self.session {
            Verdict::Terminated(packet.session)
        } else if packet.session < self.session
            || packet.number < self.next
            || self.queue.get(packet.number).is_some()
        {
            Verdict::Old
        } else if self.queue.len() >= MAX_QUEUED {
            Verdict::Full
        } else {
            Verdict::Queued
        }
    }

    /// Puts a copy of the packet's request into the queue, where the verdict is Queued. Other packets change nothing and are
    /// not copied.
    pub fn offer(&mut self, packet: &Stamped) -> Result<Verdict, NoMemory>
        requires { StampedFits packet.now }
        ensures verdict { IfOk result (λ verdict. verdict ≡ verdict_of self.old packet.now) }
        ensures ok { OnOk result (self.new ≡ offered self.old packet.now) }
        ensures err { OnErr result (self.new ≡ self.old) }
    {
        let verdict = self.judge(packet);
        if let Verdict::Queued = verdict {
            let request = packet.request.try_clone()?;
            self.queue.insert(packet.number, request)?;
        }
        Ok(verdict)
    }

    /// The same with a packet that is given away: its request goes into the queue without a copy.
    pub fn offer_owned(&mut self, packet: Stamped) -> Result<Verdict, NoMemory>
        requires { StampedFits packet }
        ensures verdict { IfOk result (λ verdict. verdict ≡ verdict_of self.old packet) }
        ensures ok { OnOk result (self.new ≡ offered self.old packet) }
        ensures err { OnErr result (self.new ≡ self.old) }
    {
        let verdict = self.judge(&packet);
        if let Verdict::Queued = verdict {
            self.queue.insert(packet.number, packet.request)?;
        }
        Ok(verdict)
    }

    /// What stands at the next number: None where nothing is queued, else the request that is queued there or a drop.
    pub fn front(&self) -> Option<Upcall<'_>>
        ensures front { front_given result ≡ front_of self.now }
        ensures fits { IfSome (request_in (front_given result)) RequestFits }
    {
        if self.queue.len() == 0 {
            return None;
        }
        match self.queue.get(self.next) {
            Some(request) => Some(Upcall::Message(request)),
            None => Some(Upcall::Drop),
        }
    }

    /// Goes past the front, a request or a drop.
    pub fn take_front(&mut self)
        requires { front_of self.old ≢ Nothing }
        ensures { self.new ≡ front_taken self.old }
    {
        let _request = self.queue.remove(self.next);
        self.next += 1;
    }

    /// Goes past the front and hands its request out without a copy, where a request stands there. A drop stays in front.
    pub fn take_message(&mut self) -> Option<Request>
        ensures request { result ≡ request_in (front_of self.old) }
        ensures taken { OnSome result (self.new ≡ front_taken self.old) }
        ensures fewer { OnSome result (finite.len self.new.queued + 1
            ≡ finite.len self.old.queued) }
        ensures fits { IfSome result RequestFits }
        ensures stays { IfNone result (self.new ≡ self.old) }
    {
        let request = self.queue.remove(self.next)?;
        self.next += 1;
        Some(request)
    }

    /// Sets the next number, up or down, and drops what is queued below it.
    pub fn advance(&mut self, next: u64)
        requires { next ≤ NUMBER_END }
        ensures { self.new ≡ advanced self.old next }
    {
        self.queue.drop_below(next);
        self.next = next;
    }

    /// Begins a session with an empty queue.
    pub fn reset(&mut self, session: u64, next: u64)
        requires { next ≤ NUMBER_END }
        ensures { self.new ≡ opened session next }
    {
        self.queue.clear();
        self.session = session;
        self.next = next;
    }
}
