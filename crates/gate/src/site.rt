//! A gateway with its links: it takes steps, and carries out what is done in them.

ghost use Rattle.std.specs.Prelude.{◌≡◌, ◌∷◌, []};
ghost use Rattle.users.specs.declared.event.UserCall.TheVariants as calls;
ghost use Rattle.gate.specs.Carrying.{call_of, calls_of, datagram_of};
ghost use Rattle.gate.specs.Carrying.{Asks, MakesAll, Runs, Steps, Took};
ghost use Rattle.gate.specs.Sides.{side, side_with, Side, UsersSeen};

use crate::errors::{GateError, link_fault};
use crate::lines::Lines;
use crate::readers::Readers;
use gate_core::{Act, Event, GateState};
use nop_types::{Bytes, NoMemory};
use outside::Link;
use std::alloc::Global;
use std::collections::VecDeque;
use users::Users;

/// The core, its links, the observer at whose place its watch is, if it has one, the users of whom
/// a request may be read and those whose reads wait for a core, the time of the turn since the
/// gateway began, the place of the link that is polled in it in any case, and when something was
/// submitted last.
pub(crate) struct Site<L> {
    pub(crate) alloc: Global,
    pub(crate) state: GateState,
    pub(crate) lines: Lines<L>,
    pub(crate) own: Option<u8>,
    pub(crate) ready: VecDeque<u64>,
    pub(crate) readers: Readers,
    pub(crate) now: u64,
    pub(crate) polled: usize,
    pub(crate) submitted: u64,
}

impl<L: Link> Site<L> {
    /// The user's next request may be read.
    pub(crate) fn make_ready(&mut self, user: u64) -> Result<(), NoMemory>
        ensures state { self.new.state ≡ self.old.state }
        ensures lines { self.new.lines ≡ self.old.lines }
    {
        self.ready.push_back(user)?;
        Ok(())
    }

    /// A read of the user waits for a core.
    fn make_wait(&mut self, user: u64, again: bool) -> Result<(), NoMemory>
        ensures state { self.new.state ≡ self.old.state }
        ensures lines { self.new.lines ≡ self.old.lines }
    {
        self.readers.push(user, again, self.now)
    }

    /// The next datagram that came over the link at a place.
    pub(crate) fn poll(&mut self, place: usize) -> Result<Option<Bytes>, GateError>
        ensures asks { (users : UsersSeen)
            → Asks (datagram_of self.old.lines.cores self.old.now place) result
            (side_with L.Link self.old users) (side_with L.Link self.new users) }
        ensures cores { self.new.lines.cores ≡ self.old.lines.cores }
        ensures now { self.new.now ≡ self.old.now }
    {
        if place >= self.lines.lines.len() {
            return Ok(None);
        }
        let line = &mut self.lines.lines[place];
        match line.poll() {
            Ok(datagram) => Ok(datagram),
            Err(e) => Err(link_fault(e)),
        }
    }

    /// A user is replied to, and its next request may be read.
    fn reply<U: Users>(&mut self, user: u64, bytes: &[u8], users: &mut U) -> Result<(), NoMemory>
        ensures makes { MakesAll (calls.Replied user bytes.now ∷ []) result
            (side L.Link U.Users self.old users.old) (side L.Link U.Users self.new users.new) }
        ensures state { self.new.state ≡ self.old.state }
    {
        match users.reply(user, bytes) {
            Ok(()) => self.make_ready(user),
            Err(e) => Err(e),
        }
    }

    fn carry_out<U: Users>(&mut self, act: Act, users: &mut U) -> Result<(), NoMemory>
        ensures makes { MakesAll (call_of act) result (side L.Link U.Users self.old users.old)
            (side L.Link U.Users self.new users.new) }
        ensures state { self.new.state ≡ self.old.state }
    {
        match act {
            Act::Send { core, dest, bytes } => self.lines.send(core, dest, bytes.as_slice()),
            Act::Submitted { core, id } => {
                self.submitted = self.now;
                self.lines.submitted(core, id, self.now)
            }
            Act::Accepted { core, id } => {
                self.lines.accepted(core, id, self.now);
                Ok(())
            }
            Act::Reading { core, id } => self.lines.asked(core, id, self.now),
            Act::Answered { core, id } => {
                self.lines.answered(core, id, self.now);
                Ok(())
            }
            Act::Waits { user, again } => self.make_wait(user, again),
            Act::Reply { user, bytes } => self.reply(user, bytes.as_slice(), users),
            Act::Close { user } => users.close(user),
        }
    }

    fn carry_out_all<U: Users>(&mut self, acts: Vec<Act>, users: &mut U) -> Result<(), NoMemory>
        ensures makes { MakesAll (calls_of acts.items) result
            (side L.Link U.Users self.old users.old) (side L.Link U.Users self.new users.new) }
        ensures state { self.new.state ≡ self.old.state }
    {
        for act in acts {
            if let Err(e) = self.carry_out(act, users) {
                return Err(e);
            }
        }
        Ok(())
    }

    /// A step, and all that is done in it.
    fn step<U: Users>(&mut self, event: Event, users: &mut U) -> Result<(), NoMemory>
        ensures { Steps event result (side L.Link U.Users self.old users.old)
            (side L.Link U.Users self.new users.new) }
    {
        let mut acts = Vec::new(self.alloc);
        match self.state.step(self.alloc, event, &mut acts) {
            Ok(()) => self.carry_out_all(acts, users),
            Err(e) => Err(e),
        }
    }

    /// The step of an event that was taken.
    pub(crate) fn take_step<U: Users>(
        &mut self,
        event: Event,
        users: &mut U,
    ) -> Result<bool, GateError>
        ensures { (before : Side)
            → Took (event ∷ []) before (side L.Link U.Users self.old users.old)
            → Runs result before (side L.Link U.Users self.new users.new) }
    {
        match self.step(event, users) {
            Ok(()) => Ok(true),
            Err(NoMemory) => Err(GateError::NoMemory),
        }
    }
}
