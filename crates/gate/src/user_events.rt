//! What users do in a turn of a gateway, and their requests that are read.

ghost use Rattle.std.specs.Prelude.{◌≡◌, ◌∷◌, []};
ghost use Rattle.gate_core.specs.declared.act.Event.TheVariants as events;
ghost use Rattle.gate_core.specs.declared.gate_state.GateState.{GateState};
ghost use Rattle.gate.specs.Carrying.{event_of, Asks, Runs, Took};
ghost use Rattle.gate.specs.Sides.{seen, side, users_seen, LinksSeen, Side};

use crate::errors::{GateError, users_fault};
use crate::site::Site;
use gate_core::Event;
use nop_types::NoMemory;
use outside::Link;
use users::{UserEvent, Users};

/// How many events of users and requests are taken in a turn at most, so that none waits for all
/// others.
const MOST_EVENTS: usize = 64;

const MOST_READS: usize = 1024;

const _: () = prove!(MOST_EVENTS == 64 && MOST_READS == 1024);

/// The next event of a user, if one comes while it is waited for.
fn next_event<U: Users>(users: &mut U, patience: u32) -> Result<Option<UserEvent>, GateError>
    ensures { (state : GateState) (links : LinksSeen) → Asks event_of result
        (seen state (users_seen U.Users users.old) links)
        (seen state (users_seen U.Users users.new) links) }
{
    match users.next(patience) {
        Ok(event) => Ok(event),
        Err(e) => Err(users_fault(e)),
    }
}

impl<L: Link> Site<L> {
    /// The next request of who sent something may be read, and no read of who left waits.
    fn make_ready_for(&mut self, event: &UserEvent) -> Result<(), NoMemory>
        ensures state { self.new.state ≡ self.old.state }
        ensures lines { self.new.lines ≡ self.old.lines }
    {
        match event {
            UserEvent::Sent { user, .. } => self.make_ready(*user),
            UserEvent::Left { user } => {
                self.readers.forget(*user);
                Ok(())
            }
            _ => Ok(()),
        }
    }

    /// The step of what a user did.
    fn take_event<U: Users>(&mut self, event: UserEvent, users: &mut U) -> Result<bool, GateError>
        ensures { (before : Side) → Took (events.User event ∷ []) before
            (side L.Link U.Users self.old users.old)
            → Runs result before (side L.Link U.Users self.new users.new) }
    {
        match self.make_ready_for(&event) {
            Ok(()) => self.take_step(Event::User(event), users),
            Err(NoMemory) => Err(GateError::NoMemory),
        }
    }

    /// The step of what a user did, if one did something. Whether one did.
    fn take_came<U: Users>(
        &mut self,
        event: Option<UserEvent>,
        users: &mut U,
    ) -> Result<bool, GateError>
        ensures { (before : Side) → Took (event_of event) before
            (side L.Link U.Users self.old users.old)
            → Runs result before (side L.Link U.Users self.new users.new) }
    {
        match event {
            None => Ok(false),
            Some(event) => self.take_event(event, users),
        }
    }

    /// What a user did, if something comes while it is waited for, and its step. Whether there was
    /// something.
    fn take_next<U: Users>(&mut self, patience: u32, users: &mut U) -> Result<bool, GateError>
        ensures { Runs result (side L.Link U.Users self.old users.old)
            (side L.Link U.Users self.new users.new) }
    {
        match next_event(users, patience) {
            Ok(event) => self.take_came(event, users),
            Err(e) => Err(e),
        }
    }

    /// What users did: the first event is waited for, as long as may be. Whether there was one.
    pub(crate) fn take_events<U: Users>(
        &mut self,
        patience: u32,
        users: &mut U,
    ) -> Result<bool, GateError>
        ensures { Runs result (side L.Link U.Users self.old users.old)
            (side L.Link U.Users self.new users.new) }
    {
        let mut some = false;
        for _ in 0..MOST_EVENTS {
            match self.take_next(if some { 0 } else { patience }, users) {
                Ok(here) => {
                    if !here {
                        return Ok(some);
                    }
                    some = true;
                }
                Err(e) => return Err(e),
            }
        }
        Ok(some)
    }

    /// The next request of the user that has waited longest is read. Whether there was such a user.
    fn read_next<U: Users>(&mut self, users: &mut U) -> Result<bool, GateError>
        ensures { Runs result (side L.Link U.Users self.old users.old)
            (side L.Link U.Users self.new users.new) }
    {
        match self.ready.pop_front() {
            None => Ok(false),
            Some(user) => self.take_step(Event::Read { user }, users),
        }
    }

    /// Requests are read, of each user in turn. Whether there was a user to read of.
    pub(crate) fn read_ready<U: Users>(&mut self, users: &mut U) -> Result<bool, GateError>
        ensures { Runs result (side L.Link U.Users self.old users.old)
            (side L.Link U.Users self.new users.new) }
    {
        let mut some = false;
        for _ in 0..MOST_READS {
            match self.read_next(users) {
                Ok(here) => {
                    if !here {
                        return Ok(some);
                    }
                    some = true;
                }
                Err(e) => return Err(e),
            }
        }
        Ok(some)
    }
}
