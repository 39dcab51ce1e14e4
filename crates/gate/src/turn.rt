//! A turn of a gateway.

ghost use Rattle.std.specs.Prelude.{◌≡◌};
ghost use Rattle.gate.specs.Carrying.{IsInside, Runs, Untaken};
ghost use Rattle.gate.specs.Sides.{links_seen, side};

use crate::errors::GateError;
use crate::site::Site;
use gate_core::Event;
use outside::Link;
use users::Users;

/// After so many milliseconds without an op the gateway asks for something itself.
const IDLE_MILLIS: u64 = 500;

const _: () = prove!(IDLE_MILLIS == 500);

/// The observer that a core asks: each core has one, those of all cores are spread over all but the
/// place that is the gateway's own.
fn observer_of(core: usize, observers: u8, own: Option<u8>) -> u8 {
    if observers == 0 {
        return 0;
    }
    let other = u8::try_from(core % usize::from(observers)).unwrap_or(0);
    match own {
        Some(own) if own <= other => other.saturating_add(1),
        _ => other,
    }
}

impl<L: Link> Site<L> {
    /// The step of an event that comes from no device, if it is due.
    fn step_if<U: Users>(
        &mut self,
        due: bool,
        event: Event,
        users: &mut U,
    ) -> Result<bool, GateError>
        requires { IsInside event }
        ensures { Runs result (side L.Link U.Users self.old users.old)
            (side L.Link U.Users self.new users.new) }
    {
        if due {
            self.take_step(event, users)
        } else {
            Ok(false)
        }
    }

    /// A core sends its open requests and its read again, if its time has come.
    fn retry<U: Users>(&mut self, core: usize, users: &mut U) -> Result<bool, GateError>
        ensures { Runs result (side L.Link U.Users self.old users.old)
            (side L.Link U.Users self.new users.new) }
    {
        let due = self.lines.is_due(core, self.now);
        self.step_if(due, Event::Retry { core }, users)
    }

    /// The cores whose time has come send their open requests again.
    fn retry_due<U: Users>(&mut self, users: &mut U) -> Result<(), GateError>
        ensures { Runs result (side L.Link U.Users self.old users.old)
            (side L.Link U.Users self.new users.new) }
    {
        for core in 0..self.lines.cores {
            if let Err(e) = self.retry(core, users) {
                return Err(e);
            }
        }
        Ok(())
    }

    /// The read that a core has under way is asked for by another one, if its observer did not
    /// answer for long and there are other observers.
    fn reassign<U: Users>(&mut self, core: usize, users: &mut U) -> Result<bool, GateError>
        ensures { Runs result (side L.Link U.Users self.old users.old)
            (side L.Link U.Users self.new users.new) }
    {
        let others = 1 < self.state.observers;
        let due = self.lines.is_overdue(core, others, self.now);
        self.step_if(due, Event::Reassign { core }, users)
    }

    /// The user whose read a core asks for next, if it has none under way.
    fn next_reader(&mut self, core: usize) -> Option<u64>
        ensures state { self.new.state ≡ self.old.state }
        ensures lines { self.new.lines ≡ self.old.lines }
    {
        if self.lines.reads_nothing(core) {
            self.readers.take_first(self.now)
        } else {
            None
        }
    }

    /// A core asks an observer for the key of the read that has waited longest. Whether there was
    /// one.
    fn ask_next<U: Users>(&mut self, core: usize, users: &mut U) -> Result<bool, GateError>
        ensures { Runs result (side L.Link U.Users self.old users.old)
            (side L.Link U.Users self.new users.new) }
    {
        match self.next_reader(core) {
            None => Ok(false),
            Some(user) => {
                let observer = observer_of(core, self.state.observers, self.own);
                self.take_step(
                    Event::Ask {
                        core,
                        observer,
                        user,
                    },
                    users,
                )
            }
        }
    }

    /// A core gives up a read that is not answered, and asks for another one.
    fn read_at<U: Users>(&mut self, core: usize, users: &mut U) -> Result<bool, GateError>
        ensures { Runs result (side L.Link U.Users self.old users.old)
            (side L.Link U.Users self.new users.new) }
    {
        match self.reassign(core, users) {
            Ok(_) => self.ask_next(core, users),
            Err(e) => Err(e),
        }
    }

    /// The cores that have no read under way ask for those that wait.
    fn ask_reads<U: Users>(&mut self, users: &mut U) -> Result<(), GateError>
        ensures { Runs result (side L.Link U.Users self.old users.old)
            (side L.Link U.Users self.new users.new) }
    {
        for core in 0..self.lines.cores {
            if let Err(e) = self.read_at(core, users) {
                return Err(e);
            }
        }
        Ok(())
    }

    /// Whether nobody asked for anything for a while; then the while begins again.
    fn is_idle(&mut self) -> bool
        ensures state { self.new.state ≡ self.old.state }
        ensures lines { self.new.lines ≡ self.old.lines }
    {
        if self.state.is_idle() && IDLE_MILLIS <= self.now.saturating_sub(self.submitted) {
            self.submitted = self.now;
            true
        } else {
            false
        }
    }

    /// Where nobody asked for anything for a while, the gateway does, so that a service whose
    /// leader failed finds it out.
    fn ask_if_idle<U: Users>(&mut self, users: &mut U) -> Result<bool, GateError>
        ensures { Runs result (side L.Link U.Users self.old users.old)
            (side L.Link U.Users self.new users.new) }
    {
        let due = self.is_idle();
        self.step_if(due, Event::Idle, users)
    }

    /// Requests are read. Whether something came, before or now.
    fn read_after<U: Users>(&mut self, some: bool, users: &mut U) -> Result<bool, GateError>
        ensures { Runs result (side L.Link U.Users self.old users.old)
            (side L.Link U.Users self.new users.new) }
    {
        match self.read_ready(users) {
            Ok(read) => Ok(some || read),
            Err(e) => Err(e),
        }
    }

    /// What users did, and then requests. Whether something came, over links or from users.
    fn take_from_users<U: Users>(
        &mut self,
        received: bool,
        patience: u32,
        users: &mut U,
    ) -> Result<bool, GateError>
        ensures { Runs result (side L.Link U.Users self.old users.old)
            (side L.Link U.Users self.new users.new) }
    {
        match self.take_events(if received { 0 } else { patience }, users) {
            Ok(came) => self.read_after(received || came, users),
            Err(e) => Err(e),
        }
    }

    fn take_from_outside<U: Users>(
        &mut self,
        patience: u32,
        users: &mut U,
    ) -> Result<bool, GateError>
        ensures { Runs result (side L.Link U.Users self.old users.old)
            (side L.Link U.Users self.new users.new) }
    {
        match self.take_all_datagrams(users) {
            Ok(received) => self.take_from_users(received, patience, users),
            Err(e) => Err(e),
        }
    }

    fn read_and_take<U: Users>(&mut self, patience: u32, users: &mut U) -> Result<bool, GateError>
        ensures { Runs result (side L.Link U.Users self.old users.old)
            (side L.Link U.Users self.new users.new) }
    {
        match self.ask_reads(users) {
            Ok(()) => self.ask_and_take(patience, users),
            Err(e) => Err(e),
        }
    }

    fn ask_and_take<U: Users>(&mut self, patience: u32, users: &mut U) -> Result<bool, GateError>
        ensures { Runs result (side L.Link U.Users self.old users.old)
            (side L.Link U.Users self.new users.new) }
    {
        match self.ask_if_idle(users) {
            Ok(_) => self.take_from_outside(patience, users),
            Err(e) => Err(e),
        }
    }

    /// The link behind that which was polled last in any case.
    fn next_polled(&self) -> usize {
        let next = self.polled.saturating_add(1);
        if next < self.lines.lines.len() {
            next
        } else {
            0
        }
    }

    /// The nodes are asked whether they are there, if there is a watch and it is time for a round.
    fn ask_nodes(&mut self)
        ensures state { self.new.state ≡ self.old.state }
        ensures links { Untaken (links_seen L.Link self.old.lines)
            (links_seen L.Link self.new.lines) }
    {
        if let Some(watch) = &self.state.watch {
            self.lines.ask(watch.roll(), self.now);
        }
    }

    /// It is so late for the watch, if there is one.
    fn tick<U: Users>(&mut self, users: &mut U) -> Result<bool, GateError>
        ensures { Runs result (side L.Link U.Users self.old users.old)
            (side L.Link U.Users self.new users.new) }
    {
        self.ask_nodes();
        let due = self.state.watch.is_some();
        let event = Event::Watch {
            now: self.now,
            datagram: None,
        };
        self.step_if(due, event, users)
    }

    fn tick_and_take<U: Users>(&mut self, patience: u32, users: &mut U) -> Result<bool, GateError>
        ensures { Runs result (side L.Link U.Users self.old users.old)
            (side L.Link U.Users self.new users.new) }
    {
        match self.tick(users) {
            Ok(_) => self.read_and_take(patience, users),
            Err(e) => Err(e),
        }
    }

    /// A turn at a time. Whether something came in it.
    pub(crate) fn take_turn<U: Users>(
        &mut self,
        now: u64,
        patience: u32,
        users: &mut U,
    ) -> Result<bool, GateError>
        ensures { Runs result (side L.Link U.Users self.old users.old)
            (side L.Link U.Users self.new users.new) }
    {
        self.now = now;
        self.polled = self.next_polled();
        match self.retry_due(users) {
            Ok(()) => self.tick_and_take(patience, users),
            Err(e) => Err(e),
        }
    }
}
