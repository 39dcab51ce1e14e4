//! What comes over the links in a turn of a gateway.

ghost use Rattle.std.specs.Prelude.{◌≡◌, ◌==◌};
ghost use Rattle.gate.specs.Carrying.{datagram_of, event_with, Runs, Took};
ghost use Rattle.gate.specs.Sides.{side, Side};

use crate::errors::GateError;
use crate::site::Site;
use gate_core::Event;
use nop_types::Bytes;
use outside::Link;
use users::Users;

/// How many datagrams of a link are taken in a turn at most, so that none waits for all others.
const MOST_DATAGRAMS: usize = 64;

const _: () = prove!(MOST_DATAGRAMS == 64);

/// The event of a datagram that came over the link at a place. The one behind the cores is the
/// watch's.
fn event_with(cores: usize, now: u64, place: usize, bytes: Bytes) -> Event
    ensures { result ≡ event_with (place == cores) now place bytes }
{
    if place == cores {
        Event::Watch {
            now,
            datagram: Some(bytes),
        }
    } else {
        Event::Datagram { core: place, bytes }
    }
}

impl<L: Link> Site<L> {
    /// The step of a datagram, if one came. Whether one did.
    fn take_polled<U: Users>(
        &mut self,
        place: usize,
        datagram: Option<Bytes>,
        users: &mut U,
    ) -> Result<bool, GateError>
        ensures { (before : Side)
            → Took (datagram_of self.old.lines.cores self.old.now place datagram) before
            (side L.Link U.Users self.old users.old)
            → Runs result before (side L.Link U.Users self.new users.new) }
    {
        match datagram {
            None => Ok(false),
            Some(bytes) => {
                let event = event_with(self.lines.cores, self.now, place, bytes);
                self.take_step(event, users)
            }
        }
    }

    /// A datagram that came over the link at a place, if one did, and its step. Whether there was
    /// one.
    fn take_datagram<U: Users>(&mut self, place: usize, users: &mut U) -> Result<bool, GateError>
        ensures { Runs result (side L.Link U.Users self.old users.old)
            (side L.Link U.Users self.new users.new) }
    {
        match self.poll(place) {
            Ok(datagram) => self.take_polled(place, datagram, users),
            Err(e) => Err(e),
        }
    }

    /// Whether the link at a place is polled in this turn: its core waits for an answer, or it is
    /// that of the watch, behind the cores; or it is the turn of this link.
    fn is_polled(&self, place: usize) -> bool {
        place == self.polled || place == self.lines.cores || self.lines.is_waiting(place)
    }

    /// The datagrams that came over the link at a place. Whether there was one.
    fn take_datagrams<U: Users>(&mut self, place: usize, users: &mut U) -> Result<bool, GateError>
        ensures { Runs result (side L.Link U.Users self.old users.old)
            (side L.Link U.Users self.new users.new) }
    {
        let mut some = false;
        for _ in 0..MOST_DATAGRAMS {
            if !self.is_polled(place) {
                return Ok(some);
            }
            match self.take_datagram(place, users) {
                Ok(here) => {
                    if !here {
                        return Ok(some);
                    }
                    some = true;
                }
                Err(e) => return Err(e),
            }
        }
        Ok(some)
    }

    /// The datagrams that came over all links. Whether there was one.
    pub(crate) fn take_all_datagrams<U: Users>(&mut self, users: &mut U) -> Result<bool, GateError>
        ensures { Runs result (side L.Link U.Users self.old users.old)
            (side L.Link U.Users self.new users.new) }
    {
        let mut some = false;
        for place in 0..self.lines.lines.len() {
            match self.take_datagrams(place, users) {
                Ok(here) => some = some || here,
                Err(e) => return Err(e),
            }
        }
        Ok(some)
    }
}
