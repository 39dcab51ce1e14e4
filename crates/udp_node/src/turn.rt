ghost use Rattle.std.specs.Prelude.{◌≡◌, ◌∷◌, [], option_map};
ghost use Rattle.nop_types.specs.Given.{given, Packet};
ghost use Rattle.udp_node.specs.NodeRun.{first_inputs};
ghost use Rattle.udp_node.specs.Nodes.{Faults, Same, Takes, TakesTurn};
ghost use Rattle.udp_node.specs.Turns.{error_of};

use crate::errors::ServeError;
use crate::firing::{Timer, rearm_due};
use crate::node::Node;
use crate::polling::poll_link;
use nop_types::{Bytes, Core, Input};
use outside::{Link, LinkError, Sink, WriteError};

pub(crate) fn error_of(error: WriteError) -> ServeError
    ensures { result ≡ error_of error }
{
    match error {
        WriteError::Failed => ServeError::WriteFault,
        WriteError::NoMemory => ServeError::NoMemory,
    }
}

impl<C: Core, L: Link, W: Sink> Node<'_, '_, '_, C, L, W> {
    /// The core takes a datagram.
    fn take_packet(&mut self, datagram: Bytes) -> Result<(), WriteError>
        ensures { Takes C.Core L.Link W.Sink self.old self.new (Packet datagram ∷ []) result }
    {
        self.take_step(Input::Packet(datagram.as_slice()))
    }

    /// A step before the first turn, if there is one.
    pub(crate) fn take_first(&mut self, first: Option<Input<'_>>) -> Result<(), WriteError>
        ensures { Takes C.Core L.Link W.Sink self.old self.new
            (first_inputs (option_map given first.entry)) result }
    {
        match first {
            Some(input) => self.take_step(input),
            None => Ok(()),
        }
    }

    /// One turn: the timers that are due fire, and then one poll, whose datagram the core takes.
    pub(crate) fn take_turn(&mut self, timers: &mut Vec<Timer>, now: u64) -> Result<(), ServeError>
        ensures turn { TakesTurn C.Core L.Link W.Sink self.old self.new now timers.old.items
            timers.new.items result }
        ensures faults { Faults L.Link W.Sink self.old self.new result }
        ensures same { Same L.Link self.old self.new }
    {
        match self.fire_due(timers, now) {
            Ok(()) => {}
            Err(e) => return Err(error_of(e)),
        }
        rearm_due(timers, now);
        match poll_link(self.link, &mut self.lost) {
            Ok(None) => Ok(()),
            Ok(Some(datagram)) => match self.take_packet(datagram) {
                Ok(()) => Ok(()),
                Err(e) => Err(error_of(e)),
            },
            Err(LinkError::Failed) => Err(ServeError::LinkFault),
            Err(LinkError::NoMemory) => Err(ServeError::NoMemory),
        }
    }
}
