//! The datagrams of a run: who sent them, where to, and who took them.

ghost use Rattle.std.specs.Prelude.{◌≡◌, IfOk, OnErr, OnOk};
ghost use Rattle.picture_arrows.specs.Deliveries.{arrow_of, reached_by};

use crate::lane_actors::has;
use nop_types::{Actor, Dest, NoMemory};
use picture::{Arrow, Purpose};

/// What a datagram is for, the actor and the row that sent it, and where to.
#[derive(Clone, Copy)]
pub struct Leg {
    pub purpose: Purpose,
    pub from: Actor,
    pub sent: usize,
    pub dest: Dest,
}

/// A datagram with its texts, and the actors that took it, each once.
#[derive(Drop)]
pub struct Flight {
    pub leg: Leg,
    pub text: String,
    pub brief: String,
    pub reached: Vec<Actor>,
}

/// Keeps that an actor took a datagram in a row: the arrow.
pub fn deliver(flight: &mut Flight, to: Actor, taken: usize) -> Result<Arrow, NoMemory>
    ensures arrow { IfOk result (λ a.
        a ≡ arrow_of flight.old.leg flight.old.reached.items to taken) }
    ensures reached { OnOk result (flight.new.reached.items
        ≡ reached_by flight.old.reached.items to) }
    ensures err { OnErr result (flight.new.reached.items ≡ flight.old.reached.items) }
    ensures others { flight.new ≡ record flight.old { reached = flight.new.reached } }
{
    let again = has(&flight.reached, to);
    if !again {
        flight.reached.push(to)?;
    }
    Ok(Arrow {
        purpose: flight.leg.purpose,
        again,
        from: flight.leg.from,
        sent: flight.leg.sent,
        to,
        taken,
    })
}
