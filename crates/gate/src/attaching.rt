//! Where the links of the client cores, and that of the watch, are attached.

ghost use Rattle.std.specs.Prelude.{◌≡◌, ◌≤◌, ◌+◌, ◌^◌, length, IfOk};
ghost use Rattle.gate.specs.Attaching.{seat_count};

use crate::lines::Timers;
use attached_links::Seat;
use client_call::Service;
use nop_types::{Actor, NoMemory};
use std::alloc::Global;
use udp_node::Address;

/// Whose places a gateway has: those of the clients with the numbers from `first` to `first + count
/// - 1`, and that of an observer, where it watches, or none.
#[derive(Clone, Copy)]
pub struct Seats {
    pub first: u32,
    pub count: usize,
    pub observer: Option<u8>,
}

/// How many there are.
fn seat_count(seats: Seats) -> usize
    requires { seats.first + seats.count ≤ 2 ^ 32 }
    ensures { result ≡ seat_count seats.observer seats.count }
{
    match seats.observer {
        Some(_) => seats.count + 1,
        None => seats.count,
    }
}

/// Whose place is the one with this number: the clients come first.
fn actor_at(seats: Seats, place: usize) -> Actor
    requires { seats.first + seats.count ≤ 2 ^ 32 }
{
    if place < seats.count {
        return Actor::Client(seats.first + place as u32);
    }
    match seats.observer {
        Some(observer) => Actor::Observer(observer),
        None => Actor::Client(seats.first),
    }
}

/// The seat of an actor.
fn seat(alloc: Global, service: &Service, own: Actor) -> Seat<Timers> {
    Seat {
        at: Address {
            base: service.base,
            own,
            config: service.config,
        },
        state: Timers::new(alloc),
    }
}

/// The seats of all.
pub(crate) fn all_seats(
    alloc: Global,
    service: &Service,
    seats: Seats,
) -> Result<Vec<Seat<Timers>>, NoMemory>
    requires { seats.first + seats.count ≤ 2 ^ 32 }
    ensures { IfOk result (λ all. length all.items ≡ seat_count seats.observer seats.count) }
{
    let mut all = Vec::new(alloc);
    for i in 0..seat_count(seats) {
        all.push(seat(alloc, service, actor_at(seats, i)))?;
    }
    Ok(all)
}
