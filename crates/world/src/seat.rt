ghost use Rattle.std.specs.Prelude.{
  ◌≡◌,
  ◌↔◌,
  ◌<◌,
  IsSome,
  OnOk,
  IfOk,
  IfErr,
  false,
  length,
  option_map,
  slice_get,
  map,
};
ghost use Rattle.world.specs.Seats.{seat_step};
ghost use Rattle.network.specs.Network.{did_of};
ghost use Rattle.world.specs.SeatOutcomes.{seated_of, owned, Moves, MovesAt, Refuses};
ghost use Rattle.world.specs.Lookups.{timers_if};
ghost use Rattle.world.specs.WorldSteps.{crashed_in, step_at, step_with, stimulus_of};

use crate::step_error::StepError;
use crate::stimulus::{Stimulus, stimulus_of};
use network::Network;
use nop_types::{Config, Core, Input, NoMemory, Outbox, Tick};
use schedule_text::Event;
use std::alloc::Global;

/// An actor: its core, and whether it crashed.
#[derive(Drop)]
pub struct Seat<C> {
    pub core: C,
    pub crashed: bool,
}

impl<C: Core> Seat<C> {
    pub fn new(core: C) -> Seat<C>
        ensures { result ≡ record { core = core; crashed = false } }
    {
        Seat {
            core,
            crashed: false,
        }
    }

    /// One step of an actor, None where it crashed before.
    fn step(&mut self, alloc: Global, stimulus: Stimulus<'_>) -> Result<Option<Outbox>, NoMemory>
        ensures state { OnOk result (seated_of C.state self.new
            ≡ (seat_step C.next (seated_of C.state self.old) (owned stimulus.entry)).0) }
        ensures did { IfOk result (λ outs. did_of outs
            ≡ (seat_step C.next (seated_of C.state self.old) (owned stimulus.entry)).1) }
    {
        if self.crashed {
            return Ok(None);
        }
        let mut out = Outbox::new(alloc);
        match stimulus {
            Stimulus::Input(input) => self.core.step(input, &mut out)?,
            Stimulus::Datagram(bytes) => {
                self.core.step(Input::Packet(bytes.as_slice()), &mut out)?
            }
            Stimulus::Crash => self.crashed = true,
        }
        Ok(Some(out))
    }

    /// The step that an event of this actor is.
    pub fn take(
        &mut self,
        alloc: Global,
        config: Config,
        network: &Network,
        event: &Event,
    ) -> Result<Option<Outbox>, StepError>
        ensures ok { IfOk result (λ outs. Moves C.state
            (step_with C.next (seated_of C.state self.old)
            (stimulus_of config network.now event.now)) self.new outs) }
        ensures err { IfErr result (λ e. Refuses e
            (step_with C.next (seated_of C.state self.old)
            (stimulus_of config network.now event.now)) (self.new ≡ self.old)) }
    {
        let what = stimulus_of(alloc, config, network, event)?;
        Ok(self.step(alloc, what)?)
    }
}

/// The step that an event is of the actor with this number.
pub fn take_at<C: Core>(
    alloc: Global,
    config: Config,
    network: &Network,
    seats: &mut Vec<Seat<C>>,
    i: usize,
    event: &Event,
) -> Result<Option<Outbox>, StepError>
    ensures count { length seats.new.items ≡ length seats.old.items }
    ensures ok { IfOk result (λ outs. MovesAt C.state
        (step_at C.next (slice_get (map (seated_of C.state) seats.old.items) i)
        (stimulus_of config network.now event.now)) seats.old.items i seats.new.items outs) }
    ensures err { IfErr result (λ e. Refuses e
        (step_at C.next (slice_get (map (seated_of C.state) seats.old.items) i)
        (stimulus_of config network.now event.now)) (seats.new.items ≡ seats.old.items)) }
{
    if i >= seats.len() {
        return Err(StepError::NoSuchActor);
    }
    let seat = &mut seats[i];
    seat.take(alloc, config, network, event)
}

/// The actor with this number, None where there is none.
pub fn seat_at<C: Core>(seats: &[Seat<C>], number: usize) -> Option<&Seat<C>>
    ensures { option_map (λ p. seated_of C.state p.now) result
        ≡ slice_get (map (seated_of C.state) seats.now) number }
{
    match seats.get(number) {
        Some(seat) => Some(seat),
        None => None,
    }
}

/// The core of the actor with this number, None where there is none.
pub fn core_at<C: Core>(seats: &[Seat<C>], number: usize) -> Option<&C>
    ensures some { IsSome result ↔ (number < length seats.now) }
    ensures state { option_map (λ c. C.state c.now) result
        ≡ option_map (λ p. p.state) (slice_get (map (seated_of C.state) seats.now) number) }
{
    match seats.get(number) {
        Some(seat) => Some(&seat.core),
        None => None,
    }
}

/// Whether the actor with this number crashed, false where there is none.
pub fn is_crashed<C: Core>(seats: &[Seat<C>], i: usize) -> bool
    ensures { result ≡ crashed_in (slice_get (map (seated_of C.state) seats.now) i) }
{
    match seat_at(seats, i) {
        Some(seat) => seat.crashed,
        None => false,
    }
}

/// A timer of the actor with this number, None where there is none.
pub fn timer_at<C: Core>(seats: &[Seat<C>], number: usize, i: u8) -> Option<(Tick, u64)>
    ensures { result ≡ slice_get (timers_if (slice_get (map (seated_of C.state) seats.now) number)
        C.timers) i }
{
    match seat_at(seats, number) {
        Some(seat) => seat.core.timer(i),
        None => None,
    }
}
