//! The loop of a gateway.

ghost use Rattle.std.specs.Prelude.{◌≡◌, ◌≤◌, ◌+◌, ◌^◌, length, IfOk};
ghost use Rattle.attached_links.specs.Attaching.{HasRoom};
ghost use Rattle.outside.specs.Causes.{CountsFor};
ghost use Rattle.gate_core.specs.Gates.{opening};
ghost use Rattle.gate.specs.Carrying.{Runs};
ghost use Rattle.gate.specs.Serving.{RunsOver, Serves, near_at, watch_at};
ghost use Rattle.gate.specs.Sides.{lines_seen, seen, side, users_seen};
ghost use Rattle.gate.specs.declared.errors.GateError.TheVariants as errors;

use crate::attaching::{Seats, all_seats};
use crate::errors::{GateError, port_fault};
use crate::lines::{Lines, Timers};
use crate::readers::Readers;
use crate::site::Site;
use attached_links::{AttachedLink, attach_all, detach_all};
use client_call::Service;
use gate_core::GateState;
use kv_host::KvHost;
use nop_types::{Config, MAX_OBSERVERS, NoMemory};
use observer::Observer;
use outside::{Clock, Link, Ports};
use roll_call::Roll;
use std::alloc::Global;
use std::collections::VecDeque;
use users::Users;
use watching::Watch;

/// After so many turns in which nothing came a turn waits for users.
const QUIET_TURNS: u32 = 2;

/// So many milliseconds.
const PATIENCE_MILLIS: u32 = 1;

const _: () = prove!(QUIET_TURNS == 2 && PATIENCE_MILLIS == 1);

/// For how long a turn waits after so many in which nothing came.
fn patience_after(quiet: u32) -> u32 {
    if quiet < QUIET_TURNS {
        0
    } else {
        PATIENCE_MILLIS
    }
}

/// So many turns in which nothing came, with this one, if something came in it or not.
fn quiet_after(quiet: u32, some: bool) -> u32 {
    if some { 0 } else { quiet.saturating_add(1) }
}

/// A watch at the place of an observer, if there is one, which asks the nodes of the roll.
fn watch_at(
    alloc: Global,
    config: Config,
    observer: Option<u8>,
    roll: Roll,
) -> Result<Option<Watch>, NoMemory>
    ensures { IfOk result (λ watch. watch ≡ watch_at observer roll config) }
{
    match observer {
        Some(_) => Ok(Some(Watch::new(alloc, config, false, roll)?)),
        None => Ok(None),
    }
}

/// An observer at that place, in this process.
fn near_at(
    alloc: Global,
    config: Config,
    observer: Option<u8>,
) -> Result<Option<Observer<KvHost>>, NoMemory>
    ensures { IfOk result (λ near. near ≡ near_at observer config) }
{
    match observer {
        Some(number) if number < MAX_OBSERVERS => {
            Ok(Some(Observer::new(alloc, config, number)?))
        }
        _ => Ok(None),
    }
}

/// The core before its first turn.
fn first_state(
    alloc: Global,
    config: Config,
    seats: Seats,
    roll: Roll,
) -> Result<GateState, NoMemory>
    requires { seats.first + seats.count ≤ 2 ^ 32 }
    ensures { IfOk result (λ g. g ≡ opening config seats.first seats.count
        (watch_at seats.observer roll config) (near_at seats.observer config)) }
{
    let watch = watch_at(alloc, config, seats.observer, roll)?;
    let near = near_at(alloc, config, seats.observer)?;
    GateState::new(alloc, config, seats.first, seats.count, watch, near)
}

fn take_turns<L: Link, U: Users, C: Clock>(
    turns: u64,
    site: &mut Site<L>,
    users: &mut U,
    clock: &mut C,
) -> Result<(), GateError>
    ensures { Runs result (side L.Link U.Users site.old users.old)
        (side L.Link U.Users site.new users.new) }
{
    let began = clock.now();
    let mut quiet: u32 = 0;
    for _ in 0..turns {
        let patience = patience_after(quiet);
        let now = clock.now().saturating_sub(began);
        match site.take_turn(now, patience, users) {
            Ok(some) => quiet = quiet_after(quiet, some),
            Err(e) => return Err(e),
        }
    }
    Ok(())
}

/// Serves users over links that are attached, and gives these back.
fn serve_over<P: Ports, U: Users, C: Clock>(
    alloc: Global,
    state: GateState,
    seats: Seats,
    turns: u64,
    lines: Vec<AttachedLink<P::L, Timers>>,
    ports: &mut P,
    users: &mut U,
    clock: &mut C,
) -> Result<(), GateError>
    requires { HasRoom (P.attached ports.old) (P.detached ports.old) lines.items }
    ensures runs { RunsOver P.L.Link result
        (seen state (users_seen U.Users users.old)
        (record { cores = seats.count; links = lines_seen P.L.Link lines.items }))
        (users_seen U.Users users.new) (P.detached ports.old) (P.detached ports.new) }
    ensures back { length (P.detached ports.new)
        ≡ length (P.detached ports.old) + length lines.items }
    ensures attached { P.attached ports.new ≡ P.attached ports.old }
    ensures faults { P.fault_count ports.new ≡ P.fault_count ports.old }
{
    let mut site = Site {
        alloc,
        state,
        lines: Lines {
            lines,
            cores: seats.count,
            submitted: 0,
        },
        own: seats.observer,
        ready: VecDeque::new(alloc),
        readers: Readers::new(alloc),
        now: 0,
        polled: 0,
        submitted: 0,
    };
    let served = take_turns(turns, &mut site, users, clock);
    let Site {
        alloc: _,
        state: _state,
        lines,
        own: _,
        ready: _ready,
        readers: _readers,
        now: _,
        polled: _,
        submitted: _,
    } = site;
    let Lines {
        lines,
        cores: _,
        submitted: _,
    } = lines;
    detach_all(ports, lines);
    served
}

/// Serves users from a state on: attaches the links, and gives them back.
fn serve_from<P: Ports, U: Users, C: Clock>(
    alloc: Global,
    state: GateState,
    service: &Service,
    seats: Seats,
    turns: u64,
    ports: &mut P,
    users: &mut U,
    clock: &mut C,
) -> Result<(), GateError>
    requires { seats.first + seats.count ≤ 2 ^ 32 }
    ensures serves { Serves P.L.Link state seats.observer seats.count
        (P.to_come ports.old) result (users_seen U.Users users.old) (users_seen U.Users users.new)
        (P.detached ports.old) (P.detached ports.new) }
    ensures attaches { CountsFor (P.fault_count ports.old) (P.fault_count ports.new)
        errors.PortFault result }
    ensures back { P.attached ports.new + length (P.detached ports.old)
        ≡ P.attached ports.old + length (P.detached ports.new) }
{
    let Ok(all) = all_seats(alloc, service, seats) else {
        return Err(GateError::NoMemory);
    };
    let mut lines = Vec::new(alloc);
    match attach_all(all, ports, &mut lines) {
        Ok(()) => serve_over(alloc, state, seats, turns, lines, ports, users, clock),
        Err(e) => {
            detach_all(ports, lines);
            Err(port_fault(e))
        }
    }
}

/// Serves users for so many turns, as clients of a service whose numbers were not used before, and
/// watches it, and reads, at the place of an observer, where it has one, which no observer may
/// have. From there it asks the nodes of the roll each second whether they are there. A turn in
/// which nothing comes, and before which nothing came for a while, waits for a millisecond. At an
/// error the gateway has ended: ops in flight may still be executed.
pub fn serve<P: Ports, U: Users, C: Clock>(
    alloc: Global,
    service: &Service,
    seats: Seats,
    roll: Roll,
    turns: u64,
    ports: &mut P,
    users: &mut U,
    clock: &mut C,
) -> Result<(), GateError>
    requires { seats.first + seats.count ≤ 2 ^ 32 }

    // What came from users and over the links, and what was done for users, is a run of the core
    // over some events, in order; at an error its first part, and the cause.
    ensures serves { Serves P.L.Link (opening service.now.config seats.first seats.count
        (watch_at seats.observer roll service.now.config)
        (near_at seats.observer service.now.config)) seats.observer seats.count
        (P.to_come ports.old) result (users_seen U.Users users.old) (users_seen U.Users users.new)
        (P.detached ports.old) (P.detached ports.new) }
    ensures attaches { CountsFor (P.fault_count ports.old) (P.fault_count ports.new)
        errors.PortFault result }
    ensures back { P.attached ports.new + length (P.detached ports.old)
        ≡ P.attached ports.old + length (P.detached ports.new) }
{
    match first_state(alloc, service.config, seats, roll) {
        Ok(state) => serve_from(alloc, state, service, seats, turns, ports, users, clock),
        Err(NoMemory) => Err(GateError::NoMemory),
    }
}
