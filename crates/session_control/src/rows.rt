ghost use Rattle.std.specs.Prelude.{◌≡◌, ◌<◌, ◌++◌, OnOk};
ghost use Rattle.nop_types.specs.Given.{given};
ghost use Rattle.session_control.specs.ControllerSteps.{IsWithin, install_of, move_to, ask, probe, resend_install};
ghost use Rattle.session_control.specs.ControllerSteps.{order_move, pong, installed, on_tick, next};

use crate::sessions::next_session;
use crate::{ControllerState, MISSED_END};
use nop_types::{Actor, Datagram, Dest, Input, NoMemory, Outbox, Tick};
use oum_codec::{read_datagram, send_datagram};
use std::alloc::Global;

/// Sends the session to the current sequencer.
fn send_install(alloc: Global, state: &ControllerState, out: &mut Outbox) -> Result<(), NoMemory>
    requires { IsWithin state.now }
    ensures { OnOk result (out.new ≡ out.old ++ install_of state.now) }
{
    let install = Datagram::Install {
        controller: state.number,
        sequencer: state.current,
        session: state.session,
    };
    let dest = Dest::One(Actor::Sequencer(state.current));
    send_datagram(alloc, dest, &install, out)
}

/// Moves to a sequencer under the next session, where there is one.
fn move_to(
    alloc: Global,
    state: &mut ControllerState,
    sequencer: u8,
    out: &mut Outbox,
) -> Result<(), NoMemory>
    requires within { IsWithin state.old }
    requires there { sequencer < state.old.config.sequencers }
    ensures within { IsWithin state.new }
    ensures state { OnOk result (state.new ≡ (move_to state.old sequencer).0) }
    ensures out { OnOk result (out.new ≡ out.old ++ (move_to state.old sequencer).1) }
{
    let Some(session) = next_session(state.number, state.session, state.seen) else {
        return Ok(());
    };
    state.session = session;
    state.current = sequencer;
    state.confirmed = false;
    state.missed = 0;
    state.heard = true;
    send_install(alloc, state, out)
}

/// Pings the current sequencer in the next round, where there is one.
fn ask(alloc: Global, state: &mut ControllerState, out: &mut Outbox) -> Result<(), NoMemory>
    requires { IsWithin state.old }
    ensures within { IsWithin state.new }
    ensures state { OnOk result (state.new ≡ (ask state.old).0) }
    ensures out { OnOk result (out.new ≡ out.old ++ (ask state.old).1) }
{
    if state.round == u32::MAX {
        return Ok(());
    }
    state.round += 1;
    state.heard = false;
    let ping = Datagram::Ping {
        controller: state.number,
        sequencer: state.current,
        round: state.round,
    };
    let dest = Dest::One(Actor::Sequencer(state.current));
    send_datagram(alloc, dest, &ping, out)
}

/// Counts a probe that was not answered, and moves at the third one in a row; else it probes.
fn probe(alloc: Global, state: &mut ControllerState, out: &mut Outbox) -> Result<(), NoMemory>
    requires { IsWithin state.old }
    ensures within { IsWithin state.new }
    ensures state { OnOk result (state.new ≡ (probe state.old).0) }
    ensures out { OnOk result (out.new ≡ out.old ++ (probe state.old).1) }
{
    if !state.heard {
        if state.missed + 1 >= MISSED_END {
            let sequencer = (state.current + 1) % state.config.sequencers();
            return move_to(alloc, state, sequencer, out);
        }
        state.missed += 1;
    }
    ask(alloc, state, out)
}

/// Sends the session once more while it is not confirmed.
fn resend_install(alloc: Global, state: &ControllerState, out: &mut Outbox) -> Result<(), NoMemory>
    requires { IsWithin state.now }
    ensures { OnOk result (out.new ≡ out.old ++ (resend_install state.now).1) }
{
    if state.confirmed {
        return Ok(());
    }
    send_install(alloc, state, out)
}

/// Moves to a sequencer of the configuration on an order from outside.
fn order_move(
    alloc: Global,
    state: &mut ControllerState,
    sequencer: u8,
    out: &mut Outbox,
) -> Result<(), NoMemory>
    requires { IsWithin state.old }
    ensures within { IsWithin state.new }
    ensures state { OnOk result (state.new ≡ (order_move state.old sequencer).0) }
    ensures out { OnOk result (out.new ≡ out.old ++ (order_move state.old sequencer).1) }
{
    if sequencer >= state.config.sequencers() {
        return Ok(());
    }
    move_to(alloc, state, sequencer, out)
}

/// The current sequencer answered the last probe of this controller.
fn pong(state: &mut ControllerState, controller: u8, sequencer: u8, round: u32)
    requires { IsWithin state.old }
    ensures within { IsWithin state.new }
    ensures state { state.new ≡ (pong state.old controller sequencer round).0 }
{
    if controller == state.number && sequencer == state.current && round == state.round {
        state.heard = true;
        state.missed = 0;
    }
}

/// A sequencer tells this controller its session: one above the controller's is noted, and the current sequencer confirms the
/// controller's own.
fn installed(state: &mut ControllerState, controller: u8, sequencer: u8, session: u64)
    requires { IsWithin state.old }
    ensures within { IsWithin state.new }
    ensures state { state.new ≡ (installed state.old controller sequencer session).0 }
{
    if controller != state.number {
        return;
    }
    if session > state.session {
        state.seen = state.seen.max(session);
    }
    if sequencer == state.current && session == state.session {
        state.confirmed = true;
    }
}

fn on_tick(
    alloc: Global,
    state: &mut ControllerState,
    tick: Tick,
    out: &mut Outbox,
) -> Result<(), NoMemory>
    requires { IsWithin state.old }
    ensures within { IsWithin state.new }
    ensures state { OnOk result (state.new ≡ (on_tick state.old tick).0) }
    ensures out { OnOk result (out.new ≡ out.old ++ (on_tick state.old tick).1) }
{
    match tick {
        Tick::Probe => probe(alloc, state, out),
        Tick::Resend => resend_install(alloc, state, out),
        Tick::Install(sequencer) => order_move(alloc, state, sequencer, out),
        _ => Ok(()),
    }
}

/// One step, which may leave anything where memory runs out.
#[tactic(auto, unfolding(crate::specs::ControllerSteps::next))]
pub fn act(
    alloc: Global,
    state: &mut ControllerState,
    input: Input<'_>,
    out: &mut Outbox,
) -> Result<(), NoMemory>
    requires { IsWithin state.old }
    ensures within { IsWithin state.new }
    ensures state { OnOk result (state.new ≡ (next state.old (given input.entry)).0) }
    ensures out { OnOk result (out.new ≡ out.old ++ (next state.old (given input.entry)).1) }
{
    let bytes = match input {
        Input::Tick(tick) => return on_tick(alloc, state, tick, out),
        Input::Packet(bytes) => bytes,
        _ => return Ok(()),
    };
    match read_datagram(alloc, bytes)? {
        Some(
            Datagram::Pong {
                controller,
                sequencer,
                round,
            },
        ) => pong(state, controller, sequencer, round),
        Some(
            Datagram::Installed {
                controller,
                sequencer,
                session,
            },
        ) => installed(state, controller, sequencer, session),
        _ => {}
    }
    Ok(())
}
