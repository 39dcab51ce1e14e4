ghost use Rattle.std.specs.Prelude.{◌≡◌, ◌++◌, OnOk};
ghost use Rattle.nop_types.specs.Given.{given};
ghost use Rattle.nop_types.specs.Ranges.{RequestFits, InstallFits, PingFits};
ghost use Rattle.sequencer.specs.SequencerSteps.{IsWithin, stamped_by, after_stamp, stamp, install, ping, next};

use crate::SequencerState;
use nop_types::{Actor, Datagram, Dest, Input, NUMBER_END, NoMemory, Outbox, Request, Stamped};
use oum_codec::{read_datagram, send_datagram};
use std::alloc::Global;

/// The request with the session and the next number, None where there is no session or no number is left.
pub fn stamp_next(state: &mut SequencerState, request: Request) -> Option<Stamped>
    requires { IsWithin state.old }
    ensures within { IsWithin state.new }
    ensures packet { result ≡ stamped_by state.old request }
    ensures after { state.new ≡ after_stamp state.old }
{
    if state.session == 0 || state.next >= NUMBER_END {
        return None;
    }
    let number = state.next;
    state.next += 1;
    Some(Stamped {
        session: state.session,
        number,
        request,
    })
}

/// A request is stamped and sent to all replicas.
fn stamp(
    alloc: Global,
    state: &mut SequencerState,
    request: Request,
    out: &mut Outbox,
) -> Result<(), NoMemory>
    requires within { IsWithin state.old }
    requires fits { RequestFits request }
    ensures within { IsWithin state.new }
    ensures state { OnOk result (state.new ≡ (stamp state.old request).0) }
    ensures out { OnOk result (out.new ≡ out.old ++ (stamp state.old request).1) }
{
    match stamp_next(state, request) {
        Some(stamped) => send_datagram(alloc, Dest::Replicas, &Datagram::Stamped(stamped), out),
        None => Ok(()),
    }
}

/// A newer session is taken, and its numbers begin at 1. The controller is told the session that the sequencer has then.
fn install(
    alloc: Global,
    state: &mut SequencerState,
    controller: u8,
    sequencer: u8,
    session: u64,
    out: &mut Outbox,
) -> Result<(), NoMemory>
    requires within { IsWithin state.old }
    requires fits { InstallFits controller sequencer session }
    ensures within { IsWithin state.new }
    ensures state { OnOk result (state.new
        ≡ (install state.old controller sequencer session).0) }
    ensures out { OnOk result (out.new
        ≡ out.old ++ (install state.old controller sequencer session).1) }
{
    if sequencer != state.number {
        return Ok(());
    }
    if session > state.session {
        state.session = session;
        state.next = 1;
    }
    let installed = Datagram::Installed {
        controller,
        sequencer,
        session: state.session,
    };
    let dest = Dest::One(Actor::Controller(controller));
    send_datagram(alloc, dest, &installed, out)
}

/// A ping of this sequencer is answered with its round.
fn ping(
    alloc: Global,
    state: &SequencerState,
    controller: u8,
    sequencer: u8,
    round: u32,
    out: &mut Outbox,
) -> Result<(), NoMemory>
    requires fits { PingFits controller sequencer round }
    ensures state { state.now ≡ (ping state.now controller sequencer round).0 }
    ensures out { OnOk result (out.new
        ≡ out.old ++ (ping state.now controller sequencer round).1) }
{
    if sequencer != state.number {
        return Ok(());
    }
    let pong = Datagram::Pong {
        controller,
        sequencer,
        round,
    };
    send_datagram(alloc, Dest::One(Actor::Controller(controller)), &pong, out)
}

/// One step, which may leave anything where memory runs out.
#[tactic(auto, unfolding(crate::specs::SequencerSteps::next))]
pub fn act(
    alloc: Global,
    state: &mut SequencerState,
    input: Input<'_>,
    out: &mut Outbox,
) -> Result<(), NoMemory>
    requires { IsWithin state.old }
    ensures within { IsWithin state.new }
    ensures state { OnOk result (state.new ≡ (next state.old (given input.entry)).0) }
    ensures out { OnOk result (out.new ≡ out.old ++ (next state.old (given input.entry)).1) }
{
    let Input::Packet(bytes) = input else {
        return Ok(());
    };
    match read_datagram(alloc, bytes)? {
        Some(Datagram::Request(request)) => stamp(alloc, state, request, out),
        Some(
            Datagram::Install {
                controller,
                sequencer,
                session,
            },
        ) => install(alloc, state, controller, sequencer, session, out),
        Some(
            Datagram::Ping {
                controller,
                sequencer,
                round,
            },
        ) => ping(alloc, state, controller, sequencer, round, out),
        _ => Ok(()),
    }
}
