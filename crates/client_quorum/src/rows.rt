ghost use Rattle.std.specs.Prelude.{◌≡◌, ◌++◌, ◌∷◌, ◌<◌, ◌^◌, ◌+◌, [], OnOk};
ghost use Rattle.nop_types.specs.Given.{given};
ghost use Rattle.nop_types.specs.Ranges.{ReplyFits, RequestFits};
ghost use Rattle.client_quorum.specs.ClientSteps.{begin, can_submit, is_expected, next, on_tick, reply};
ghost use Rattle.client_quorum.specs.ClientSteps.{retry, sent, submit, submit_waiting};

use crate::ClientState;
use nop_types::{Accept, Datagram, Dest, Input, NoMemory, Op, Out, Outbox, Reply, Request, Tick};
use oum_codec::{read_datagram, send_datagram};
use std::alloc::Global;

#[tactic(auto, unfolding(crate::specs::OpenRequests::has_room))]
pub(crate) fn can_submit(state: &ClientState) -> bool
    ensures { result ≡ can_submit state.now }
{
    state.open_.has_room(state.last_id) && state.last_id < u64::MAX
}

/// Sends a request to all sequencers.
fn send(alloc: Global, request: &Request, out: &mut Outbox) -> Result<(), NoMemory>
    requires { RequestFits request.now }
    ensures { OnOk result (out.new ≡ out.old ++ sent request.now ∷ []) }
{
    let datagram = Datagram::Request(request.try_clone()?);
    send_datagram(alloc, Dest::Sequencers, &datagram, out)
}

/// The op is open under the next id, and its request is sent.
fn begin(alloc: Global, state: &mut ClientState, op: Op, out: &mut Outbox) -> Result<(), NoMemory>
    requires room { state.old.last_id + 1 < 2 ^ 64 }
    ensures state { OnOk result (state.new
        ≡ (begin state.old (record {
          client = state.old.number;
          id = state.old.last_id + 1;
          op = op;
        })).0) }
    ensures out { OnOk result (out.new ≡ out.old
        ++ (begin state.old (record {
          client = state.old.number;
          id = state.old.last_id + 1;
          op = op;
        })).1) }
{
    let id = state.last_id + 1;
    let request = Request {
        client: state.number,
        id,
        op,
    };
    out.push(Out::Submitted(request.try_clone()?))?;
    send(alloc, &request, out)?;
    state.last_id = id;
    state.recent.forget(id);
    state.open_.push(request)
}

/// An op is submitted.
fn submit(alloc: Global, state: &mut ClientState, op: &Op, out: &mut Outbox) -> Result<(), NoMemory>
    ensures state { OnOk result (state.new ≡ (submit state.old op.now).0) }
    ensures out { OnOk result (out.new ≡ out.old ++ (submit state.old op.now).1) }
{
    if !can_submit(state) {
        return out.push(Out::Busy(state.number));
    }
    begin(alloc, state, op.try_clone()?, out)
}

/// The first waiting op is submitted, where that gives no Busy.
fn submit_waiting(alloc: Global, state: &mut ClientState, out: &mut Outbox) -> Result<(), NoMemory>
    ensures state { OnOk result (state.new ≡ (submit_waiting state.old).0) }
    ensures out { OnOk result (out.new ≡ out.old ++ (submit_waiting state.old).1) }
{
    if !can_submit(state) {
        return Ok(());
    }
    match state.waiting.take_first() {
        Some(op) => begin(alloc, state, op, out),
        None => Ok(()),
    }
}

#[tactic(auto, unfolding(crate::specs::OpenRequests::is_open))]
fn is_expected(state: &ClientState, came: &Reply) -> bool
    ensures { result ≡ is_expected state.now came.now }
{
    came.client == state.number
        && state.open_.has_id(came.id)
        && came.replica < state.config.replicas()
}

/// A reply comes: it is kept for its request, and accepts at a quorum.
#[tactic(auto, unfolding(crate::specs::OpenRequests::kept_for))]
fn reply(state: &mut ClientState, came: Reply, out: &mut Outbox) -> Result<(), NoMemory>
    requires { ReplyFits came }
    ensures state { OnOk result (state.new ≡ (reply state.old came).0) }
    ensures out { OnOk result (out.new ≡ out.old ++ (reply state.old came).1) }
{
    if !is_expected(state, &came) {
        return Ok(());
    }
    let id = came.id;
    let view = came.view;
    let slot = came.slot;
    state.open_.put(came)?;
    let (at, kept, shown) = match state.open_.quorum(state.config, id, view, slot) {
        Some(leaders) => (
            leaders.slot,
            leaders.result.try_clone()?,
            leaders.result.try_clone()?,
        ),
        None => return Ok(()),
    };
    state.open_.close(id);
    state.recent.push(Accept {
        id,
        slot: at,
        result: kept,
    })?;
    out.push(Out::Accepted {
        client: state.number,
        id,
        result: shown,
    })
}

/// Each open request is sent again.
fn retry(alloc: Global, state: &ClientState, out: &mut Outbox) -> Result<(), NoMemory>
    ensures { OnOk result (out.new ≡ out.old ++ (retry state.now).1) }
{
    for open in state.open_.as_slice() {
        send(alloc, &open.request, out)?;
    }
    Ok(())
}

fn on_tick(
    alloc: Global,
    state: &mut ClientState,
    tick: Tick,
    out: &mut Outbox,
) -> Result<(), NoMemory>
    ensures state { OnOk result (state.new ≡ (on_tick state.old tick).0) }
    ensures out { OnOk result (out.new ≡ out.old ++ (on_tick state.old tick).1) }
{
    match tick {
        Tick::Next => submit_waiting(alloc, state, out),
        Tick::Retry => retry(alloc, state, out),
        _ => Ok(()),
    }
}

/// One step, which may leave anything where memory runs out.
#[tactic(auto, unfolding(crate::specs::ClientSteps::next))]
pub(crate) fn act(
    alloc: Global,
    state: &mut ClientState,
    input: Input<'_>,
    out: &mut Outbox,
) -> Result<(), NoMemory>
    ensures state { OnOk result (state.new ≡ (next state.old (given input.entry)).0) }
    ensures out { OnOk result (out.new ≡ out.old ++ (next state.old (given input.entry)).1) }
{
    match input {
        Input::Tick(tick) => on_tick(alloc, state, tick, out),
        Input::Submit(op) => submit(alloc, state, op, out),
        Input::Packet(bytes) => match read_datagram(alloc, bytes)? {
            Some(Datagram::Reply(came)) => reply(state, came, out),
            _ => Ok(()),
        },
        _ => Ok(()),
    }
}
