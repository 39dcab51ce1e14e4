ghost use Rattle.std.specs.Prelude.{◌≡◌, ◌++◌, ◌∷◌, ◌<◌, ◌^◌, [], OnOk, OnErr, IfSome};
ghost use Rattle.nop_types.specs.Given.{given};
ghost use Rattle.client_reads.specs.ReadSteps.{answer, ask, can_read, is_expected, next, on_tick};
ghost use Rattle.client_reads.specs.ReadSteps.{ReadingFits, retry, sent};

use crate::{Reading, Reads};
use nop_types::{Actor, Answer, Datagram, Dest, Input, Key, NoMemory, Out, Outbox, Read, Tick};
use oum_codec::{read_datagram, send_datagram};
use std::alloc::Global;

fn can_read(state: &Reads) -> bool
    ensures { result ≡ can_read state.now }
{
    state.pending.is_none() && state.last_id < u64::MAX
}

/// Sends a read of the client with this number to its observer.
fn send(alloc: Global, number: u32, reading: &Reading, out: &mut Outbox) -> Result<(), NoMemory>
    requires { ReadingFits reading.now }
    ensures ok { OnOk result (out.new ≡ out.old ++ sent number reading.now ∷ []) }
    ensures err { OnErr result (out.new ≡ out.old) }
{
    let datagram = Datagram::Read(Read {
        client: number,
        id: reading.id,
        key: reading.key.try_clone()?,
    });
    let dest = Dest::One(Actor::Observer(reading.observer));
    send_datagram(alloc, dest, &datagram, out)
}

/// An observer is asked for a key, where no read waits and an id is left.
fn ask(
    alloc: Global,
    state: &mut Reads,
    observer: u8,
    key: &Key,
    out: &mut Outbox,
) -> Result<(), NoMemory>
    requires { IfSome state.old.pending ReadingFits }
    ensures within { IfSome state.new.pending ReadingFits }
    ensures state { OnOk result (state.new ≡ (ask state.old observer key.now).0) }
    ensures out { OnOk result (out.new ≡ out.old ++ (ask state.old observer key.now).1) }
    ensures same { OnErr result (state.new ≡ state.old) }
    ensures kept { OnErr result (out.new ≡ out.old) }
{
    if !can_read(state) {
        return out.push(Out::Busy(state.number));
    }
    let id = state.last_id + 1;
    let reading = Reading {
        id,
        observer,
        key: key.try_clone()?,
    };
    let mut made = Outbox::new(alloc);
    made.push(Out::Reading {
        client: state.number,
        id,
        observer,
        key: key.try_clone()?,
    })?;
    send(alloc, state.number, &reading, &mut made)?;
    out.append(made)?;
    state.last_id = id;
    state.pending = Some(reading);
    Ok(())
}

fn is_expected(state: &Reads, came: &Answer) -> bool
    ensures { result ≡ is_expected state.now came.now }
{
    match &state.pending {
        Some(reading) => {
            came.client == state.number
                && came.id == reading.id
                && came.observer == reading.observer
        }
        None => false,
    }
}

/// An answer comes: it ends the read that waits, where it is for that.
fn answer(state: &mut Reads, came: Answer, out: &mut Outbox) -> Result<(), NoMemory>
    requires { IfSome state.old.pending ReadingFits }
    ensures within { IfSome state.new.pending ReadingFits }
    ensures state { OnOk result (state.new ≡ (answer state.old came).0) }
    ensures out { OnOk result (out.new ≡ out.old ++ (answer state.old came).1) }
    ensures same { OnErr result (state.new ≡ state.old) }
    ensures kept { OnErr result (out.new ≡ out.old) }
{
    if !is_expected(state, &came) {
        return Ok(());
    }
    out.push(Out::Answered {
        client: state.number,
        id: came.id,
        observer: came.observer,
        position: came.position,
        result: came.result,
    })?;
    state.pending = None;
    Ok(())
}

/// The read that waits is sent again.
fn retry(alloc: Global, state: &Reads, out: &mut Outbox) -> Result<(), NoMemory>
    requires { IfSome state.now.pending ReadingFits }
    ensures out { OnOk result (out.new ≡ out.old ++ (retry state.now).1) }
    ensures kept { OnErr result (out.new ≡ out.old) }
{
    match &state.pending {
        Some(reading) => send(alloc, state.number, reading, out),
        None => Ok(()),
    }
}

fn on_tick(alloc: Global, state: &Reads, tick: Tick, out: &mut Outbox) -> Result<(), NoMemory>
    requires { IfSome state.now.pending ReadingFits }
    ensures state { state.now ≡ (on_tick state.now tick).0 }
    ensures out { OnOk result (out.new ≡ out.old ++ (on_tick state.now tick).1) }
    ensures kept { OnErr result (out.new ≡ out.old) }
{
    match tick {
        Tick::Retry => retry(alloc, state, out),
        _ => Ok(()),
    }
}

/// One step. Where memory runs out, all is as before.
#[tactic(auto, unfolding(crate::specs::ReadSteps::next))]
pub(crate) fn act(
    alloc: Global,
    state: &mut Reads,
    input: Input<'_>,
    out: &mut Outbox,
) -> Result<(), NoMemory>
    requires { IfSome state.old.pending ReadingFits }
    ensures within { IfSome state.new.pending ReadingFits }
    ensures state { OnOk result (state.new ≡ (next state.old (given input.entry)).0) }
    ensures out { OnOk result (out.new ≡ out.old ++ (next state.old (given input.entry)).1) }
    ensures same { OnErr result (state.new ≡ state.old) }
    ensures kept { OnErr result (out.new ≡ out.old) }
{
    match input {
        Input::Tick(tick) => on_tick(alloc, state, tick, out),
        Input::Submit(_) => Ok(()),
        Input::Read(observer, key) => ask(alloc, state, observer, key, out),
        Input::Packet(bytes) => match read_datagram(alloc, bytes)? {
            Some(Datagram::Answer(came)) => answer(state, came, out),
            _ => Ok(()),
        },
    }
}
