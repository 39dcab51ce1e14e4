ghost use Rattle.std.specs.Prelude.{◌≡◌, ◌+◌, ◌++◌, ◌∷◌, [], OnOk, OnErr, IfOk, length};
ghost use Rattle.nop_types.specs.Lines.{Accept};
ghost use Rattle.network.specs.LineCounts.{Shows, Grows};
ghost use Rattle.network.specs.Network.{did_of, sends_of, lines_from, sends_by, lines_by, SendsPrefix};

use crate::network::Network;
use nop_types::{Actor, Bytes, Dest, NoMemory, Out, Outbox};
use std::alloc::Global;
use transcript_text::{
    accept_line, answer_line, busy_line, dead_line, read_line, send_line, submit_line,
};

/// A line of a datagram that is sent has some thirty bytes.
const LINE_ROOM: usize = 40;

/// The lines of an event: their text, and how many of them are sends and accepts.
#[derive(Drop)]
pub struct Lines {
    pub text: Bytes,
    pub sends: u32,
    pub accepts: u32,
}

/// The lines of an event so far.
#[derive(Drop)]
pub struct Tally {
    pub text: Vec<u8>,
    pub sends: u32,
    pub accepts: u32,
}

/// One more; a count past its type answers NoMemory, since no memory holds so many outputs.
fn raised(count: u32) -> Result<u32, NoMemory>
    ensures { IfOk result (λ n. n ≡ count + 1) }
{
    match count.checked_add(1) {
        Some(n) => Ok(n),
        None => Err(NoMemory),
    }
}

/// Carries out a send: its line, and the datagram.
fn carry_send(
    network: &mut Network,
    from: Actor,
    dest: Dest,
    bytes: &[u8],
    tally: &mut Tally,
) -> Result<(), NoMemory>
    ensures network { OnOk result (network.new
        ≡ network.old ++ sends_of from (Out.Send dest bytes.now ∷ [])) }
    ensures lines { OnOk result (Grows tally.old tally.new
        (lines_from from (length network.old) (Out.Send dest bytes.now ∷ []))) }
    ensures prefix { OnErr result (SendsPrefix network.old network.new
        (sends_of from (Out.Send dest bytes.now ∷ []))) }
{
    send_line(network.len(), from, dest, bytes, &mut tally.text)?;
    network.push(from, dest, bytes)?;
    tally.sends = raised(tally.sends)?;
    Ok(())
}

/// The line of an accepted result.
fn carry_accept(client: u32, id: u64, answer: &Bytes, tally: &mut Tally) -> Result<(), NoMemory>
    ensures { OnOk result (Grows tally.old tally.new (Accept client id answer.now ∷ [])) }
{
    accept_line(client, id, answer, &mut tally.text)?;
    tally.accepts = raised(tally.accepts)?;
    Ok(())
}

/// Carries out one output: its line, and for a send the datagram. Entries that moved out of a log have none.
fn carry_out_one(
    network: &mut Network,
    from: Actor,
    out: &Out,
    tally: &mut Tally,
) -> Result<(), NoMemory>
    ensures network { OnOk result (network.new ≡ network.old ++ sends_of from (out.now ∷ [])) }
    ensures lines { OnOk result (Grows tally.old tally.new
        (lines_from from (length network.old) (out.now ∷ []))) }
    ensures prefix { OnErr result (SendsPrefix network.old network.new
        (sends_of from (out.now ∷ []))) }
{
    match out {
        Out::Send(dest, bytes) => carry_send(network, from, *dest, bytes.as_slice(), tally),
        Out::Submitted(request) => submit_line(request, &mut tally.text),
        Out::Accepted { client, id, result } => carry_accept(*client, *id, result, tally),
        Out::Busy(client) => busy_line(*client, &mut tally.text),
        Out::Reading {
            client,
            id,
            observer,
            key,
        } => read_line(*client, *id, *observer, key, &mut tally.text),
        Out::Answered {
            client,
            id,
            observer,
            position,
            result,
        } => { answer_line(*client, *id, *observer, *position, result, &mut tally.text) }
        Out::Trimmed { .. } => Ok(()),
    }
}

fn carry_out_all(
    network: &mut Network,
    from: Actor,
    outs: &[Out],
    tally: &mut Tally,
) -> Result<(), NoMemory>
    ensures network { OnOk result (network.new ≡ network.old ++ sends_of from outs.now) }
    ensures lines { OnOk result (Grows tally.old tally.new
        (lines_from from (length network.old) outs.now)) }
    ensures prefix { OnErr result (SendsPrefix network.old network.new (sends_of from outs.now)) }
{
    for out in outs {
        carry_out_one(network, from, out, tally)?;
    }
    Ok(())
}

/// The datagrams and the lines of what an actor did.
fn carry(
    network: &mut Network,
    from: Actor,
    did: &Option<Outbox>,
    tally: &mut Tally,
) -> Result<(), NoMemory>
    ensures network { OnOk result (network.new
        ≡ network.old ++ sends_by from (did_of did.now)) }
    ensures lines { OnOk result (Grows tally.old tally.new
        (lines_by from (length network.old) (did_of did.now))) }
    ensures prefix { OnErr result (SendsPrefix network.old network.new
        (sends_by from (did_of did.now))) }
{
    match did {
        Some(outs) => carry_out_all(network, from, outs.as_slice(), tally),
        None => dead_line(from, &mut tally.text),
    }
}

/// Room for the lines of what an actor did: most have fewer bytes than this for each output.
fn room_for(did: &Option<Outbox>) -> usize {
    match did {
        Some(outs) => outs.as_slice().len().saturating_mul(LINE_ROOM),
        None => LINE_ROOM,
    }
}

/// Carries out what an actor did, in order: its datagrams go into the network, and its lines are written. Where memory runs
/// out, a front of the datagrams is in the network, and there are no lines.
pub fn carry_out(
    alloc: Global,
    network: &mut Network,
    from: Actor,
    did: &Option<Outbox>,
) -> Result<Lines, NoMemory>
    ensures network { OnOk result (network.new ≡ network.old ++ sends_by from (did_of did.now)) }
    ensures lines { IfOk result (λ l.
        Shows l (lines_by from (length network.old) (did_of did.now))) }
    ensures prefix { OnErr result (SendsPrefix network.old network.new
        (sends_by from (did_of did.now))) }
{
    let mut tally = Tally {
        text: Vec::with_capacity(alloc, room_for(did))?,
        sends: 0,
        accepts: 0,
    };
    carry(network, from, did, &mut tally)?;
    Ok(Lines {
        text: Bytes::from_vec(tally.text),
        sends: tally.sends,
        accepts: tally.accepts,
    })
}
