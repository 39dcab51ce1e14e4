ghost use Rattle.std.specs.Prelude.{◌≡◌, ◌≤◌, ◌<◌, ◌+◌, ◌^◌, ◌++◌, ◌∷◌, [], length, take, OnOk, OnErr, IfOk};
ghost use Rattle.std.specs.List.{AllByRecursion};
ghost use Rattle.nop_types.specs.Ranges.{ReplyFits};
ghost use Rattle.replica_state.specs.Sends.{SendingFits, message_count};
ghost use Rattle.replica_core.specs.Posting.{reply_out, message_outs, posted};

use fragments::{CutError, cut};
use nop_types::{Actor, Bytes, Dest, NoMemory, Out, Outbox, Reply};
use oum_codec::encode_reply;
use peer_codec::EncodedPeer;
use replica_rows::{Sending, Sends};
use std::alloc::Global;

fn post_reply(alloc: Global, reply: &Reply, out: &mut Outbox) -> Result<(), NoMemory>
    requires { ReplyFits reply.now }
    ensures ok { OnOk result (out.new ≡ out.old ++ reply_out reply.now ∷ []) }
    ensures err { OnErr result (out.new ≡ out.old) }
{
    let bytes = encode_reply(alloc, reply)?;
    let dest = Dest::One(Actor::Client(reply.client));
    out.push(Out::Send(dest, Bytes::from_vec(bytes)))
}

#[tactic(auto, using(crate::proofs::Lengths::message_is_cut))]
fn post_message(
    alloc: Global,
    number: u64,
    dest: Dest,
    message: &EncodedPeer,
    out: &mut Outbox,
) -> Result<(), NoMemory>
    requires from_1 { 1 ≤ number }
    ensures ok { OnOk result (out.new ≡ out.old ++ message_outs number dest message.now) }
    ensures err { OnErr result (out.new ≡ out.old) }
{
    let bytes = message.as_slice();
    match cut(alloc, message.sender(), number, bytes, out, dest) {
        Err(CutError::NoMemory) => Err(NoMemory),
        _ => Ok(()),
    }
}

/// Makes outputs of one thing that is sent, and gives the message number that was used last.
#[tactic(auto, using(crate::proofs::Posted::posted_one))]
fn post_one(alloc: Global, number: u64, sending: Sending, out: &mut Outbox) -> Result<u64, NoMemory>
    requires fits { SendingFits sending }
    requires room { number + message_count (sending ∷ []) < 2 ^ 64 }
    ensures number { IfOk result (λ last. last ≡ number + message_count (sending ∷ [])) }
    ensures ok { OnOk result (out.new ≡ out.old ++ posted number (sending ∷ [])) }
    ensures err { OnErr result (out.new ≡ out.old) }
{
    match sending {
        Sending::ToClient(reply) => {
            post_reply(alloc, &reply, out)?;
            Ok(number)
        }
        Sending::ToReplicas(dest, message) => {
            post_message(alloc, number + 1, dest, &message, out)?;
            Ok(number + 1)
        }
        Sending::Trims(first, entries) => {
            out.push(Out::Trimmed { first, entries })?;
            Ok(number)
        }
    }
}

/// Makes outputs of what is sent, in order. After an error some of them stand behind what stood there before.
fn post_each(
    alloc: Global,
    messages: u64,
    sends: Vec<Sending>,
    out: &mut Outbox,
) -> Result<u64, NoMemory>
    requires fit { AllByRecursion SendingFits sends.items }
    requires room { messages + message_count sends.items < 2 ^ 64 }
    ensures number { IfOk result (λ number. number ≡ messages + message_count sends.items) }
    ensures ok { OnOk result (out.new ≡ out.old ++ posted messages sends.items) }
    ensures prefix { take (length out.old) out.new ≡ out.old }
{
    let mut number = messages;
    for sending in sends {
        number = post_one(alloc, number, sending, out)?;
    }
    Ok(number)
}

/// Makes outputs of what is sent, in order, and gives the message number that was used last. Each message takes the number
/// after the one before it. Entries that moved out of the log are moved on, and nothing is left to send.
pub fn post(
    alloc: Global,
    messages: u64,
    sends: &mut Sends,
    out: &mut Outbox,
) -> Result<u64, NoMemory>
    requires { messages + message_count sends.old < 2 ^ 64 }
    ensures number { IfOk result (λ number. number ≡ messages + message_count sends.old) }
    ensures ok { OnOk result (out.new ≡ out.old ++ posted messages sends.old) }
    ensures err { OnErr result (out.new ≡ out.old) }
    ensures none { sends.new ≡ [] }
{
    let len = out.as_slice().len();
    let posted = post_each(alloc, messages, sends.take(), out);
    if posted.is_err() {
        out.truncate(len);
    }
    posted
}
