//! The datagrams of what an actor did, where no line is wanted.

ghost use Rattle.std.specs.Prelude.{◌≡◌, ◌++◌, ◌∷◌, [], OnOk, OnErr};
ghost use Rattle.network.specs.Network.{did_of, sends_of, sends_by, SendsPrefix};

use crate::network::Network;
use nop_types::{Actor, NoMemory, Out, Outbox};

fn send_one(network: &mut Network, from: Actor, out: &Out) -> Result<(), NoMemory>
    ensures network { OnOk result (network.new ≡ network.old ++ sends_of from (out.now ∷ [])) }
    ensures err { OnErr result (network.new ≡ network.old) }
{
    match out {
        Out::Send(dest, bytes) => network.push(from, *dest, bytes.as_slice()),
        _ => Ok(()),
    }
}

fn send_each(network: &mut Network, from: Actor, outs: &[Out]) -> Result<(), NoMemory>
    ensures network { OnOk result (network.new ≡ network.old ++ sends_of from outs.now) }
    ensures prefix { OnErr result (SendsPrefix network.old network.new (sends_of from outs.now)) }
{
    for out in outs {
        send_one(network, from, out)?;
    }
    Ok(())
}

/// Puts the datagrams of what an actor did into the network, in order, and writes no line. Where memory runs out, a front of them is
/// there.
pub fn send_all(network: &mut Network, from: Actor, did: &Option<Outbox>) -> Result<(), NoMemory>
    ensures network { OnOk result (network.new ≡ network.old ++ sends_by from (did_of did.now)) }
    ensures prefix { OnErr result (SendsPrefix network.old network.new
        (sends_by from (did_of did.now))) }
{
    match did {
        Some(outs) => send_each(network, from, outs.as_slice()),
        None => Ok(()),
    }
}
