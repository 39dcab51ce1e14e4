//! The observer in the gateway's own process: what it hears, and what is read at it.

ghost use Rattle.std.specs.Prelude.{◌≡◌, option_map, IfOk, OnOk};
ghost use Rattle.gate_core.specs.Gates.{heard_if, heard_near, looked, near_answer};

use kv_host::KvHost;
use nop_types::{Bytes, Core, Input, Key, NoMemory, Outbox};
use observer::Observer;
use std::alloc::Global;

/// What a near observer answers to the read of a key, and its position.
#[derive(Drop)]
pub struct NearAnswer {
    pub position: u32,
    pub result: Bytes,
}

/// Nothing is sent: reads of others stay unanswered.
fn hear_one(
    alloc: Global,
    near: &mut Observer<KvHost>,
    datagram: Option<&Bytes>,
) -> Result<(), NoMemory>
    ensures { OnOk result (near.new
        ≡ heard_if near.old (option_map (λ d. d.now) datagram.entry)) }
{
    match datagram {
        Some(bytes) => {
            let mut unsent = Outbox::new(alloc);
            near.step(Input::Packet(bytes.as_slice()), &mut unsent)
        }
        None => Ok(()),
    }
}

/// The near observer hears a datagram, if one came and there is one.
pub(crate) fn hear(
    alloc: Global,
    near: &mut Option<Observer<KvHost>>,
    datagram: Option<&Bytes>,
) -> Result<(), NoMemory>
    ensures { OnOk result (near.new
        ≡ heard_near near.old (option_map (λ d. d.now) datagram.entry)) }
{
    match near {
        Some(near) => hear_one(alloc, near, datagram),
        None => Ok(()),
    }
}

fn read_one(near: &mut Observer<KvHost>, key: &Key) -> Result<NearAnswer, NoMemory>
    ensures same { OnOk result (near.new ≡ near.old) }
    ensures answer { IfOk result (λ a. a ≡ near_answer near.old key.now) }
{
    let position = near.position();
    let result = near.answer_of(key)?;
    Ok(NearAnswer { position, result })
}

/// The key is read at the near observer, if there is one.
pub(crate) fn look(
    near: &mut Option<Observer<KvHost>>,
    key: &Key,
) -> Result<Option<NearAnswer>, NoMemory>
    ensures same { OnOk result (near.new ≡ near.old) }
    ensures answer { IfOk result (λ a. a ≡ looked near.old key.now) }
{
    match near {
        Some(near) => Ok(Some(read_one(near, key)?)),
        None => Ok(None),
    }
}
