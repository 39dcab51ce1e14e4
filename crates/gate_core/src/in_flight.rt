//! What becomes of a session, where a core gave something for it.

ghost use Rattle.std.specs.Prelude.{◌≡◌, ◌++◌, nat_le, IfOk, OnOk, Result};
ghost use Rattle.std.specs.FinMap as finite;
ghost use Rattle.nop_types.specs.declared.datagram.Datagram.{Datagram};
ghost use Rattle.oum_codec.specs.Reading.{Finds};
ghost use Rattle.oum_codec.specs.declared.bad.Bad.{Bad};
ghost use Rattle.gate_core.specs.Gates.{answered, begun, begun_if, fresh_if, is_at, is_way};
ghost use Rattle.gate_core.specs.Gates.{op_of, read_answered, reads_at, reads_by};
ghost use Rattle.gate_core.specs.Gates.{reply_slot, same_key, slot_in, unread};

use crate::act::Act;
use crate::replying::{put_act, put_answer};
use crate::session::{Asked, InFlight, Reading, Session, UnderWay};
use crate::tables::Sessions;
use kv_resp::{Form, reply_to};
use nop_types::{Datagram, Key, NoMemory};
use oum_codec::read_datagram;
use std::alloc::Global;

/// The slot of a reply; 0 of anything else.
fn reply_slot(datagram: &Option<Datagram>) -> u32
    ensures { (read : Result Datagram Bad) → Finds datagram.now read
        → result ≡ reply_slot read }
{
    match datagram {
        Some(Datagram::Reply(reply)) => reply.slot,
        _ => 0,
    }
}

/// The slot of the reply that a datagram is; 0 of any other bytes.
pub(crate) fn slot_in(alloc: Global, came: &[u8]) -> Result<u32, NoMemory>
    ensures { IfOk result (λ slot. slot ≡ slot_in came.now) }
{
    let datagram = read_datagram(alloc, came)?;
    Ok(reply_slot(&datagram))
}

/// The op in flight.
fn op_of(asked: &Option<InFlight>) -> Option<Asked>
    ensures { result ≡ op_of asked.now }
{
    match asked {
        Some(InFlight::Op(asked)) => Some(*asked),
        _ => None,
    }
}

/// A user whose session was taken out, and whose op has this ticket, is replied its result, which
/// is from this slot.
pub(crate) fn answer_session(
    sessions: &mut Sessions,
    alloc: Global,
    user: u64,
    slot: u32,
    session: Session,
    ticket: u64,
    answer: &[u8],
    acts: &mut Vec<Act>,
) -> Result<(), NoMemory>
    ensures sessions { OnOk result (sessions.new ≡ finite.insert sessions.old user
        (answered user slot session ticket answer.now).0) }
    ensures acts { OnOk result (acts.new.items ≡ acts.old.items
        ++ (answered user slot session ticket answer.now).1) }
{
    match op_of(&session.asked) {
        Some(asked) if asked.ticket == ticket => {
            let seen = session.seen.max(slot);
            sessions.put(user, session.replied(seen))?;
            put_answer(alloc, user, reply_to(asked.form, answer), acts)
        }
        _ => sessions.put(user, session),
    }
}

fn same_key(a: &[u8], b: &[u8]) -> bool
    ensures { result ≡ same_key a.now b.now }
{
    a == b
}

fn is_way(under_way: Option<UnderWay>, way: UnderWay) -> bool
    ensures { result ≡ is_way under_way way }
{
    match under_way {
        None => false,
        Some(w) => w.core == way.core && (w.id == way.id && w.observer == way.observer),
    }
}

fn is_at(under_way: Option<UnderWay>, core: usize) -> bool
    ensures { result ≡ is_at under_way core }
{
    match under_way {
        None => false,
        Some(way) => way.core == core,
    }
}

fn begin_reading(reading: &mut Reading, way: UnderWay, key: &Key)
    ensures { reading.new
        ≡ begun_if (same_key reading.old.key key.now) reading.old way }
{
    if same_key(reading.key.as_slice(), key.as_slice()) {
        reading.under_way = Some(way);
    }
}

/// A core asked for the key of the read in flight.
pub(crate) fn begin(asked: &mut Option<InFlight>, way: UnderWay, key: &Key)
    ensures { asked.new ≡ begun asked.old way key.now }
{
    if let Some(InFlight::Read(reading)) = asked {
        begin_reading(reading, way, key);
    }
}

/// The read in flight waits for a core.
pub(crate) fn wait_again(asked: &mut Option<InFlight>)
    ensures { asked.new ≡ unread asked.old }
{
    if let Some(InFlight::Read(reading)) = asked {
        reading.under_way = None;
    }
}

fn reads_by(asked: &Option<InFlight>, way: UnderWay) -> bool
    ensures { result ≡ reads_by asked.now way }
{
    match asked {
        Some(InFlight::Read(reading)) => is_way(reading.under_way, way),
        _ => false,
    }
}

/// Whether the read in flight is under way at this core.
pub(crate) fn reads_at(asked: &Option<InFlight>, core: usize) -> bool
    ensures { result ≡ reads_at asked.now core }
{
    match asked {
        Some(InFlight::Read(reading)) => is_at(reading.under_way, core),
        _ => false,
    }
}

/// A user whose session was taken out, and whose read is in flight, is replied a result from this
/// position, unless its session has seen a later state; then the read waits again.
pub(crate) fn reply_if_fresh(
    sessions: &mut Sessions,
    alloc: Global,
    user: u64,
    position: u32,
    session: Session,
    answer: &[u8],
    acts: &mut Vec<Act>,
) -> Result<(), NoMemory>
    ensures sessions { OnOk result (sessions.new ≡ finite.insert sessions.old user
        (fresh_if (nat_le session.seen position) user position session answer.now).0) }
    ensures acts { OnOk result (acts.new.items ≡ acts.old.items
        ++ (fresh_if (nat_le session.seen position) user position session answer.now).1) }
{
    if session.seen <= position {
        sessions.put(user, session.replied(position))?;
        return put_answer(alloc, user, reply_to(Form::Value, answer), acts);
    }
    let mut session = session;
    wait_again(&mut session.asked);
    sessions.put(user, session)?;
    put_act(acts, Act::Waits { user, again: true })
}

/// A core was answered: a user whose session was taken out, and whose read this is, is replied the
/// result, unless its session has seen a later state.
pub(crate) fn end_reading(
    sessions: &mut Sessions,
    alloc: Global,
    user: u64,
    position: u32,
    session: Session,
    way: UnderWay,
    answer: &[u8],
    acts: &mut Vec<Act>,
) -> Result<(), NoMemory>
    ensures sessions { OnOk result (sessions.new ≡ finite.insert sessions.old user
        (read_answered user position session way answer.now).0) }
    ensures acts { OnOk result (acts.new.items ≡ acts.old.items
        ++ (read_answered user position session way answer.now).1) }
{
    if !reads_by(&session.asked, way) {
        return sessions.put(user, session);
    }
    reply_if_fresh(sessions, alloc, user, position, session, answer, acts)
}
