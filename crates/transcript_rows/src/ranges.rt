//! Whether the numbers of a row are in their ranges.

ghost use Rattle.std.specs.Prelude.{◌≡◌, ◌<◌, ◌^◌};
ghost use Rattle.hex.specs.Hex.{IsBytes};
ghost use Rattle.transcript_rows.specs.Rows.{actor_fits, dest_fits, pair_fits, request_fits};
ghost use Rattle.transcript_rows.specs.Rows.{entry_fits, row_fits, IsTypedRequest, IsTypedEntry};
ghost use Rattle.transcript_rows.specs.Rows.{IsTypedRead, IsTypedAnswer, IsTyped};

use crate::row::{MAX_SENT_BYTES, Row};
use nop_types::{
    Actor, Bytes, Dest, Entry, Key, MAX_CLIENTS, MAX_CONTROLLERS, MAX_OBSERVERS, MAX_REPLICAS,
    MAX_RESULT_BYTES, MAX_SEQUENCERS, Request, View, kinds,
};

fn actor_fits(actor: Actor) -> bool
    ensures { result ≡ actor_fits actor }
{
    match actor {
        Actor::Replica(i) => i < MAX_REPLICAS,
        Actor::Sequencer(i) => i < MAX_SEQUENCERS,
        Actor::Client(i) => i < u32::from(MAX_CLIENTS),
        Actor::Controller(i) => i < MAX_CONTROLLERS,
        Actor::Observer(i) => i < MAX_OBSERVERS,
    }
}

fn dest_fits(dest: Dest) -> bool
    ensures { result ≡ dest_fits dest }
{
    match dest {
        Dest::Replicas | Dest::Sequencers => true,
        Dest::One(actor) => actor_fits(actor),
    }
}

fn pair_fits(client: u32, id: u64) -> bool
    ensures { result ≡ pair_fits client id }
{
    client < u32::from(MAX_CLIENTS) && 1 <= id
}

fn request_fits(request: &Request) -> bool
    ensures { result ≡ request_fits request.now }
{
    pair_fits(request.client, request.id)
}

fn entry_fits(entry: &Entry) -> bool
    ensures { result ≡ entry_fits entry.now }
{
    match entry {
        Entry::NoOp => true,
        Entry::Req(request) => request_fits(request),
    }
}

pub(crate) fn row_fits(row: &Row) -> bool
    ensures { result ≡ row_fits row.now }
{
    match row {
        Row::Dead(actor) => actor_fits(*actor),
        Row::Submit(request) => request_fits(request),
        Row::Accept { client, id, result } => {
            pair_fits(*client, *id) && result.as_slice().len() <= MAX_RESULT_BYTES
        }
        Row::Busy(client) => *client < u32::from(MAX_CLIENTS),
        Row::Read {
            client,
            id,
            observer,
            ..
        } => pair_fits(*client, *id) && *observer < MAX_OBSERVERS,
        Row::Answer {
            client,
            id,
            observer,
            result,
            ..
        } => {
            pair_fits(*client, *id)
                && *observer < MAX_OBSERVERS
                && result.as_slice().len() <= MAX_RESULT_BYTES
        }
        Row::Sent {
            from,
            dest,
            kind,
            len,
            ..
        } => {
            actor_fits(*from)
                && dest_fits(*dest)
                && kinds::REQUEST <= *kind
                && *kind <= kinds::ANSWER
                && *len <= MAX_SENT_BYTES
        }
        Row::State { replica, view, .. } => *replica < MAX_REPLICAS && 1 <= view.session,
        Row::Slot {
            replica,
            slot,
            entry,
        } => *replica < MAX_REPLICAS && 1 <= *slot && entry_fits(entry),
        Row::Watching { observer, .. } => *observer < MAX_OBSERVERS,
        Row::Member { place, request } => 1 <= *place && request_fits(request),
        Row::End => true,
    }
}

fn are_bytes(bytes: &[u8])
    ensures { IsBytes bytes.now }
{
    let _bytes = bytes;
}

fn typed_request(request: &Request)
    ensures { IsTypedRequest request.now }
{
    let _id = request.id;
    are_bytes(request.op.as_slice());
}

fn typed_entry(entry: &Entry)
    ensures { IsTypedEntry entry.now }
{
    if let Entry::Req(request) = entry {
        typed_request(request);
    }
}

fn typed_view(view: View)
    ensures { (view.leader < 2 ^ 32) × (view.session < 2 ^ 64) }
{
    let _leader = view.leader;
    let _session = view.session;
}

fn typed_read(id: u64, key: &Key)
    ensures { IsTypedRead id key.now }
{
    are_bytes(key.as_slice());
}

fn typed_answer(id: u64, position: u32, answer: &Bytes)
    ensures { IsTypedAnswer id position answer.now }
{
    are_bytes(answer.as_slice());
}

/// What the types of a row keep.
pub(crate) fn typed(row: &Row)
    ensures { IsTyped row.now }
{
    match row {
        Row::Submit(request) => typed_request(request),
        Row::Accept { id, result, .. } => {
            let _id = *id;
            are_bytes(result.as_slice());
        }
        Row::Read { id, key, .. } => typed_read(*id, key),
        Row::Answer {
            id,
            position,
            result,
            ..
        } => typed_answer(*id, *position, result),
        Row::Sent { index, .. } => {
            let _index = *index;
        }
        Row::State {
            view,
            len,
            sync_point,
            ..
        } => {
            let _len = *len;
            let _sync_point = *sync_point;
            typed_view(*view);
        }
        Row::Slot { slot, entry, .. } => {
            let _slot = *slot;
            typed_entry(entry);
        }
        Row::Watching { position, .. } => {
            let _position = *position;
        }
        Row::Member { place, request } => {
            let _place = *place;
            typed_request(request);
        }
        Row::Dead(_) | Row::Busy(_) | Row::End => {}
    }
}
