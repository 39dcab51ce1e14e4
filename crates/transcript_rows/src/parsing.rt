//! The row that the fields of a line give. It may be too lenient: a line is that row only where it is its text.

ghost use Rattle.std.specs.Prelude.{◌≡◌, Some, None, IfOk, MatchOption};
ghost use Rattle.std.specs.Option.{option_copied};
ghost use Rattle.line_fields.specs.Fields.{fields};
ghost use Rattle.line_fields.specs.Split.{other_fields};
ghost use Rattle.transcript_rows.specs.Reading.{pair_of, request_of, submit_of, accept_of};
ghost use Rattle.transcript_rows.specs.Reading.{member_of, slot_of, dead_of, busy_of, sent_row};
ghost use Rattle.transcript_rows.specs.Reading.{sent_of, state_row, state_of, short_row_of};
ghost use Rattle.transcript_rows.specs.Reading.{asked_of, read_of, answered_of, answer_of};
ghost use Rattle.transcript_rows.specs.Reading.{watching_of};
ghost use Rattle.transcript_rows.specs.Reading.{row_of_fields, no_op_row, slot_row};
ghost use Rattle.transcript_rows.specs.Reading.{replica_of, word_of};

use crate::fields::{actor, client, crashed, dest, kind, observer, op, replica, status, word};
use crate::row::Row;
use line_fields::{bytes, cut, is_word, key, next_field, number};
use nop_types::{Entry, NoMemory, Request, View};
use std::alloc::Global;

/// A client, an id, and a field that is not read yet.
fn pair(rest: Option<&[u8]>) -> Option<(u32, u64, &[u8])>
    ensures { let read = pair_of (other_fields (option_copied rest.entry)) in
        MatchOption result (read ≡ None) (λ p. read ≡ Some (p.0, p.1, p.2.now)) }
{
    let (name, rest) = next_field(rest)?;
    let (id, rest) = next_field(rest)?;
    let (text, _) = next_field(rest)?;
    Some((client(name)?, number(id)?, text))
}

fn request(alloc: Global, rest: Option<&[u8]>) -> Result<Option<Request>, NoMemory>
    ensures { IfOk result (λ r. r ≡ request_of (other_fields (option_copied rest.entry))) }
{
    let Some((client, id, text)) = pair(rest) else {
        return Ok(None);
    };
    match op(alloc, text)? {
        Some(op) => Ok(Some(Request { client, id, op })),
        None => Ok(None),
    }
}

/// `submit C ID HEX`
fn submit(alloc: Global, rest: Option<&[u8]>) -> Result<Option<Row>, NoMemory>
    ensures { IfOk result (λ row. row ≡ submit_of (other_fields (option_copied rest.entry))) }
{
    match request(alloc, rest)? {
        Some(request) => Ok(Some(Row::Submit(request))),
        None => Ok(None),
    }
}

/// `accept C ID HEX`
fn accept(alloc: Global, rest: Option<&[u8]>) -> Result<Option<Row>, NoMemory>
    ensures { IfOk result (λ row. row ≡ accept_of (other_fields (option_copied rest.entry))) }
{
    let Some((client, id, text)) = pair(rest) else {
        return Ok(None);
    };
    match bytes(alloc, text)? {
        Some(result) => Ok(Some(Row::Accept { client, id, result })),
        None => Ok(None),
    }
}

/// A client, an id, an observer, and a field that is not read yet.
fn asked(rest: Option<&[u8]>) -> Option<(u32, u64, u8, &[u8])>
    ensures { let read = asked_of (other_fields (option_copied rest.entry)) in
        MatchOption result (read ≡ None) (λ p. read ≡ Some (p.0, p.1, p.2, p.3.now)) }
{
    let (name, rest) = next_field(rest)?;
    let (id, rest) = next_field(rest)?;
    let (by, rest) = next_field(rest)?;
    let (text, _) = next_field(rest)?;
    Some((client(name)?, number(id)?, observer(by)?, text))
}

/// `read C ID oI HEX`
fn read(alloc: Global, rest: Option<&[u8]>) -> Result<Option<Row>, NoMemory>
    ensures { IfOk result (λ row. row ≡ read_of (other_fields (option_copied rest.entry))) }
{
    let Some((client, id, observer, text)) = asked(rest) else {
        return Ok(None);
    };
    match key(alloc, text)? {
        Some(key) => {
            Ok(Some(Row::Read {
                client,
                id,
                observer,
                key,
            }))
        }
        None => Ok(None),
    }
}

/// A client, an id, an observer, a position, and a field that is not read yet.
fn answered(rest: Option<&[u8]>) -> Option<(u32, u64, u8, u32, &[u8])>
    ensures { let read = answered_of (other_fields (option_copied rest.entry)) in
        MatchOption result (read ≡ None) (λ p. read ≡ Some (p.0, p.1, p.2, p.3, p.4.now)) }
{
    let (name, rest) = next_field(rest)?;
    let (id, rest) = next_field(rest)?;
    let (by, rest) = next_field(rest)?;
    let (position, rest) = next_field(rest)?;
    let (text, _) = next_field(rest)?;
    Some((
        client(name)?,
        number(id)?,
        observer(by)?,
        word(position)?,
        text,
    ))
}

/// `answer C ID oI POSITION HEX`
fn answer(alloc: Global, rest: Option<&[u8]>) -> Result<Option<Row>, NoMemory>
    ensures { IfOk result (λ row. row ≡ answer_of (other_fields (option_copied rest.entry))) }
{
    let Some((client, id, observer, position, text)) = answered(rest) else {
        return Ok(None);
    };
    match bytes(alloc, text)? {
        Some(result) => {
            Ok(Some(Row::Answer {
                client,
                id,
                observer,
                position,
                result,
            }))
        }
        None => Ok(None),
    }
}

/// `history I C ID HEX`
fn member(alloc: Global, rest: Option<&[u8]>) -> Result<Option<Row>, NoMemory>
    ensures { IfOk result (λ row. row ≡ member_of (other_fields (option_copied rest.entry))) }
{
    let Some((place, rest)) = next_field(rest) else {
        return Ok(None);
    };
    let Some(place) = word(place) else {
        return Ok(None);
    };
    match request(alloc, rest)? {
        Some(request) => Ok(Some(Row::Member { place, request })),
        None => Ok(None),
    }
}

fn no_op_slot(number: &[u8], slot: &[u8]) -> Option<Row>
    ensures { result ≡ no_op_row (replica_of number.now) (word_of slot.now) }
{
    match (replica(number), word(slot)) {
        (Some(replica), Some(slot)) => {
            Some(Row::Slot {
                replica,
                slot,
                entry: Entry::NoOp,
            })
        }
        _ => None,
    }
}

fn request_slot(number: &[u8], slot: &[u8], request: Option<Request>) -> Option<Row>
    ensures { result ≡ slot_row (replica_of number.now) (word_of slot.now) request }
{
    match (replica(number), word(slot), request) {
        (Some(replica), Some(slot), Some(request)) => {
            Some(Row::Slot {
                replica,
                slot,
                entry: Entry::Req(request),
            })
        }
        _ => None,
    }
}

/// `entry rI SLOT noop` or `entry rI SLOT C ID HEX`
fn slot(alloc: Global, rest: Option<&[u8]>) -> Result<Option<Row>, NoMemory>
    ensures { IfOk result (λ row. row ≡ slot_of (other_fields (option_copied rest.entry))) }
{
    let Some((number, rest)) = next_field(rest) else {
        return Ok(None);
    };
    let Some((slot, rest)) = next_field(rest) else {
        return Ok(None);
    };
    let Some((entry, _)) = next_field(rest) else {
        return Ok(None);
    };
    if is_word(entry, "noop") {
        return Ok(no_op_slot(number, slot));
    }
    Ok(request_slot(number, slot, request(alloc, rest)?))
}

/// `dead ACTOR`
fn dead(rest: Option<&[u8]>) -> Option<Row>
    ensures { result ≡ dead_of (other_fields (option_copied rest.entry)) }
{
    let (name, _) = next_field(rest)?;
    Some(Row::Dead(actor(name)?))
}

/// `busy C`
fn busy(rest: Option<&[u8]>) -> Option<Row>
    ensures { result ≡ busy_of (other_fields (option_copied rest.entry)) }
{
    let (name, _) = next_field(rest)?;
    Some(Row::Busy(client(name)?))
}

fn sent_row(index: &[u8], from: &[u8], to: &[u8], name: &[u8], len: &[u8]) -> Option<Row>
    ensures { result ≡ sent_row index.now from.now to.now name.now len.now }
{
    Some(Row::Sent {
        index: number(index)?,
        from: actor(from)?,
        dest: dest(to)?,
        kind: kind(name)?,
        len: word(len)?,
    })
}

/// `send I FROM TO KIND LEN`
fn sent(rest: Option<&[u8]>) -> Option<Row>
    ensures { result ≡ sent_of (other_fields (option_copied rest.entry)) }
{
    let (index, rest) = next_field(rest)?;
    let (from, rest) = next_field(rest)?;
    let (to, rest) = next_field(rest)?;
    let (name, rest) = next_field(rest)?;
    let (len, _) = next_field(rest)?;
    sent_row(index, from, to, name, len)
}

fn state_row(
    name: &[u8],
    up: &[u8],
    phase: &[u8],
    leader: &[u8],
    session: &[u8],
    len: &[u8],
    sync_point: &[u8],
) -> Option<Row>
    ensures { result ≡ state_row name.now up.now phase.now leader.now session.now len.now
        sync_point.now }
{
    let replica = replica(name)?;
    let leader = word(leader)?;
    let session = number(session)?;
    let len = word(len)?;
    let sync_point = word(sync_point)?;
    Some(Row::State {
        replica,
        crashed: crashed(up),
        status: status(phase),
        view: View { leader, session },
        len,
        sync_point,
    })
}

/// `replica rI up|crashed normal|change LEADER SESSION LENGTH SYNCPOINT`
fn state(rest: Option<&[u8]>) -> Option<Row>
    ensures { result ≡ state_of (other_fields (option_copied rest.entry)) }
{
    let (number, rest) = next_field(rest)?;
    let (up, rest) = next_field(rest)?;
    let (phase, rest) = next_field(rest)?;
    let (leader, rest) = next_field(rest)?;
    let (session, rest) = next_field(rest)?;
    let (len, rest) = next_field(rest)?;
    let (sync_point, _) = next_field(rest)?;
    state_row(number, up, phase, leader, session, len, sync_point)
}

/// `observer oI up|crashed POSITION`
fn watching(rest: Option<&[u8]>) -> Option<Row>
    ensures { result ≡ watching_of (other_fields (option_copied rest.entry)) }
{
    let (name, rest) = next_field(rest)?;
    let (up, rest) = next_field(rest)?;
    let (position, _) = next_field(rest)?;
    let observer = observer(name)?;
    let position = word(position)?;
    Some(Row::Watching {
        observer,
        crashed: crashed(up),
        position,
    })
}

/// A row that holds no bytes.
fn short_row(first: &[u8], rest: Option<&[u8]>) -> Option<Row>
    ensures { result ≡ short_row_of first.now (other_fields (option_copied rest.entry)) }
{
    if is_word(first, "send") {
        return sent(rest);
    }
    if is_word(first, "dead") {
        return dead(rest);
    }
    if is_word(first, "busy") {
        return busy(rest);
    }
    if is_word(first, "replica") {
        return state(rest);
    }
    if is_word(first, "observer") {
        return watching(rest);
    }
    if is_word(first, "end") {
        return Some(Row::End);
    }
    None
}

/// The row of a line, by the word that comes first.
#[tactic(auto, unfolding(crate::specs::Reading::row_of_fields))]
pub(crate) fn row_of_line(alloc: Global, line: &[u8]) -> Result<Option<Row>, NoMemory>
    ensures { IfOk result (λ row. row ≡ row_of_fields (fields line.now)) }
{
    let (first, rest) = cut(line);
    if is_word(first, "submit") {
        return submit(alloc, rest);
    }
    if is_word(first, "accept") {
        return accept(alloc, rest);
    }
    if is_word(first, "entry") {
        return slot(alloc, rest);
    }
    if is_word(first, "history") {
        return member(alloc, rest);
    }
    if is_word(first, "read") {
        return read(alloc, rest);
    }
    if is_word(first, "answer") {
        return answer(alloc, rest);
    }
    Ok(short_row(first, rest))
}
