ghost use Rattle.std.specs.Prelude.{◌≡◌, ◌++◌, IsTrue, OnOk, OnErr};
ghost use Rattle.transcript_rows.specs.Rows.{is_final, row_text};
ghost use Rattle.transcript_rows.specs.declared.row.Row.TheVariants as rows;

use crate::row::Row;
use nop_types::{Actor, Bytes, Dest, Entry, NoMemory, Phase, View};
use transcript_text::{
    Field, accept_line, busy_line, dead_line, end_line, entry_line, history_line, read_line,
    submit_line, write_line,
};

/// The line of a datagram that was sent, of which its kind and its length are known.
#[tactic(auto, unfolding(crate::specs::Rows::row_text))]
fn put_sent(
    index: u64,
    from: Actor,
    dest: Dest,
    kind: u8,
    len: u32,
    to: &mut Vec<u8>,
) -> Result<(), NoMemory>
    ensures ok { OnOk result (to.new.items
        ≡ to.old.items ++ row_text (rows.Sent index from dest kind len)) }
    ensures err { OnErr result (to.new.items ≡ to.old.items) }
{
    let fields = [
        Field::Number(index),
        Field::Name(from),
        Field::To(dest),
        Field::Kind(kind),
        Field::Number(u64::from(len)),
    ];
    write_line("send", &fields, to)
}

/// The answer to a read.
#[tactic(auto, unfolding(crate::specs::Rows::row_text))]
fn put_answer(
    client: u32,
    id: u64,
    observer: u8,
    position: u32,
    answer: &Bytes,
    to: &mut Vec<u8>,
) -> Result<(), NoMemory>
    ensures ok { OnOk result (to.new.items
        ≡ to.old.items ++ row_text (rows.Answer client id observer position answer.now)) }
    ensures err { OnErr result (to.new.items ≡ to.old.items) }
{
    let fields = [
        Field::Name(Actor::Client(client)),
        Field::Number(id),
        Field::Name(Actor::Observer(observer)),
        Field::Number(u64::from(position)),
        Field::Hex(answer.as_slice()),
    ];
    write_line("answer", &fields, to)
}

/// How a replica stands at the end.
#[tactic(auto, unfolding(crate::specs::Rows::row_text))]
fn put_state(
    replica: u8,
    crashed: bool,
    status: Phase,
    view: View,
    len: u32,
    sync_point: u32,
    to: &mut Vec<u8>,
) -> Result<(), NoMemory>
    ensures ok { OnOk result (to.new.items
        ≡ to.old.items ++ row_text (rows.State replica crashed status view len sync_point)) }
    ensures err { OnErr result (to.new.items ≡ to.old.items) }
{
    let fields = [
        Field::Name(Actor::Replica(replica)),
        Field::Crashed(crashed),
        Field::Status(status),
        Field::Number(u64::from(view.leader)),
        Field::Number(view.session),
        Field::Number(u64::from(len)),
        Field::Number(u64::from(sync_point)),
    ];
    write_line("replica", &fields, to)
}

/// How an observer stands at the end.
#[tactic(auto, unfolding(crate::specs::Rows::row_text))]
fn put_watching(
    observer: u8,
    crashed: bool,
    position: u32,
    to: &mut Vec<u8>,
) -> Result<(), NoMemory>
    ensures ok { OnOk result (to.new.items
        ≡ to.old.items ++ row_text (rows.Watching observer crashed position)) }
    ensures err { OnErr result (to.new.items ≡ to.old.items) }
{
    let fields = [
        Field::Name(Actor::Observer(observer)),
        Field::Crashed(crashed),
        Field::Number(u64::from(position)),
    ];
    write_line("observer", &fields, to)
}

/// A slot of a replica's log.
#[tactic(auto, unfolding(crate::specs::Rows::row_text, transcript_text::specs::Transcript::entry_line))]
fn put_slot(replica: u8, slot: u32, entry: &Entry, to: &mut Vec<u8>) -> Result<(), NoMemory>
    ensures ok { OnOk result (to.new.items
        ≡ to.old.items ++ row_text (rows.Slot replica slot entry.now)) }
    ensures err { OnErr result (to.new.items ≡ to.old.items) }
{
    match entry {
        Entry::NoOp => entry_line(replica, slot, entry, to),
        Entry::Req(_) => entry_line(replica, slot, entry, to),
    }
}

/// Appends the line of a row of the end of a run.
#[tactic(auto, unfolding(crate::specs::Rows::row_text, transcript_text::specs::Transcript::history_line, transcript_text::specs::Transcript::end_line))]
fn write_final_row(row: &Row, to: &mut Vec<u8>) -> Result<(), NoMemory>
    requires { IsTrue (is_final row.now) }
    ensures ok { OnOk result (to.new.items ≡ to.old.items ++ row_text row.now) }
    ensures err { OnErr result (to.new.items ≡ to.old.items) }
{
    match row {
        Row::State {
            replica,
            crashed,
            status,
            view,
            len,
            sync_point,
        } => put_state(*replica, *crashed, *status, *view, *len, *sync_point, to),
        Row::Slot {
            replica,
            slot,
            entry,
        } => put_slot(*replica, *slot, entry, to),
        Row::Watching {
            observer,
            crashed,
            position,
        } => put_watching(*observer, *crashed, *position, to),
        Row::Member { place, request } => history_line(*place, request, to),
        Row::End => end_line(to),
        _ => unreachable!(),
    }
}

/// Appends the line of a row, by the writers of transcripts.
#[tactic(auto, unfolding(crate::specs::Rows::row_text, transcript_text::specs::Transcript::dead_line, transcript_text::specs::Transcript::submit_line, transcript_text::specs::Transcript::accept_line, transcript_text::specs::Transcript::busy_line, transcript_text::specs::Transcript::read_line))]
pub fn write_row(row: &Row, to: &mut Vec<u8>) -> Result<(), NoMemory>
    ensures ok { OnOk result (to.new.items ≡ to.old.items ++ row_text row.now) }
    ensures err { OnErr result (to.new.items ≡ to.old.items) }
{
    match row {
        Row::Dead(actor) => dead_line(*actor, to),
        Row::Submit(request) => submit_line(request, to),
        Row::Accept { client, id, result } => accept_line(*client, *id, result, to),
        Row::Busy(client) => busy_line(*client, to),
        Row::Read {
            client,
            id,
            observer,
            key,
        } => read_line(*client, *id, *observer, key, to),
        Row::Answer {
            client,
            id,
            observer,
            position,
            result,
        } => put_answer(*client, *id, *observer, *position, result, to),
        Row::Sent {
            index,
            from,
            dest,
            kind,
            len,
        } => put_sent(*index, *from, *dest, *kind, *len, to),
        _ => write_final_row(row, to),
    }
}
