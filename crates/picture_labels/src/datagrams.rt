//! What a datagram is, in a few words.

ghost use Rattle.std.specs.Prelude.{◌≡◌, IfOk, OnErr};
ghost use Rattle.oum_codec.specs.Reading.{reading};
ghost use Rattle.picture_labels.specs.Datagrams.{IsNoDatagram, mark_of, mark_shown, purpose_of};

use crate::naming::{note_of, put_request, put_result, put_session, put_view};
use nop_types::{Answer, Body, Datagram, Fragment, Log, NoMemory, Peer, Reply, View};
use op_text::OpText;
use oum_codec::read_datagram;
use peer_codec::read_peer;
use picture::{Mark, Note, Purpose, Text};
use std::alloc::Global;

/// What a datagram is for, and its text.
#[derive(Drop)]
pub struct Label {
    pub purpose: Purpose,
    pub text: String,
    /// The text for a reader who sees the lanes that it was sent between.
    pub brief: String,
    /// What shows at the actor that sent it.
    pub note: Option<Note>,
}

fn put_slot(word: &str, slot: u32, to: &mut Text) {
    to.numbered(word, u64::from(slot));
}

/// Up to which slot a checkpoint is in place of the entries, if there is one.
fn put_checkpoint(log: &Log, to: &mut Text) {
    if log.sync_point() > 0 {
        put_slot(", checkpoint ", log.sync_point(), to);
    }
}

fn put_log_of_view(word: &str, view: View, log: &Log, to: &mut Text) {
    put_view(word, view, to);
    put_checkpoint(log, to);
}

fn put_prepare(log: &Log, to: &mut Text) {
    put_slot("SyncPrepare ", log.len(), to);
    put_checkpoint(log, to);
}

fn put_peer(peer: &Peer, to: &mut Text) {
    match &peer.body {
        Body::SlotLookup(slot) => put_slot("SlotLookup ", *slot, to),
        Body::Found(slot, _) => put_slot("Found ", *slot, to),
        Body::GapCommit(slot) => put_slot("GapCommit ", *slot, to),
        Body::GapRep(slot) => put_slot("GapRep ", *slot, to),
        Body::ViewChangeReq => put_view("ViewChangeReq ", peer.view, to),
        Body::ViewChange { log, .. } => put_log_of_view("ViewChange ", peer.view, log, to),
        Body::StartView { log, .. } => put_log_of_view("StartView ", peer.view, log, to),
        Body::SyncPrepare(log) => put_prepare(log, to),
        Body::SyncRep(len) => put_slot("SyncRep ", *len, to),
        Body::SyncCommit(len) => put_slot("SyncCommit ", *len, to),
    }
}

/// A part of a longer message by its number.
fn put_part(index: u16, count: u16, to: &mut Text) {
    to.numbered("fragment ", u64::from(index) + 1);
    to.numbered(" of ", u64::from(count));
}

fn put_fragment(fragment: &Fragment, peer: &Option<Peer>, to: &mut Text) {
    match peer {
        Some(peer) => put_peer(peer, to),
        None => put_part(fragment.index, fragment.count, to),
    }
}

fn put_reply<T: OpText>(alloc: Global, reply: &Reply, to: &mut Text) -> Result<(), NoMemory> {
    to.put("reply ");
    put_request(reply.client, reply.id, to);
    put_slot(" slot ", reply.slot, to);
    if reply.tag == 1 {
        put_result::<T>(alloc, reply.result.as_slice(), to)?;
    }
    Ok(())
}

fn put_answer<T: OpText>(alloc: Global, answer: &Answer, to: &mut Text) -> Result<(), NoMemory> {
    to.put("answer ");
    put_request(answer.client, answer.id, to);
    put_slot(" at ", answer.position, to);
    put_result::<T>(alloc, answer.result.as_slice(), to)
}

/// A word and a session.
fn put_ordered(word: &str, session: u64, to: &mut Text) {
    to.put(word);
    put_session(session, to);
}

fn put_stamp(session: u64, number: u64, to: &mut Text) {
    put_session(session, to);
    to.numbered(":", number);
}

fn put_stamped(session: u64, number: u64, client: u32, id: u64, to: &mut Text) {
    to.put("stamped ");
    put_stamp(session, number, to);
    to.put(" ");
    put_request(client, id, to);
}

fn put_datagram<T: OpText>(
    alloc: Global,
    datagram: &Datagram,
    peer: &Option<Peer>,
    to: &mut Text,
) -> Result<(), NoMemory> {
    match datagram {
        Datagram::Request(request) => {
            to.put("request ");
            put_request(request.client, request.id, to);
        }
        Datagram::Stamped(stamped) => {
            let request = &stamped.request;
            put_stamped(
                stamped.session,
                stamped.number,
                request.client,
                request.id,
                to,
            );
        }
        Datagram::Reply(reply) => put_reply::<T>(alloc, reply, to)?,
        Datagram::Install { session, .. } => put_ordered("install session ", *session, to),
        Datagram::Installed { session, .. } => put_ordered("installed session ", *session, to),
        Datagram::Ping { round, .. } => put_slot("ping ", *round, to),
        Datagram::Pong { round, .. } => put_slot("pong ", *round, to),
        Datagram::Fragment(fragment) => put_fragment(fragment, peer, to),
        Datagram::Read(read) => {
            to.put("read ");
            put_request(read.client, read.id, to);
        }
        Datagram::Answer(answer) => put_answer::<T>(alloc, answer, to)?,
    }
    Ok(())
}

fn put_brief<T: OpText>(
    alloc: Global,
    datagram: &Datagram,
    peer: &Option<Peer>,
    to: &mut Text,
) -> Result<(), NoMemory> {
    match datagram {
        Datagram::Request(request) => to.numbered("#", request.id),
        Datagram::Stamped(stamped) => put_stamp(stamped.session, stamped.number, to),
        Datagram::Reply(reply) => to.numbered("reply #", reply.id),
        Datagram::Read(read) => to.numbered("read #", read.id),
        Datagram::Answer(answer) => to.numbered("answer #", answer.id),
        _ => put_datagram::<T>(alloc, datagram, peer, to)?,
    }
    Ok(())
}

fn purpose_of(datagram: &Datagram) -> Purpose
    ensures { result ≡ purpose_of datagram.now }
{
    match datagram {
        Datagram::Request(_) | Datagram::Stamped(_) | Datagram::Read(_) => Purpose::Request,
        Datagram::Reply(_) | Datagram::Answer(_) => Purpose::Reply,
        Datagram::Fragment(_) => Purpose::Peer,
        _ => Purpose::Session,
    }
}

/// What shows at the actor that sent a datagram: a stamp, or a session that is ordered or confirmed.
fn put_mark(datagram: &Datagram, to: &mut Text) -> Option<Mark>
    ensures { result ≡ mark_of datagram.now }
{
    match datagram {
        Datagram::Stamped(stamped) => {
            put_stamp(stamped.session, stamped.number, to);
            Some(Mark::Stamped)
        }
        Datagram::Install {
            sequencer,
            session,
            ..
        } => {
            put_ordered("session ", *session, to);
            to.numbered(" at s", u64::from(*sequencer));
            Some(Mark::Session)
        }
        Datagram::Installed { session, .. } => {
            put_ordered("session ", *session, to);
            Some(Mark::Session)
        }
        _ => None,
    }
}

fn sent_note(alloc: Global, datagram: &Datagram) -> Result<Option<Note>, NoMemory>
    ensures { IfOk result (λ note. mark_shown note ≡ mark_of datagram.now) }
{
    let mut text = Text::new(alloc);
    match put_mark(datagram, &mut text) {
        Some(mark) => Ok(Some(note_of(mark, text)?)),
        None => Ok(None),
    }
}

/// The message of a fragment that is the only one.
fn peer_in(alloc: Global, datagram: &Datagram) -> Result<Option<Peer>, NoMemory> {
    match datagram {
        Datagram::Fragment(fragment) if fragment.count == 1 => {
            read_peer(alloc, fragment.payload.as_slice())
        }
        _ => Ok(None),
    }
}

fn text_of<T: OpText>(
    alloc: Global,
    datagram: &Datagram,
    peer: &Option<Peer>,
) -> Result<String, NoMemory> {
    let mut text = Text::new(alloc);
    put_datagram::<T>(alloc, datagram, peer, &mut text)?;
    text.finish()
}

fn brief_of<T: OpText>(
    alloc: Global,
    datagram: &Datagram,
    peer: &Option<Peer>,
) -> Result<String, NoMemory> {
    let mut brief = Text::new(alloc);
    put_brief::<T>(alloc, datagram, peer, &mut brief)?;
    brief.finish()
}

fn label_with<T: OpText>(
    alloc: Global,
    datagram: &Datagram,
    peer: &Option<Peer>,
) -> Result<Label, NoMemory>
    ensures purpose { IfOk result (λ l. l.purpose ≡ purpose_of datagram.now) }
    ensures mark { IfOk result (λ l. mark_shown l.note ≡ mark_of datagram.now) }
{
    let text = text_of::<T>(alloc, datagram, peer)?;
    let brief = brief_of::<T>(alloc, datagram, peer)?;
    Ok(Label {
        purpose: purpose_of(datagram),
        text,
        brief,
        note: sent_note(alloc, datagram)?,
    })
}

fn label_of<T: OpText>(alloc: Global, datagram: &Datagram) -> Result<Label, NoMemory>
    ensures purpose { IfOk result (λ l. l.purpose ≡ purpose_of datagram.now) }
    ensures mark { IfOk result (λ l. mark_shown l.note ≡ mark_of datagram.now) }
{
    let peer = peer_in(alloc, datagram)?;
    label_with::<T>(alloc, datagram, &peer)
}

fn no_label(alloc: Global) -> Result<Label, NoMemory>
    ensures { IfOk result IsNoDatagram }
{
    Ok(Label {
        purpose: Purpose::Peer,
        text: String::from_str(alloc, "no datagram")?,
        brief: String::new(alloc),
        note: None,
    })
}

/// What the bytes of a datagram are for, their texts, and what shows where they were sent.
pub fn describe<T: OpText>(alloc: Global, bytes: &[u8]) -> Result<Label, NoMemory>
    ensures purpose { IfOk result (λ l. IfOk (reading bytes.now) (λ d.
        l.purpose ≡ purpose_of d)) }
    ensures mark { IfOk result (λ l. IfOk (reading bytes.now) (λ d.
        mark_shown l.note ≡ mark_of d)) }
    ensures none { IfOk result (λ l. OnErr (reading bytes.now) (IsNoDatagram l)) }
{
    match read_datagram(alloc, bytes)? {
        Some(datagram) => label_of::<T>(alloc, &datagram),
        None => no_label(alloc),
    }
}
