ghost use Rattle.std.specs.Prelude.{◌≡◌, ◌≤◌, ◌++◌, ◌∷◌, [], length, map, All, OnOk, OnErr};
ghost use Rattle.std.specs.Int.{w16, w32, w64};
ghost use Rattle.std.specs.List.{flat_map};
ghost use Rattle.std.specs.Option.{option_copied};
ghost use Rattle.nop_types.specs.declared.limits.TheConstants.{MAX_RESULT_BYTES, MAX_SERVED, MAX_SLOTS, WINDOW};
ghost use Rattle.nop_types.specs.BorrowedLogs.{log_of};
ghost use Rattle.nop_types.specs.Checkpoints.{saved_account};
ghost use Rattle.nop_types.specs.Ranges.{PeerFits};
ghost use Rattle.oum_codec.specs.Numbers.{be_bytes};
ghost use Rattle.oum_codec.specs.Spelling.{view_bytes};
ghost use Rattle.peer_codec.specs.LogBodies.{log_in, with_log, log_message};
ghost use Rattle.peer_codec.specs.Spelling.{entry_bytes, entries_bytes, answered_bytes, account_bytes, accounts_bytes};
ghost use Rattle.peer_codec.specs.Spelling.{checkpoint_bytes, optional_bytes, log_bytes, kind_of, head_bytes, body_bytes};
ghost use Rattle.peer_codec.specs.Spelling.{spelling};

use crate::LogBody;
use crate::lengths::{HEAD_BYTES, body_len, log_body_len};
use nop_types::{
    Answered, Body, Checkpoint, Entry, LogRef, NoMemory, Peer, SavedClient, View, kinds,
};
use oum_codec::{put_request, put_u32, put_u64, put_view};
use std::alloc::Global;

/// The fields of a request's entry before its op: tag, client, id and the length of the op.
#[tactic(auto, unfolding(oum_codec::specs::Numbers::be_bytes))]
fn entry_header(client: u32, id: u64, op_len: u16) -> [u8; 15]
    ensures { result ≡ 1 ∷ [] ++ be_bytes w32 client ++ be_bytes w64 id ++ be_bytes w16 op_len }
{
    let [c0, c1, c2, c3] = client.to_be_bytes();
    let [i0, i1, i2, i3, i4, i5, i6, i7] = id.to_be_bytes();
    let [n0, n1] = op_len.to_be_bytes();
    [1, c0, c1, c2, c3, i0, i1, i2, i3, i4, i5, i6, i7, n0, n1]
}

/// A request in two pieces, its fields and its op, since a log has thousands.
fn put_entry(to: &mut Vec<u8>, entry: &Entry) -> Result<(), NoMemory>
    ensures { OnOk result (to.new.items ≡ to.old.items ++ entry_bytes entry.now) }
{
    match entry {
        Entry::NoOp => to.push(0)?,
        Entry::Req(request) => {
            let op = request.op.as_slice();
            let prefix = entry_header(request.client, request.id, op.len() as u16);
            to.extend_from_slice(&prefix)?;
            to.extend_from_slice(op)?;
        }
    }
    Ok(())
}

fn put_entries(to: &mut Vec<u8>, entries: &[Entry]) -> Result<(), NoMemory>
    requires { length entries.now ≤ MAX_SLOTS }
    ensures { OnOk result (to.new.items ≡ to.old.items ++ entries_bytes entries.now) }
{
    put_u32(to, entries.len() as u32)?;
    for entry in entries {
        put_entry(to, entry)?;
    }
    Ok(())
}

/// The fields of a kept result before its bytes: its id and their number.
#[tactic(auto, unfolding(oum_codec::specs::Numbers::be_bytes))]
fn answered_header(id: u64, result_len: u16) -> [u8; 10]
    ensures { result ≡ be_bytes w64 id ++ be_bytes w16 result_len }
{
    let [i0, i1, i2, i3, i4, i5, i6, i7] = id.to_be_bytes();
    let [n0, n1] = result_len.to_be_bytes();
    [i0, i1, i2, i3, i4, i5, i6, i7, n0, n1]
}

fn put_answered(to: &mut Vec<u8>, answered: &Answered) -> Result<(), NoMemory>
    requires { length answered.now.result ≤ MAX_RESULT_BYTES }
    ensures { OnOk result (to.new.items ≡ to.old.items ++ answered_bytes answered.now) }
{
    let result = answered.result.as_slice();
    let prefix = answered_header(answered.id, result.len() as u16);
    to.extend_from_slice(&prefix)?;
    to.extend_from_slice(result)?;
    Ok(())
}

fn put_kept(to: &mut Vec<u8>, kept: &[Answered]) -> Result<(), NoMemory>
    requires { All (λ a. length a.result ≤ MAX_RESULT_BYTES) kept.now }
    ensures { OnOk result (to.new.items ≡ to.old.items ++ flat_map answered_bytes kept.now) }
{
    for answered in kept {
        put_answered(to, answered)?;
    }
    Ok(())
}

/// The fields of a client before its results: its number, its greatest id and how many they are.
#[tactic(auto, unfolding(oum_codec::specs::Numbers::be_bytes))]
fn account_header(client: u32, greatest: u64, count: u8) -> [u8; 13]
    ensures { result ≡ be_bytes w32 client ++ be_bytes w64 greatest ++ count ∷ [] }
{
    let [c0, c1, c2, c3] = client.to_be_bytes();
    let [i0, i1, i2, i3, i4, i5, i6, i7] = greatest.to_be_bytes();
    [c0, c1, c2, c3, i0, i1, i2, i3, i4, i5, i6, i7, count]
}

fn put_account(to: &mut Vec<u8>, saved: &SavedClient) -> Result<(), NoMemory>
    requires few { length saved.now.kept.items ≤ WINDOW }
    requires short { All (λ a. length a.result ≤ MAX_RESULT_BYTES) saved.now.kept.items }
    ensures { OnOk result (to.new.items
        ≡ to.old.items ++ account_bytes (saved_account saved.now)) }
{
    let prefix = account_header(saved.client, saved.greatest, saved.kept.len() as u8);
    to.extend_from_slice(&prefix)?;
    put_kept(to, &saved.kept)
}

fn put_accounts(to: &mut Vec<u8>, clients: &[SavedClient]) -> Result<(), NoMemory>
    requires few { length clients.now ≤ MAX_SERVED }
    requires few_kept { All (λ c. length c.kept.items ≤ WINDOW) clients.now }
    requires short { All (λ c. All (λ a. length a.result ≤ MAX_RESULT_BYTES) c.kept.items)
        clients.now }
    ensures { OnOk result (to.new.items
        ≡ to.old.items ++ accounts_bytes (map saved_account clients.now)) }
{
    put_u32(to, clients.len() as u32)?;
    for saved in clients {
        put_account(to, saved)?;
    }
    Ok(())
}

fn put_checkpoint(to: &mut Vec<u8>, checkpoint: &Checkpoint) -> Result<(), NoMemory>
    ensures { OnOk result (to.new.items ≡ to.old.items ++ checkpoint_bytes checkpoint.now) }
{
    let host = checkpoint.host().as_slice();
    put_u32(to, host.len() as u32)?;
    to.extend_from_slice(host)?;
    put_accounts(to, checkpoint.clients())
}

fn put_optional(to: &mut Vec<u8>, checkpoint: Option<&Checkpoint>) -> Result<(), NoMemory>
    ensures { OnOk result (to.new.items
        ≡ to.old.items ++ optional_bytes (option_copied checkpoint.entry)) }
{
    match checkpoint {
        Some(checkpoint) => put_checkpoint(to, checkpoint),
        None => Ok(()),
    }
}

fn put_log(to: &mut Vec<u8>, log: LogRef<'_>) -> Result<(), NoMemory>
    requires { length log.entries.now ≤ MAX_SLOTS }
    ensures { OnOk result (to.new.items ≡ to.old.items ++ log_bytes (log_of log.entry)) }
{
    put_u32(to, log.sync_point)?;
    put_optional(to, log.checkpoint)?;
    put_entries(to, log.entries)
}

fn kind_of(body: &Body) -> u8
    ensures { result ≡ kind_of body.now }
{
    match body {
        Body::SlotLookup(_) => kinds::SLOT_LOOKUP,
        Body::Found(..) => kinds::FOUND,
        Body::GapCommit(_) => kinds::GAP_COMMIT,
        Body::GapRep(_) => kinds::GAP_REP,
        Body::ViewChangeReq => kinds::VIEW_CHANGE_REQ,
        Body::ViewChange { .. } => kinds::VIEW_CHANGE,
        Body::StartView { .. } => kinds::START_VIEW,
        Body::SyncPrepare(_) => kinds::SYNC_PREPARE,
        Body::SyncRep(_) => kinds::SYNC_REP,
        Body::SyncCommit(_) => kinds::SYNC_COMMIT,
    }
}

fn kind_of_log(body: LogBody<'_>) -> u8
    ensures { result ≡ kind_of (with_log body.entry) }
{
    match body {
        LogBody::ViewChange { .. } => kinds::VIEW_CHANGE,
        LogBody::StartView { .. } => kinds::START_VIEW,
        LogBody::SyncPrepare(_) => kinds::SYNC_PREPARE,
    }
}

fn put_head(to: &mut Vec<u8>, kind: u8, sender: u8, view: View) -> Result<(), NoMemory>
    ensures { OnOk result (to.new.items ≡ to.old.items ++ head_bytes kind sender view) }
{
    to.push(kind)?;
    to.push(sender)?;
    put_view(to, view)
}

fn put_log_body(to: &mut Vec<u8>, body: LogBody<'_>) -> Result<(), NoMemory>
    requires { length (log_in body).entries ≤ MAX_SLOTS }
    ensures { OnOk result (to.new.items ≡ to.old.items ++ body_bytes (with_log body.entry)) }
{
    match body {
        LogBody::ViewChange {
            last_normal,
            next,
            log,
        } => {
            put_view(to, last_normal)?;
            put_u64(to, next)?;
            put_log(to, log)
        }
        LogBody::StartView { next, log } => {
            put_u64(to, next)?;
            put_log(to, log)
        }
        LogBody::SyncPrepare(log) => put_log(to, log),
    }
}

fn put_body(to: &mut Vec<u8>, body: &Body) -> Result<(), NoMemory>
    ensures { OnOk result (to.new.items ≡ to.old.items ++ body_bytes body.now) }
{
    match body {
        Body::SlotLookup(slot) | Body::GapCommit(slot) | Body::GapRep(slot) => put_u32(to, *slot),
        Body::Found(slot, request) => {
            put_u32(to, *slot)?;
            put_request(to, request)
        }
        Body::ViewChangeReq => Ok(()),
        Body::ViewChange {
            last_normal,
            next,
            log,
        } => {
            let body = LogBody::ViewChange {
                last_normal: *last_normal,
                next: *next,
                log: log.as_ref(),
            };
            put_log_body(to, body)
        }
        Body::StartView { next, log } => {
            let body = LogBody::StartView {
                next: *next,
                log: log.as_ref(),
            };
            put_log_body(to, body)
        }
        Body::SyncPrepare(log) => put_log_body(to, LogBody::SyncPrepare(log.as_ref())),
        Body::SyncRep(length) | Body::SyncCommit(length) => put_u32(to, *length),
    }
}

/// Appends bytes. An empty `to` becomes their vector.
fn append(to: &mut Vec<u8>, bytes: Vec<u8>) -> Result<(), NoMemory>
    ensures ok { OnOk result (to.new.items ≡ to.old.items ++ bytes.items) }
    ensures err { OnErr result (to.new.items ≡ to.old.items) }
{
    if to.is_empty() {
        *to = bytes;
        return Ok(());
    }
    to.extend_from_slice(&bytes)?;
    Ok(())
}

/// Appends the message's one spelling. An empty `to` becomes a vector with room for just that.
pub fn encode_peer(alloc: Global, message: &Peer, to: &mut Vec<u8>) -> Result<(), NoMemory>
    requires { PeerFits message.now }
    ensures ok { OnOk result (to.new.items ≡ to.old.items ++ spelling message.now) }
    ensures err { OnErr result (to.new.items ≡ to.old.items) }
{
    let mut bytes = Vec::with_capacity(alloc, HEAD_BYTES + body_len(&message.body))?;
    put_head(
        &mut bytes,
        kind_of(&message.body),
        message.sender,
        message.view,
    )?;
    put_body(&mut bytes, &message.body)?;
    append(to, bytes)
}

/// Appends the one spelling of a message with a log, which is borrowed. An empty `to` becomes a vector with room for just that.
pub fn encode_with_log(
    alloc: Global,
    sender: u8,
    view: View,
    body: LogBody<'_>,
    to: &mut Vec<u8>,
) -> Result<(), NoMemory>
    requires { PeerFits (log_message sender view body) }
    ensures ok { OnOk result (to.new.items
        ≡ to.old.items ++ spelling (log_message sender view body.entry)) }
    ensures err { OnErr result (to.new.items ≡ to.old.items) }
{
    let mut bytes = Vec::with_capacity(alloc, HEAD_BYTES + log_body_len(body))?;
    put_head(&mut bytes, kind_of_log(body), sender, view)?;
    put_log_body(&mut bytes, body)?;
    append(to, bytes)
}
