//! How many bytes spellings have.

ghost use Rattle.std.specs.Prelude.{◌≡◌, ◌≤◌, ◌+◌, ◌*◌, length, map, All};
ghost use Rattle.std.specs.List.{flat_map};
ghost use Rattle.std.specs.Option.{option_copied};
ghost use Rattle.nop_types.specs.declared.limits.TheConstants.{MAX_HOST_BYTES, MAX_OP_BYTES, MAX_RESULT_BYTES, MAX_SERVED};
ghost use Rattle.nop_types.specs.declared.limits.TheConstants.{MAX_SLOTS, WINDOW};
ghost use Rattle.nop_types.specs.BorrowedLogs.{log_of};
ghost use Rattle.nop_types.specs.Checkpoints.{saved_account};
ghost use Rattle.oum_codec.specs.Spelling.{request_bytes};
ghost use Rattle.peer_codec.specs.LogBodies.{log_in, with_log};
ghost use Rattle.peer_codec.specs.Spelling.{entry_bytes, entries_bytes, answered_bytes, account_bytes, accounts_bytes};
ghost use Rattle.peer_codec.specs.Spelling.{checkpoint_bytes, optional_bytes, log_bytes, body_bytes};

use crate::LogBody;
use nop_types::{Answered, Body, Checkpoint, Entry, LogRef, Request, SavedClient};

/// The bytes of a spelling before the fields of its kind: kind, sender and view.
pub const HEAD_BYTES: usize = 14;

#[tactic(auto, using(crate::proofs::SpelledLengths::request_len))]
fn request_len(request: &Request) -> usize
    ensures exact { result ≡ length (request_bytes request.now) }
    ensures small { result ≤ 14 + MAX_OP_BYTES }
{
    14 + request.op.as_slice().len()
}

fn entry_len(entry: &Entry) -> usize
    ensures exact { result ≡ length (entry_bytes entry.now) }
    ensures small { result ≤ 15 + MAX_OP_BYTES }
{
    match entry {
        Entry::NoOp => 1,
        Entry::Req(request) => 1 + request_len(request),
    }
}

fn entries_len(entries: &[Entry]) -> usize
    requires { length entries.now ≤ MAX_SLOTS }
    ensures exact { result ≡ length (entries_bytes entries.now) }
    ensures small { result ≤ 4 + MAX_SLOTS * (15 + MAX_OP_BYTES) }
{
    let mut len: usize = 4;
    for entry in entries {
        len += entry_len(entry);
    }
    len
}

#[tactic(auto, using(crate::proofs::SpelledLengths::answered_len))]
fn answered_len(answered: &Answered) -> usize
    requires { length answered.now.result ≤ MAX_RESULT_BYTES }
    ensures exact { result ≡ length (answered_bytes answered.now) }
    ensures small { result ≤ 10 + MAX_RESULT_BYTES }
{
    10 + answered.result.as_slice().len()
}

fn kept_len(kept: &[Answered]) -> usize
    requires few { length kept.now ≤ WINDOW }
    requires short { All (λ a. length a.result ≤ MAX_RESULT_BYTES) kept.now }
    ensures exact { result ≡ length (flat_map answered_bytes kept.now) }
    ensures small { result ≤ WINDOW * (10 + MAX_RESULT_BYTES) }
{
    let mut len: usize = 0;
    for answered in kept {
        len += answered_len(answered);
    }
    len
}

#[tactic(auto, using(crate::proofs::SpelledLengths::account_len))]
fn account_len(saved: &SavedClient) -> usize
    requires few { length saved.now.kept.items ≤ WINDOW }
    requires short { All (λ a. length a.result ≤ MAX_RESULT_BYTES) saved.now.kept.items }
    ensures exact { result ≡ length (account_bytes (saved_account saved.now)) }
    ensures small { result ≤ 13 + WINDOW * (10 + MAX_RESULT_BYTES) }
{
    13 + kept_len(&saved.kept)
}

fn accounts_len(clients: &[SavedClient]) -> usize
    requires few { length clients.now ≤ MAX_SERVED }
    requires few_kept { All (λ c. length c.kept.items ≤ WINDOW) clients.now }
    requires short { All (λ c. All (λ a. length a.result ≤ MAX_RESULT_BYTES) c.kept.items)
        clients.now }
    ensures exact { result ≡ length (accounts_bytes (map saved_account clients.now)) }
    ensures small { result ≤ 4 + MAX_SERVED * (13 + WINDOW * (10 + MAX_RESULT_BYTES)) }
{
    let mut len: usize = 4;
    for saved in clients {
        len += account_len(saved);
    }
    len
}

fn checkpoint_len(checkpoint: &Checkpoint) -> usize
    ensures exact { result ≡ length (checkpoint_bytes checkpoint.now) }
    ensures small { result ≤ 8 + MAX_HOST_BYTES
        + MAX_SERVED * (13 + WINDOW * (10 + MAX_RESULT_BYTES)) }
{
    4 + checkpoint.host().as_slice().len() + accounts_len(checkpoint.clients())
}

fn optional_len(checkpoint: Option<&Checkpoint>) -> usize
    ensures exact { result ≡ length (optional_bytes (option_copied checkpoint.entry)) }
    ensures small { result ≤ 8 + MAX_HOST_BYTES
        + MAX_SERVED * (13 + WINDOW * (10 + MAX_RESULT_BYTES)) }
{
    match checkpoint {
        Some(checkpoint) => checkpoint_len(checkpoint),
        None => 0,
    }
}

#[tactic(auto, using(crate::proofs::SpelledLengths::log_len))]
fn log_len(log: LogRef<'_>) -> usize
    requires { length log.entries.now ≤ MAX_SLOTS }
    ensures exact { result ≡ length (log_bytes (log_of log.entry)) }
    ensures small { result ≤ 16 + MAX_HOST_BYTES
        + MAX_SERVED * (13 + WINDOW * (10 + MAX_RESULT_BYTES))
        + MAX_SLOTS * (15 + MAX_OP_BYTES) }
{
    4 + optional_len(log.checkpoint) + entries_len(log.entries)
}

#[tactic(auto, using(crate::proofs::SpelledLengths::body_lens))]
pub fn body_len(body: &Body) -> usize
    ensures exact { result ≡ length (body_bytes body.now) }
    ensures small { result ≤ 36 + MAX_HOST_BYTES
        + MAX_SERVED * (13 + WINDOW * (10 + MAX_RESULT_BYTES))
        + MAX_SLOTS * (15 + MAX_OP_BYTES) }
{
    match body {
        Body::SlotLookup(_)
        | Body::GapCommit(_)
        | Body::GapRep(_)
        | Body::SyncRep(_)
        | Body::SyncCommit(_) => 4,
        Body::Found(_, request) => 4 + request_len(request),
        Body::ViewChangeReq => 0,
        Body::ViewChange { log, .. } => 20 + log_len(log.as_ref()),
        Body::StartView { log, .. } => 8 + log_len(log.as_ref()),
        Body::SyncPrepare(log) => log_len(log.as_ref()),
    }
}

#[tactic(auto, using(crate::proofs::SpelledLengths::body_lens))]
pub fn log_body_len(body: LogBody<'_>) -> usize
    requires { length (log_in body).entries ≤ MAX_SLOTS }
    ensures exact { result ≡ length (body_bytes (with_log body.entry)) }
    ensures small { result ≤ 36 + MAX_HOST_BYTES
        + MAX_SERVED * (13 + WINDOW * (10 + MAX_RESULT_BYTES))
        + MAX_SLOTS * (15 + MAX_OP_BYTES) }
{
    match body {
        LogBody::ViewChange { log, .. } => 20 + log_len(log),
        LogBody::StartView { log, .. } => 8 + log_len(log),
        LogBody::SyncPrepare(log) => log_len(log),
    }
}
