//! Logs, read from the front of the bytes.

ghost use Rattle.std.specs.Prelude.{◌≡◌, ◌≤◌, length, map, IsTrue, IfOk};
ghost use Rattle.nop_types.specs.declared.limits.TheConstants.{MAX_SERVED, MAX_SLOTS};
ghost use Rattle.nop_types.specs.Checkpoints.{saved_account, are_saved};
ghost use Rattle.peer_codec.specs.Answers.{GivesBy};
ghost use Rattle.peer_codec.specs.Logs.{entry_at, entries_at, answered_at, least_before, kept_at, least_id, account_at};
ghost use Rattle.peer_codec.specs.Logs.{accounts_at, checkpoint_at, optional_at, log_at};

use crate::BadPeer;
use crate::fields::{
    split_client, split_count, split_host, split_id, split_kept_count, split_kept_id, split_length,
    split_request, split_served, split_short,
};
use nop_types::{Answered, Bytes, Checkpoint, Entry, Log, MAX_RESULT_BYTES, SavedClient, WINDOW};
use std::alloc::Global;

/// With tag 0 a NO-OP, with tag 1 a request.
#[tactic(auto, unfolding(crate::specs::Logs::entry_at))]
fn split_entry(alloc: Global, bytes: &[u8]) -> Result<(Entry, &[u8]), BadPeer>
    ensures { GivesBy (λ x. (x.0, x.1.now)) result (entry_at bytes.now) }
{
    match bytes {
        [] => Err(BadPeer::Short),
        [0, rest @ ..] => Ok((Entry::NoOp, rest)),
        [1, rest @ ..] => {
            let (request, rest) = split_request(alloc, rest)?;
            Ok((Entry::Req(request), rest))
        }
        [_, ..] => Err(BadPeer::Field),
    }
}

/// `count` entries. Each has a byte at least, so there is room for no more than there are bytes.
fn split_entries(alloc: Global, count: u32, bytes: &[u8]) -> Result<(Vec<Entry>, &[u8]), BadPeer>
    requires { count ≤ MAX_SLOTS }
    ensures exact { GivesBy (λ x. (x.0.items, x.1.now)) result (entries_at count bytes.now) }
    ensures len { IfOk result (λ x. length x.0.items ≡ count) }
{
    let mut entries = Vec::with_capacity(alloc, bytes.len().min(count as usize))?;
    let mut rest = bytes;
    for _ in 0..count {
        let (entry, after) = split_entry(alloc, rest)?;
        entries.push(entry)?;
        rest = after;
    }
    Ok((entries, rest))
}

/// A kept result, whose id is not below `least` and not above the greatest.
#[tactic(auto, unfolding(crate::specs::Logs::answered_at))]
fn split_answered(
    alloc: Global,
    least: u128,
    greatest: u64,
    bytes: &[u8],
) -> Result<(Answered, &[u8]), BadPeer>
    ensures { GivesBy (λ x. (x.0, x.1.now)) result (answered_at least greatest bytes.now) }
{
    let (id, rest) = split_kept_id(least, greatest, bytes)?;
    let (result, rest) = split_short(MAX_RESULT_BYTES, rest)?;
    let result = Bytes::new(alloc, result)?;
    Ok((Answered { id, result }, rest))
}

/// The least id that is kept.
fn least_id(greatest: u64) -> u128
    ensures { result ≡ least_id greatest }
{
    u128::from(greatest.saturating_sub(WINDOW - 1).max(1))
}

/// The least id of a result after which so many are left: the last one has the greatest.
fn least_before(left: u8, least: u128, greatest: u64) -> u128
    ensures { result ≡ least_before left least greatest }
{
    if left == 0 {
        least.max(u128::from(greatest))
    } else {
        least
    }
}

/// `count` kept results, ids ascending up to the greatest.
fn split_kept(
    alloc: Global,
    count: u8,
    greatest: u64,
    bytes: &[u8],
) -> Result<(Vec<Answered>, &[u8]), BadPeer>
    ensures { GivesBy (λ x. (x.0.items, x.1.now)) result
        (kept_at count (least_id greatest) greatest bytes.now) }
{
    let mut kept = Vec::with_capacity(alloc, count as usize)?;
    let mut least = least_id(greatest);
    let mut left = count;
    let mut rest = bytes;
    for _ in 0..count {
        left -= 1;
        let from = least_before(left, least, greatest);
        let (answered, after) = split_answered(alloc, from, greatest, rest)?;
        least = u128::from(answered.id) + 1;
        kept.push(answered)?;
        rest = after;
    }
    Ok((kept, rest))
}

/// The fewest bytes of a client: its number, its greatest id, the number of its results, and one of these, with its id and no bytes.
const LEAST_CLIENT: usize = 23;

#[tactic(auto, unfolding(crate::specs::Logs::account_at))]
fn split_account(alloc: Global, least: u64, bytes: &[u8]) -> Result<(SavedClient, &[u8]), BadPeer>
    ensures { GivesBy (λ x. (saved_account x.0, x.1.now)) result (account_at least bytes.now) }
{
    let (client, rest) = split_client(least, bytes)?;
    let (greatest, rest) = split_id(rest)?;
    let (count, rest) = split_kept_count(rest)?;
    let (kept, rest) = split_kept(alloc, count, greatest, rest)?;
    let saved = SavedClient {
        client,
        greatest,
        kept,
    };
    Ok((saved, rest))
}

/// `count` clients, ascending. There is room for no more than have bytes.
fn split_accounts(
    alloc: Global,
    count: u32,
    bytes: &[u8],
) -> Result<(Vec<SavedClient>, &[u8]), BadPeer>
    requires { count ≤ MAX_SERVED }
    ensures exact { GivesBy (λ x. (map saved_account x.0.items, x.1.now)) result
        (accounts_at count 0 bytes.now) }
    ensures len { IfOk result (λ x. length x.0.items ≡ count) }
    ensures saved { IfOk result (λ x. IsTrue (are_saved 0 (map saved_account x.0.items))) }
{
    let room = (bytes.len() / LEAST_CLIENT).min(count as usize);
    let mut clients = Vec::with_capacity(alloc, room)?;
    let mut least = 0;
    let mut rest = bytes;
    for _ in 0..count {
        let (saved, after) = split_account(alloc, least, rest)?;
        least = u64::from(saved.client) + 1;
        clients.push(saved)?;
        rest = after;
    }
    Ok((clients, rest))
}

#[tactic(auto, unfolding(crate::specs::Logs::checkpoint_at))]
fn split_checkpoint(alloc: Global, bytes: &[u8]) -> Result<(Checkpoint, &[u8]), BadPeer>
    ensures { GivesBy (λ x. (x.0, x.1.now)) result (checkpoint_at bytes.now) }
{
    let (host, rest) = split_host(alloc, bytes)?;
    let (count, rest) = split_served(rest)?;
    let (clients, rest) = split_accounts(alloc, count, rest)?;
    // It is within the limits, as each field was.
    let checkpoint = Checkpoint::new(host, clients).unwrap();
    Ok((checkpoint, rest))
}

/// A checkpoint, where the sync point is above 0.
#[tactic(auto, unfolding(crate::specs::Logs::optional_at))]
fn split_optional(
    alloc: Global,
    sync_point: u32,
    bytes: &[u8],
) -> Result<(Option<Checkpoint>, &[u8]), BadPeer>
    ensures { GivesBy (λ x. (x.0, x.1.now)) result (optional_at sync_point bytes.now) }
{
    if sync_point == 0 {
        return Ok((None, bytes));
    }
    let (checkpoint, rest) = split_checkpoint(alloc, bytes)?;
    Ok((Some(checkpoint), rest))
}

/// The sync point, the checkpoint, the number of entries, and the entries.
#[tactic(auto, unfolding(crate::specs::Logs::log_at))]
pub fn split_log(alloc: Global, bytes: &[u8]) -> Result<(Log, &[u8]), BadPeer>
    ensures { GivesBy (λ x. (x.0, x.1.now)) result (log_at bytes.now) }
{
    let (sync_point, rest) = split_length(bytes)?;
    let (checkpoint, rest) = split_optional(alloc, sync_point, rest)?;
    let (count, rest) = split_count(sync_point, rest)?;
    let (entries, rest) = split_entries(alloc, count, rest)?;
    Ok((Log::new(sync_point, checkpoint, entries), rest))
}
