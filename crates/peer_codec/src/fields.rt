//! The fields of messages, read from the front of the bytes: each answers its value and the bytes after it.

ghost use Rattle.std.specs.Prelude.{◌≤◌, ◌+◌, length, IfOk};
ghost use Rattle.std.specs.Int.{w16, w32};
ghost use Rattle.nop_types.specs.declared.limits.TheConstants.{MAX_HOST_BYTES, MAX_LENGTH};
ghost use Rattle.nop_types.specs.declared.limits.TheConstants.{MAX_SERVED, MAX_SLOTS};
ghost use Rattle.peer_codec.specs.Answers.{GivesBy};
ghost use Rattle.peer_codec.specs.Fields.{sender_at, view_at, slot_at, next_at, length_at, count_at, id_at, counted_at};
ghost use Rattle.peer_codec.specs.Fields.{request_at, host_at, served_at, client_at, kept_count_at, kept_id_at};

use crate::BadPeer;
use nop_types::{
    Bytes, MAX_HOST_BYTES, MAX_LENGTH, MAX_OP_BYTES, MAX_REPLICAS, MAX_SERVED, MAX_SLOTS,
    NUMBER_END, Op, Request, View, WINDOW,
};
use oum_codec::{split_bytes, split_u8, split_u16, split_u32, split_u64, split_view};
use std::alloc::Global;

#[tactic(auto, unfolding(crate::specs::Fields::sender_at))]
pub fn split_sender(bytes: &[u8]) -> Result<(u8, &[u8]), BadPeer>
    ensures { GivesBy (λ x. (x.0, x.1.now)) result (sender_at bytes.now) }
{
    let Some((sender, rest)) = split_u8(bytes) else {
        return Err(BadPeer::Short);
    };
    if MAX_REPLICAS <= sender {
        return Err(BadPeer::Field);
    }
    Ok((sender, rest))
}

/// A view whose session counts from 1.
#[tactic(auto, unfolding(crate::specs::Fields::view_at))]
pub fn split_started(bytes: &[u8]) -> Result<(View, &[u8]), BadPeer>
    ensures { GivesBy (λ x. (x.0, x.1.now)) result (view_at bytes.now) }
{
    let Some((view, rest)) = split_view(bytes) else {
        return Err(BadPeer::Short);
    };
    if view.session == 0 {
        return Err(BadPeer::Field);
    }
    Ok((view, rest))
}

#[tactic(auto, unfolding(crate::specs::Fields::slot_at))]
pub fn split_slot(bytes: &[u8]) -> Result<(u32, &[u8]), BadPeer>
    ensures { GivesBy (λ x. (x.0, x.1.now)) result (slot_at bytes.now) }
{
    let Some((slot, rest)) = split_u32(bytes) else {
        return Err(BadPeer::Short);
    };
    if slot == 0 {
        return Err(BadPeer::Field);
    }
    Ok((slot, rest))
}

/// The number of a session's next request.
#[tactic(auto, unfolding(crate::specs::Fields::next_at))]
pub fn split_next(bytes: &[u8]) -> Result<(u64, &[u8]), BadPeer>
    ensures { GivesBy (λ x. (x.0, x.1.now)) result (next_at bytes.now) }
{
    let Some((next, rest)) = split_u64(bytes) else {
        return Err(BadPeer::Short);
    };
    if next == 0 || NUMBER_END < next {
        return Err(BadPeer::Field);
    }
    Ok((next, rest))
}

/// A number of slots: a length or a sync point.
#[tactic(auto, unfolding(crate::specs::Fields::length_at))]
pub fn split_length(bytes: &[u8]) -> Result<(u32, &[u8]), BadPeer>
    ensures { GivesBy (λ x. (x.0, x.1.now)) result (length_at bytes.now) }
{
    split_u32(bytes).ok_or(BadPeer::Short)
}

/// The number of a log's entries above its sync point.
#[tactic(auto, unfolding(crate::specs::Fields::count_at))]
pub fn split_count(sync_point: u32, bytes: &[u8]) -> Result<(u32, &[u8]), BadPeer>
    ensures exact { GivesBy (λ x. (x.0, x.1.now)) result (count_at sync_point bytes.now) }
    ensures small { IfOk result (λ x. x.0 ≤ MAX_SLOTS) }
    ensures limit { IfOk result (λ x. sync_point + x.0 ≤ MAX_LENGTH) }
{
    let Some((count, rest)) = split_u32(bytes) else {
        return Err(BadPeer::Short);
    };
    if MAX_SLOTS < count as usize || MAX_LENGTH - sync_point < count {
        return Err(BadPeer::Field);
    }
    Ok((count, rest))
}

/// An id, which counts from 1.
#[tactic(auto, unfolding(crate::specs::Fields::id_at))]
pub fn split_id(bytes: &[u8]) -> Result<(u64, &[u8]), BadPeer>
    ensures { GivesBy (λ x. (x.0, x.1.now)) result (id_at bytes.now) }
{
    let Some((id, rest)) = split_u64(bytes) else {
        return Err(BadPeer::Short);
    };
    if id == 0 {
        return Err(BadPeer::Field);
    }
    Ok((id, rest))
}

/// A length in two bytes, and that many bytes, at most `most`.
#[tactic(auto, unfolding(crate::specs::Fields::counted_at))]
pub fn split_short(most: usize, bytes: &[u8]) -> Result<(&[u8], &[u8]), BadPeer>
    ensures exact { GivesBy (λ x. (x.0.now, x.1.now)) result (counted_at w16 most bytes.now) }
    ensures small { IfOk result (λ x. length x.0.now ≤ most) }
{
    let Some((len, rest)) = split_u16(bytes) else {
        return Err(BadPeer::Short);
    };
    let len = len as usize;
    if most < len {
        return Err(BadPeer::Field);
    }
    split_bytes(rest, len).ok_or(BadPeer::Short)
}

#[tactic(auto, unfolding(crate::specs::Fields::request_at))]
pub fn split_request(alloc: Global, bytes: &[u8]) -> Result<(Request, &[u8]), BadPeer>
    ensures { GivesBy (λ x. (x.0, x.1.now)) result (request_at bytes.now) }
{
    let Some((client, rest)) = split_u32(bytes) else {
        return Err(BadPeer::Short);
    };
    let (id, rest) = split_id(rest)?;
    let (op, rest) = split_short(MAX_OP_BYTES, rest)?;
    let op = Op::new(alloc, op)?;
    Ok((Request { client, id, op }, rest))
}

/// The saved state of a host, behind its length.
#[tactic(auto, unfolding(crate::specs::Fields::counted_at))]
pub fn split_host(alloc: Global, bytes: &[u8]) -> Result<(Bytes, &[u8]), BadPeer>
    ensures exact { GivesBy (λ x. (x.0, x.1.now)) result (host_at bytes.now) }
    ensures small { IfOk result (λ x. length x.0 ≤ MAX_HOST_BYTES) }
{
    let Some((len, rest)) = split_u32(bytes) else {
        return Err(BadPeer::Short);
    };
    let len = len as usize;
    if MAX_HOST_BYTES < len {
        return Err(BadPeer::Field);
    }
    let Some((host, rest)) = split_bytes(rest, len) else {
        return Err(BadPeer::Short);
    };
    Ok((Bytes::new(alloc, host)?, rest))
}

/// The number of a checkpoint's clients.
#[tactic(auto, unfolding(crate::specs::Fields::served_at))]
pub fn split_served(bytes: &[u8]) -> Result<(u32, &[u8]), BadPeer>
    ensures exact { GivesBy (λ x. (x.0, x.1.now)) result (served_at bytes.now) }
    ensures small { IfOk result (λ x. x.0 ≤ MAX_SERVED) }
{
    let Some((count, rest)) = split_u32(bytes) else {
        return Err(BadPeer::Short);
    };
    if MAX_SERVED < count as usize {
        return Err(BadPeer::Field);
    }
    Ok((count, rest))
}

/// A client's number, which is not below `least`.
#[tactic(auto, unfolding(crate::specs::Fields::client_at))]
pub fn split_client(least: u64, bytes: &[u8]) -> Result<(u32, &[u8]), BadPeer>
    ensures { GivesBy (λ x. (x.0, x.1.now)) result (client_at least bytes.now) }
{
    let Some((client, rest)) = split_u32(bytes) else {
        return Err(BadPeer::Short);
    };
    if u64::from(client) < least {
        return Err(BadPeer::Field);
    }
    Ok((client, rest))
}

/// The number of results that are kept for a client.
#[tactic(auto, unfolding(crate::specs::Fields::kept_count_at))]
pub fn split_kept_count(bytes: &[u8]) -> Result<(u8, &[u8]), BadPeer>
    ensures { GivesBy (λ x. (x.0, x.1.now)) result (kept_count_at bytes.now) }
{
    let Some((count, rest)) = split_u8(bytes) else {
        return Err(BadPeer::Short);
    };
    if count == 0 || WINDOW < u64::from(count) {
        return Err(BadPeer::Field);
    }
    Ok((count, rest))
}

/// The id of a kept result, which is not below `least` and not above the greatest.
#[tactic(auto, unfolding(crate::specs::Fields::kept_id_at))]
pub fn split_kept_id(least: u128, greatest: u64, bytes: &[u8]) -> Result<(u64, &[u8]), BadPeer>
    ensures { GivesBy (λ x. (x.0, x.1.now)) result (kept_id_at least greatest bytes.now) }
{
    let Some((id, rest)) = split_u64(bytes) else {
        return Err(BadPeer::Short);
    };
    if u128::from(id) < least || greatest < id {
        return Err(BadPeer::Field);
    }
    Ok((id, rest))
}
