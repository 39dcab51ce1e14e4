ghost use Rattle.std.specs.Prelude.{◌≡◌, ◌⊎◌, IfOk, IfSome};
ghost use Rattle.nop_types.specs.declared.peer.Peer.{Peer};
ghost use Rattle.oum_codec.specs.Reading.{Finds};
ghost use Rattle.peer_codec.specs.Answers.{Gives, GivesBy};
ghost use Rattle.peer_codec.specs.Spelling.{Spells};
ghost use Rattle.peer_codec.specs.Reading.{found_at, view_change_at, start_view_at, sync_prepare_at, body_at};
ghost use Rattle.peer_codec.specs.Reading.{message_of, reading};

use crate::BadPeer;
use crate::fields::{
    split_length, split_next, split_request, split_sender, split_slot, split_started,
};
use crate::logs::split_log;
use nop_types::{Body, NoMemory, Peer, kinds};
use std::alloc::Global;

#[tactic(auto, unfolding(crate::specs::Reading::found_at))]
fn found(alloc: Global, bytes: &[u8]) -> Result<(Body, &[u8]), BadPeer>
    ensures { GivesBy (λ x. (x.0, x.1.now)) result (found_at bytes.now) }
{
    let (slot, rest) = split_slot(bytes)?;
    let (request, rest) = split_request(alloc, rest)?;
    Ok((Body::Found(slot, request), rest))
}

#[tactic(auto, unfolding(crate::specs::Reading::view_change_at))]
fn view_change(alloc: Global, bytes: &[u8]) -> Result<(Body, &[u8]), BadPeer>
    ensures { GivesBy (λ x. (x.0, x.1.now)) result (view_change_at bytes.now) }
{
    let (last_normal, rest) = split_started(bytes)?;
    let (next, rest) = split_next(rest)?;
    let (log, rest) = split_log(alloc, rest)?;
    let body = Body::ViewChange {
        last_normal,
        next,
        log,
    };
    Ok((body, rest))
}

#[tactic(auto, unfolding(crate::specs::Reading::start_view_at))]
fn start_view(alloc: Global, bytes: &[u8]) -> Result<(Body, &[u8]), BadPeer>
    ensures { GivesBy (λ x. (x.0, x.1.now)) result (start_view_at bytes.now) }
{
    let (next, rest) = split_next(bytes)?;
    let (log, rest) = split_log(alloc, rest)?;
    Ok((Body::StartView { next, log }, rest))
}

#[tactic(auto, unfolding(crate::specs::Reading::sync_prepare_at))]
fn sync_prepare(alloc: Global, bytes: &[u8]) -> Result<(Body, &[u8]), BadPeer>
    ensures { GivesBy (λ x. (x.0, x.1.now)) result (sync_prepare_at bytes.now) }
{
    let (log, rest) = split_log(alloc, bytes)?;
    Ok((Body::SyncPrepare(log), rest))
}

fn body(alloc: Global, kind: u8, bytes: &[u8]) -> Result<(Body, &[u8]), BadPeer>
    ensures { GivesBy (λ x. (x.0, x.1.now)) result (body_at kind bytes.now) }
{
    match kind {
        kinds::SLOT_LOOKUP => {
            let (slot, rest) = split_slot(bytes)?;
            Ok((Body::SlotLookup(slot), rest))
        }
        kinds::FOUND => found(alloc, bytes),
        kinds::GAP_COMMIT => {
            let (slot, rest) = split_slot(bytes)?;
            Ok((Body::GapCommit(slot), rest))
        }
        kinds::GAP_REP => {
            let (slot, rest) = split_slot(bytes)?;
            Ok((Body::GapRep(slot), rest))
        }
        kinds::VIEW_CHANGE_REQ => Ok((Body::ViewChangeReq, bytes)),
        kinds::VIEW_CHANGE => view_change(alloc, bytes),
        kinds::START_VIEW => start_view(alloc, bytes),
        kinds::SYNC_PREPARE => sync_prepare(alloc, bytes),
        kinds::SYNC_REP => {
            let (length, rest) = split_length(bytes)?;
            Ok((Body::SyncRep(length), rest))
        }
        kinds::SYNC_COMMIT => {
            let (length, rest) = split_length(bytes)?;
            Ok((Body::SyncCommit(length), rest))
        }
        _ => Err(BadPeer::Kind),
    }
}

/// What follows the kind.
#[tactic(auto, unfolding(crate::specs::Reading::message_of))]
fn message(alloc: Global, kind: u8, bytes: &[u8]) -> Result<Peer, BadPeer>
    ensures { Gives result (message_of kind bytes.now) }
{
    let (sender, rest) = split_sender(bytes)?;
    let (view, rest) = split_started(rest)?;
    let (body, rest) = body(alloc, kind, rest)?;
    if !rest.is_empty() {
        return Err(BadPeer::Trailing);
    }
    Ok(Peer { sender, view, body })
}

#[tactic(auto, unfolding(crate::specs::Reading::reading))]
fn peer(alloc: Global, bytes: &[u8]) -> Result<Peer, BadPeer>
    ensures { Gives result (reading bytes.now) }
{
    match bytes {
        [] => Err(BadPeer::Short),
        [kind, rest @ ..] => {
            if *kind < kinds::SLOT_LOOKUP || kinds::SYNC_COMMIT < *kind {
                return Err(BadPeer::Kind);
            }
            message(alloc, *kind, rest)
        }
    }
}

/// The message that the bytes spell, or the first test that they fail. No more memory is taken than the bytes could need: for
/// the entries and the clients of a log, as many as have bytes, and for an op, a result or a host's state its own bytes.
pub fn decode_peer(alloc: Global, bytes: &[u8]) -> Result<Peer, BadPeer>
    // What is read is spelled so.
    ensures found { IfOk result (λ p. Spells p bytes.now) }
    // What is spelled so is read, unless memory runs out.
    ensures only { (p : Peer) → Spells p bytes.now
        → (result ≡ Ok p) ⊎ (result ≡ Err BadPeer.NoMemory) }
    // Else the first test that fails is answered.
    ensures exact { Gives result (reading bytes.now) }
{
    peer(alloc, bytes)
}

/// The message that the bytes spell, None where they spell none.
pub fn read_peer(alloc: Global, bytes: &[u8]) -> Result<Option<Peer>, NoMemory>
    ensures found { IfOk result (λ found. IfSome found (λ p. Spells p bytes.now)) }
    ensures exact { IfOk result (λ found. Finds found (reading bytes.now)) }
{
    match decode_peer(alloc, bytes) {
        Ok(message) => Ok(Some(message)),
        Err(BadPeer::NoMemory) => Err(NoMemory),
        Err(_) => Ok(None),
    }
}
