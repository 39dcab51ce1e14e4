//! What leaders tell, read from datagrams.

ghost use Rattle.std.specs.Prelude.{◌≡◌, length, IfOk, OnOk};
ghost use Rattle.peer_codec.specs.Reading as peers;
ghost use Rattle.fragments.specs.Joining.{opening};
ghost use Rattle.watching.specs.Tellings as tellings;
ghost use Rattle.watching.specs.Tellings.{synced_of, telling_of, told_by};

use fragments::Reassembly;
use nop_types::{Body, Bytes, Config, Datagram, Fragment, NoMemory, Peer, View, leader_of};
use oum_codec::read_datagram;
use peer_codec::{BadPeer, decode_peer};
use std::alloc::Global;

/// What the leader of a view told: the log is synchronised up to this length.
#[derive(Clone, Copy, PartialEq, Eq)]
pub struct Telling {
    pub view: View,
    pub len: u32,
}

/// Up to where the log is synchronised, by a message.
fn synced_of(body: &Body) -> Option<u32>
    ensures { result ≡ synced_of body.now }
{
    match body {
        Body::StartView { log, .. } | Body::SyncPrepare(log) => Some(log.sync_point()),
        Body::SyncCommit(len) => Some(*len),
        _ => None,
    }
}

/// What a message tells, where its sender leads its view.
fn telling_of(config: Config, message: &Peer) -> Option<Telling>
    ensures { result ≡ telling_of config.replicas message.now }
{
    if message.sender != leader_of(message.view, config.replicas()) {
        return None;
    }
    let len = synced_of(&message.body)?;
    Some(Telling {
        view: message.view,
        len,
    })
}

/// What a message tells that was joined of the fragments of a replica: it has to be of that replica.
fn told_of(config: Config, replica: u8, message: &Peer) -> Option<Telling>
    ensures { result ≡ tellings.read config.replicas replica (Ok message.now) }
{
    if message.sender != replica {
        return None;
    }
    telling_of(config, message)
}

/// What bytes tell that were joined of the fragments of a replica.
fn joined(
    alloc: Global,
    config: Config,
    replica: u8,
    bytes: &Bytes,
) -> Result<Option<Telling>, NoMemory>
    ensures { IfOk result (λ r. r
        ≡ tellings.read config.replicas replica (peers.reading bytes.now)) }
{
    match decode_peer(alloc, bytes.as_slice()) {
        Ok(message) => Ok(told_of(config, replica, &message)),
        Err(BadPeer::NoMemory) => Err(NoMemory),
        Err(_) => Ok(None),
    }
}

/// What a fragment tells: that of the message which it completes. It is of any replica, or else for nobody.
fn on_fragment(
    alloc: Global,
    config: Config,
    kept: &mut Reassembly,
    fragment: &Fragment,
) -> Result<Option<Telling>, NoMemory>
    requires { length kept.old ≡ config.replicas }
    ensures senders { length kept.new ≡ length kept.old }
    ensures ok { OnOk result (kept.new
        ≡ (tellings.on_datagram config.replicas kept.old (Ok (Datagram.Fragment fragment.now))).0) }
    ensures told { IfOk result (λ r. r
        ≡ (tellings.on_datagram config.replicas kept.old (Ok (Datagram.Fragment fragment.now))).1) }
{
    if fragment.replica >= config.replicas() {
        return Ok(None);
    }
    match kept.take(fragment)? {
        Some(bytes) => joined(alloc, config, fragment.replica, &bytes),
        None => Ok(None),
    }
}

/// What a datagram tells, with the fragments that wait.
#[tactic(auto, unfolding(crate::specs::Tellings::told_by))]
pub(crate) fn told_by(
    alloc: Global,
    config: Config,
    kept: &mut Reassembly,
    bytes: &[u8],
) -> Result<Option<Telling>, NoMemory>
    requires { length kept.old ≡ config.replicas }
    ensures senders { length kept.new ≡ length kept.old }
    ensures ok { OnOk result (kept.new ≡ (told_by config.replicas kept.old bytes.now).0) }
    ensures told { IfOk result (λ r. r ≡ (told_by config.replicas kept.old bytes.now).1) }
{
    match read_datagram(alloc, bytes)? {
        Some(Datagram::Fragment(fragment)) => on_fragment(alloc, config, kept, &fragment),
        _ => Ok(None),
    }
}
