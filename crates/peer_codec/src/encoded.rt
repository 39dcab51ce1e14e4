ghost use Rattle.std.specs.Prelude.{◌≡◌, IfOk};
ghost use Rattle.nop_types.specs.Ranges.{PeerFits};
ghost use Rattle.peer_codec.specs.LogBodies.{log_message};
ghost use Rattle.peer_codec.specs.Spelling.{spelling};

use crate::{LogBody, encode_peer, encode_with_log};
use nop_types::{NoMemory, Peer, View};
use std::alloc::Global;
use std::marker::Model;

/// Where the sender is in a spelling.
const SENDER_AT: usize = 1;

/// A message that is kept by its spelling.
#[derive(Drop)]
pub struct EncodedPeer {
    bytes: Vec<u8>,
}

impl Model for EncodedPeer {
    ghost use Rattle.nop_types.specs.declared.peer.Peer.{Peer};
    ghost use Rattle.peer_codec.specs.SpelledMessages.{message_in};
    ghost use Rattle.peer_codec.specs.Spelling.{Spells};

    ghost Value = { Peer };

    ghost view = { λ e. message_in e.bytes.items };

    ghost invariant = { λ e. Spells (message_in e.bytes.items) e.bytes.items };
}

#[tactic(auto, using(crate::proofs::SpelledMessages::encoded_rules))]
impl EncodedPeer {
    /// Encodes a message.
    pub fn new(alloc: Global, message: &Peer) -> Result<EncodedPeer, NoMemory>
        requires { PeerFits message.now }
        ensures { IfOk result (λ e. e ≡ message.now) }
    {
        let mut bytes = Vec::new(alloc);
        encode_peer(alloc, message, &mut bytes)?;
        Ok(EncodedPeer { bytes })
    }

    /// Encodes a message with a log, which is borrowed.
    pub fn with_log(
        alloc: Global,
        sender: u8,
        view: View,
        body: LogBody<'_>,
    ) -> Result<EncodedPeer, NoMemory>
        requires { PeerFits (log_message sender view body) }
        ensures { IfOk result (λ e. e ≡ log_message sender view body.entry) }
    {
        let mut bytes = Vec::new(alloc);
        encode_with_log(alloc, sender, view, body, &mut bytes)?;
        Ok(EncodedPeer { bytes })
    }

    pub fn sender(&self) -> u8
        ensures { result ≡ self.now.sender }
    {
        self.bytes[SENDER_AT]
    }

    /// The message's spelling.
    pub fn as_slice(&self) -> &[u8]
        ensures spelling { result.now ≡ spelling self.now }
        ensures fits { PeerFits self.now }
    {
        &self.bytes
    }
}
