ghost use Rattle.std.specs.Prelude.{◌≡◌, ◌++◌, ◌∷◌, [], length, take, OnOk, OnErr};
ghost use Rattle.std.specs.List.{AllByRecursion};
ghost use Rattle.nop_types.specs.Ranges.{ReplyFits, PeerFits};
ghost use Rattle.peer_codec.specs.LogBodies.{log_message};
ghost use Rattle.replica_state.specs.declared.sending.Sending.TheVariants.{ToClient, ToReplicas, Trims};
ghost use Rattle.replica_state.specs.Sends.{SendingFits};

use nop_types::{Dest, Log, NoMemory, Peer, Reply, View};
use peer_codec::{EncodedPeer, LogBody};
use std::alloc::Global;
use std::marker::Model;
use std::mem;

/// What a replica gives: a reply to the client that it names; a whole message to another replica or to all; or the entries, from a
/// slot on, that moved out of its log. A message is encoded at once, so that a log is copied only into its bytes.
#[derive(Drop)]
pub enum Sending {
    ToClient(Reply),
    ToReplicas(Dest, EncodedPeer),
    Trims(u32, Log),
}

/// What a replica sends in one step, in order. Each field of it is in its range.
#[derive(Drop)]
pub struct Sends {
    sends: Vec<Sending>,
}

impl Model for Sends {
    ghost use Rattle.std.specs.Prelude.{List};
    ghost use Rattle.std.specs.List.{AllByRecursion};
    ghost use Rattle.replica_state.specs.declared.sending.Sending.{Sending};
    ghost use Rattle.replica_state.specs.Sends.{SendingFits};

    ghost Value = { List Sending };

    ghost view = { λ s. s.sends.items };

    ghost invariant = { λ s. AllByRecursion SendingFits s.sends.items };
}

impl Sends {
    /// Nothing is sent yet.
    pub fn new(alloc: Global) -> Sends
        ensures { result ≡ [] }
    {
        Sends {
            sends: Vec::new(alloc),
        }
    }

    fn push(&mut self, sending: Sending) -> Result<(), NoMemory>
        requires { SendingFits sending }
        ensures ok { OnOk result (self.new ≡ self.old ++ sending ∷ []) }
        ensures err { OnErr result (self.new ≡ self.old) }
    {
        self.sends.push(sending)?;
        Ok(())
    }

    pub(crate) fn push_reply(&mut self, reply: Reply) -> Result<(), NoMemory>
        requires { ReplyFits reply }
        ensures ok { OnOk result (self.new ≡ self.old ++ ToClient reply ∷ []) }
        ensures err { OnErr result (self.new ≡ self.old) }
    {
        self.push(Sending::ToClient(reply))
    }

    /// Encodes a message.
    pub(crate) fn push_message(&mut self, dest: Dest, message: &Peer) -> Result<(), NoMemory>
        requires { PeerFits message.now }
        ensures ok { OnOk result (self.new ≡ self.old ++ ToReplicas dest message.now ∷ []) }
        ensures err { OnErr result (self.new ≡ self.old) }
    {
        let message = EncodedPeer::new(*self.sends.allocator(), message)?;
        self.push(Sending::ToReplicas(dest, message))
    }

    /// Encodes a message with a log, which is borrowed.
    pub(crate) fn push_with_log(
        &mut self,
        dest: Dest,
        sender: u8,
        view: View,
        body: LogBody<'_>,
    ) -> Result<(), NoMemory>
        requires { PeerFits (log_message sender view body) }
        ensures ok { OnOk result (self.new
            ≡ self.old ++ ToReplicas dest (log_message sender view body.entry) ∷ []) }
        ensures err { OnErr result (self.new ≡ self.old) }
    {
        let message = EncodedPeer::with_log(*self.sends.allocator(), sender, view, body)?;
        self.push(Sending::ToReplicas(dest, message))
    }

    /// The entries from a slot on moved out of the log.
    pub fn push_trimmed(&mut self, first: u32, entries: Log) -> Result<(), NoMemory>
        ensures ok { OnOk result (self.new ≡ self.old ++ Trims first entries ∷ []) }
        ensures err { OnErr result (self.new ≡ self.old) }
    {
        self.push(Sending::Trims(first, entries))
    }

    /// How many they are.
    pub(crate) fn len(&self) -> usize
        ensures { result ≡ length self.now }
    {
        self.sends.len()
    }

    /// Takes back what was sent behind the first `len`.
    pub(crate) fn truncate(&mut self, len: usize)
        ensures { self.new ≡ take len self.old }
    {
        self.sends.truncate(len);
    }

    /// All of them, in order. None is left.
    pub fn take(&mut self) -> Vec<Sending>
        ensures sends { result.items ≡ self.old }
        ensures fit { AllByRecursion SendingFits self.old }
        ensures none { self.new ≡ [] }
    {
        let alloc = *self.sends.allocator();
        mem::replace(&mut self.sends, Vec::new(alloc))
    }
}
