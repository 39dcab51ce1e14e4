ghost use Rattle.std.specs.Prelude.{◌≡◌, ◌≤◌, ◌++◌, [], length, OnOk, OnErr, IfSome};
ghost use Rattle.std.specs.Option.{option_copied};
ghost use Rattle.nop_types.specs.declared.limits.TheConstants.{MAX_RESULT_BYTES};
ghost use Rattle.nop_types.specs.declared.peer.Body.TheVariants.{SyncPrepare};
ghost use Rattle.nop_types.specs.declared.request.Request.{Request};
ghost use Rattle.nop_types.specs.Legality.{IsOf};
ghost use Rattle.nop_types.specs.Logs.{Trimmed};
ghost use Rattle.nop_types.specs.Ranges.{SlotFits, BodyFits};
ghost use Rattle.peer_codec.specs.LogBodies.{with_log};
ghost use Rattle.replica_state.specs.Sends.{message, to_replica, to_all};
ghost use Rattle.replica_state.specs.Replies.{reply_with, leader_reply};
ghost use Rattle.replica_state.specs.Moves.{change_sent, resend_start, send_synced};
ghost use Rattle.replica_state.specs.Within.{IsWithin};

use crate::{ReplicaState, Sends};
use nop_types::{Actor, Body, Bytes, Dest, NoMemory, Peer, Reply};
use peer_codec::LogBody;
use std::alloc::Global;

impl ReplicaState {
    fn message(&self, body: Body) -> Peer
        ensures { result ≡ message self.now body }
    {
        Peer {
            sender: self.number,
            view: self.view,
            body,
        }
    }

    /// Sends a message to a replica.
    pub fn send_to(&self, replica: u8, body: Body, sends: &mut Sends) -> Result<(), NoMemory>
        requires within { IsWithin self.now }
        requires fits { BodyFits body }
        ensures ok { OnOk result (sends.new ≡ sends.old ++ to_replica self.now replica body) }
        ensures err { OnErr result (sends.new ≡ sends.old) }
    {
        let dest = Dest::One(Actor::Replica(replica));
        sends.push_message(dest, &self.message(body))
    }

    /// Sends a message with a borrowed log to a replica.
    fn send_log_to(&self, replica: u8, body: LogBody<'_>, sends: &mut Sends) -> Result<(), NoMemory>
        requires within { IsWithin self.now }
        requires fits { BodyFits (with_log body) }
        ensures ok { OnOk result (sends.new
            ≡ sends.old ++ to_replica self.now replica (with_log body.entry)) }
        ensures err { OnErr result (sends.new ≡ sends.old) }
    {
        let dest = Dest::One(Actor::Replica(replica));
        sends.push_with_log(dest, self.number, self.view, body)
    }

    /// Sends a message to all others, where there are others.
    pub fn send_to_all(&self, body: Body, sends: &mut Sends) -> Result<(), NoMemory>
        requires within { IsWithin self.now }
        requires fits { BodyFits body }
        ensures ok { OnOk result (sends.new ≡ sends.old ++ to_all self.now body) }
        ensures err { OnErr result (sends.new ≡ sends.old) }
    {
        if self.max_faults() == 0 {
            return Ok(());
        }
        sends.push_message(Dest::Replicas, &self.message(body))
    }

    /// Sends a message with a borrowed log to all others, where there are others.
    pub fn send_log_to_all(&self, body: LogBody<'_>, sends: &mut Sends) -> Result<(), NoMemory>
        requires within { IsWithin self.now }
        requires fits { BodyFits (with_log body) }
        ensures ok { OnOk result (sends.new ≡ sends.old ++ to_all self.now (with_log body.entry)) }
        ensures err { OnErr result (sends.new ≡ sends.old) }
    {
        if self.max_faults() == 0 {
            return Ok(());
        }
        sends.push_with_log(Dest::Replicas, self.number, self.view, body)
    }

    /// Tells the leader of the view what the replica had when it entered it.
    pub fn send_change(&self, sends: &mut Sends) -> Result<(), NoMemory>
        requires { IsWithin self.now }
        ensures ok { OnOk result (sends.new ≡ sends.old ++ change_sent self.now) }
        ensures err { OnErr result (sends.new ≡ sends.old) }
    {
        let body = LogBody::ViewChange {
            last_normal: self.last_normal,
            next: self.next.get(),
            log: self.log.as_ref(),
        };
        self.send_log_to(self.leader(), body, sends)
    }

    /// Tells a late replica what the view started with, and what is synchronised beyond that.
    pub fn send_start(&self, replica: u8, sends: &mut Sends) -> Result<(), NoMemory>
        requires { IsWithin self.now }
        ensures ok { OnOk result (sends.new
            ≡ sends.old ++ (resend_start Trimmed self.now replica).1) }
        ensures err { OnErr result (sends.new ≡ sends.old) }
    {
        let len = self.start_len();
        let body = LogBody::StartView {
            next: self.number_after(len),
            log: self.log.first(len),
        };
        self.send_log_to(replica, body, sends)
    }

    /// Tells a replica what is synchronised.
    pub fn send_synced(&self, replica: u8, sends: &mut Sends) -> Result<(), NoMemory>
        requires { IsWithin self.now }
        ensures ok { OnOk result (sends.new
            ≡ sends.old ++ (send_synced Trimmed self.now replica).1) }
        ensures err { OnErr result (sends.new ≡ sends.old) }
    {
        let log = self.log.first(self.sync.sync_point());
        self.send_log_to(replica, LogBody::SyncPrepare(log), sends)
    }

    /// Tells all others the log.
    pub(crate) fn send_log(&self, sends: &mut Sends) -> Result<(), NoMemory>
        requires { IsWithin self.now }
        ensures ok { OnOk result (sends.new ≡ sends.old
            ++ to_all self.now (SyncPrepare self.now.log)) }
        ensures err { OnErr result (sends.new ≡ sends.old) }
    {
        self.send_log_to_all(LogBody::SyncPrepare(self.log.as_ref()), sends)
    }

    /// Sends a reply to a client.
    fn send_reply(
        &self,
        slot: u32,
        client: u32,
        id: u64,
        tag: u8,
        answer: Bytes,
        sends: &mut Sends,
    ) -> Result<(), NoMemory>
        requires within { IsWithin self.now }
        requires slot { SlotFits slot }
        requires id { 1 ≤ id }
        requires tag { tag ≤ 1 }
        requires short { length answer ≤ MAX_RESULT_BYTES }
        requires without { tag ≡ 0 → length answer ≡ 0 }
        ensures ok { OnOk result (sends.new
            ≡ sends.old ++ reply_with self.now slot client id tag answer) }
        ensures err { OnErr result (sends.new ≡ sends.old) }
    {
        sends.push_reply(Reply {
            replica: self.number,
            view: self.view,
            slot,
            client,
            id,
            tag,
            result: answer,
        })
    }

    /// Sends a follower's reply, which has no result.
    pub fn send_short(
        &self,
        alloc: Global,
        slot: u32,
        client: u32,
        id: u64,
        sends: &mut Sends,
    ) -> Result<(), NoMemory>
        requires within { IsWithin self.now }
        requires slot { SlotFits slot }
        requires id { 1 ≤ id }
        ensures ok { OnOk result (sends.new
            ≡ sends.old ++ reply_with self.now slot client id 0 []) }
        ensures err { OnErr result (sends.new ≡ sends.old) }
    {
        let none = Bytes::from_vec(Vec::new(alloc));
        self.send_reply(slot, client, id, 0, none, sends)
    }

    /// Sends a leader's reply, where there is a result.
    pub fn send_result(
        &self,
        slot: u32,
        client: u32,
        id: u64,
        answer: Option<&Bytes>,
        sends: &mut Sends,
    ) -> Result<(), NoMemory>
        requires within { IsWithin self.now }
        requires slot { SlotFits slot }
        requires id { 1 ≤ id }
        requires short { IfSome (option_copied answer) (λ bytes. length bytes ≤ MAX_RESULT_BYTES) }
        ensures ok { (r : Request) → IsOf client id r → OnOk result (sends.new
            ≡ sends.old ++ leader_reply self.now slot r (option_copied answer.entry)) }
        ensures err { OnErr result (sends.new ≡ sends.old) }
    {
        let Some(answer) = answer else {
            return Ok(());
        };
        let answer = answer.try_clone()?;
        self.send_reply(slot, client, id, 1, answer, sends)
    }
}
