ghost use Rattle.std.specs.Prelude.{◌≡◌, ◌≤◌, ◌<◌, ◌*◌, ◌++◌, false, OnOk, OnErr, IfOk};
ghost use Rattle.fragments.specs.Held.{held};
ghost use Rattle.nop_types.specs.declared.limits.TheConstants.{MAX_LENGTH, MAX_UNFINISHED, MAX_FRAGMENTS};
ghost use Rattle.nop_types.specs.declared.limits.TheConstants.{FRAGMENT_BYTES};
ghost use Rattle.nop_types.specs.Given.{given};
ghost use Rattle.nop_types.specs.Logs.{Trimmed};
ghost use Rattle.nop_types.specs.Ranges.{ViewFits, LogFits};
ghost use Rattle.peer_codec.specs.Reading as peer;
ghost use Rattle.replica_rows.specs.Messages.{arrival_of, arrive};
ghost use Rattle.replica_state.specs.State.{executed_to};
ghost use Rattle.replica_rows.specs.Within.{ArrivalFits, IsRunning, Does};
ghost use Rattle.replica_state.specs.Within.{IsWithin};
ghost use Rattle.replica_core.specs.ReplicaSteps.{replica_of, row, read, next, opening};
ghost use Rattle.replica_core.specs.ReplicaSteps as steps;
ghost use Rattle.replica_core.specs.Within.{IsReady, KeepsLimits};

use crate::posting::post;
use fragments::Reassembly;
use nop_types::{
    Bytes, Config, Core, Datagram, Fragment, Host, Input, NoMemory, Outbox, Phase, Tick, View,
};
use oum_codec::read_datagram;
use peer_codec::{BadPeer, decode_peer};
use replica_log::ReplicaLog;
use replica_rows::{Arrival, Member};
use std::alloc::Global;
use std::marker::Model;

/// The time between two resends of what was not answered.
pub const RESEND_MILLIS: u64 = 50;

/// The time between two synchronisations.
pub const SYNC_MILLIS: u64 = 100;

/// A follower that takes nothing of its leader for so long suspects it.
pub const WATCH_MILLIS: u64 = 1000;

/// A replica that used this message number, or a greater one, takes no row any more. A step uses at most eight.
pub const LAST_MESSAGE: u64 = u64::MAX - 8;

// A number that both code and definitions name would be proved whatever it was; so here each stands once more.
const _: () = prove!(
    RESEND_MILLIS == 50
        && SYNC_MILLIS == 100
        && WATCH_MILLIS == 1000
        && LAST_MESSAGE == 18_446_744_073_709_551_607
);

/// A replica with what its messages need, while it has not failed.
#[derive(Drop)]
struct ReplicaParts<H: Host> {
    member: Member<H>,
    /// The last message number that was used.
    messages: u64,
    reassembly: Reassembly,
}

/// A replica of a service. It logs the requests of its session in the order of their numbers and replies for each; it agrees
/// with the others on the slots whose requests were lost, on the log that a new view starts with, and on synchronised prefixes.
pub struct Replica<H: Host> {
    failed: bool,
    node: ReplicaParts<H>,
}

// By hand, so that a crate with a replica proves nothing on how its parts are dropped.
impl<H: Host> Drop for Replica<H> {
    fn drop(self) {
        let Replica {
            failed: _failed,
            node: _node,
        } = self;
    }
}

impl<H: Host> Model for Replica<H> {
    ghost use Rattle.std.specs.Prelude.{◌≡◌, false};
    ghost use Rattle.nop_types.specs.Machine.{Machine};
    ghost use Rattle.replica_core.specs.ReplicaSteps as steps;
    ghost use Rattle.replica_core.specs.Code.{machine_code};
    ghost use Rattle.replica_core.specs.Within.{IsReady};

    ghost Value = { Machine steps.Replica };

    ghost coded = { machine_code };

    ghost view = { λ r. record { failed = r.failed; state = steps.replica_of r.node } };

    ghost invariant = { λ r. r.failed ≡ false → IsReady H.Host r.node };
}

impl<H: Host> ReplicaParts<H> {
    /// A replica before its first input.
    fn new(alloc: Global, config: Config, number: u8) -> Result<ReplicaParts<H>, NoMemory>
        requires { number < config.replicas }
        ensures ready { IfOk result (λ n. IsReady H.Host n) }
        ensures state { IfOk result (λ n. replica_of n ≡ opening config number) }
    {
        let member = Member::new(alloc, config, number)?;
        let reassembly = Reassembly::new(alloc, config.replicas())?;
        Ok(ReplicaParts {
            member,
            messages: 0,
            reassembly,
        })
    }

    /// The row for what arrives, while message numbers are left, and the outputs of what it sends.
    #[tactic(auto, using(replica_rows::proofs::Counting::arrive_sends_few, replica_rows::proofs::Counting::arrive_keeps_config))]
    fn row(&mut self, arrival: Arrival, out: &mut Outbox) -> Result<(), NoMemory>
        requires ready { IsReady H.Host self.old }
        requires fits { ArrivalFits (arrival_of arrival) }
        ensures ready { OnOk result (IsReady H.Host self.new) }
        ensures state { OnOk result (replica_of self.new
            ≡ (row H.meaning (replica_of self.old) (arrival_of arrival)).0) }
        ensures out { OnOk result (out.new ≡ out.old
            ++ (row H.meaning (replica_of self.old) (arrival_of arrival)).1) }
        ensures err { OnErr result (out.new ≡ out.old) }
    {
        if self.messages >= LAST_MESSAGE {
            return Ok(());
        }
        self.member.take(arrival)?;
        let member = &mut self.member;
        self.messages = post(member.alloc, self.messages, &mut member.sends, out)?;
        Ok(())
    }

    /// Bytes that were joined of the fragments of a replica.
    fn joined(&mut self, replica: u8, bytes: &Bytes, out: &mut Outbox) -> Result<(), NoMemory>
        requires { IsReady H.Host self.old }
        ensures ready { OnOk result (IsReady H.Host self.new) }
        ensures state { OnOk result (replica_of self.new
            ≡ (read H.meaning (replica_of self.old) replica (peer.reading bytes.now)).0) }
        ensures out { OnOk result (out.new ≡ out.old
            ++ (read H.meaning (replica_of self.old) replica (peer.reading bytes.now)).1) }
        ensures err { OnErr result (out.new ≡ out.old) }
    {
        match decode_peer(self.member.alloc, bytes.as_slice()) {
            Ok(message) => {
                if message.sender != replica {
                    return Ok(());
                }
                self.row(Arrival::PeerMessage(message), out)
            }
            Err(BadPeer::NoMemory) => Err(NoMemory),
            Err(_) => Ok(()),
        }
    }

    /// A fragment comes, of another replica or else for nobody.
    #[tactic(auto, unfolding(crate::specs::ReplicaSteps::fragment))]
    fn fragment(&mut self, fragment: &Fragment, out: &mut Outbox) -> Result<(), NoMemory>
        requires { IsReady H.Host self.old }
        ensures ready { OnOk result (IsReady H.Host self.new) }
        ensures state { OnOk result (replica_of self.new
            ≡ (steps.fragment H.meaning (replica_of self.old) fragment.now).0) }
        ensures out { OnOk result (out.new ≡ out.old
            ++ (steps.fragment H.meaning (replica_of self.old) fragment.now).1) }
        ensures err { OnErr result (out.new ≡ out.old) }
    {
        if !self.member.state.is_other(fragment.replica) {
            return Ok(());
        }
        match self.reassembly.take(fragment)? {
            Some(bytes) => self.joined(fragment.replica, &bytes, out),
            None => Ok(()),
        }
    }

    /// One step, which may leave anything where memory runs out.
    #[tactic(auto, unfolding(crate::specs::ReplicaSteps::next))]
    fn act(&mut self, input: Input<'_>, out: &mut Outbox) -> Result<(), NoMemory>
        requires { IsReady H.Host self.old }
        ensures ready { OnOk result (IsReady H.Host self.new) }
        ensures state { OnOk result (replica_of self.new
            ≡ (next H.meaning (replica_of self.old) (given input.entry)).0) }
        ensures out { OnOk result (out.new ≡ out.old
            ++ (next H.meaning (replica_of self.old) (given input.entry)).1) }
        ensures err { OnErr result (out.new ≡ out.old) }
    {
        let bytes = match input {
            Input::Packet(bytes) => bytes,
            Input::Tick(tick) => return self.row(Arrival::Ticked(tick), out),
            _ => return Ok(()),
        };
        match read_datagram(self.member.alloc, bytes)? {
            Some(Datagram::Stamped(packet)) => self.row(Arrival::Stamped(packet), out),
            Some(Datagram::Fragment(fragment)) => self.fragment(&fragment, out),
            _ => Ok(()),
        }
    }
}

impl<H: Host> Replica<H> {
    pub fn new(alloc: Global, config: Config, number: u8) -> Result<Replica<H>, NoMemory>
        requires { number < config.replicas }
        ensures { IfOk result (λ r. r
            ≡ record { failed = false; state = opening config number }) }
    {
        let node = ReplicaParts::new(alloc, config, number)?;
        Ok(Replica {
            failed: false,
            node,
        })
    }

    /// The view that the replica is in. While it has not failed, its whole state is in its ranges.
    pub fn view(&self) -> View
        ensures value { result ≡ self.now.state.state.view }
        ensures fits { self.now.failed ≡ false → ViewFits result }
        ensures within { self.now.failed ≡ false → IsWithin self.now.state.state }
    {
        self.node.member.state.view
    }

    pub fn status(&self) -> Phase
        ensures { result ≡ self.now.state.state.status }
    {
        self.node.member.state.status
    }

    /// The last view in which the replica had status Normal.
    pub fn last_normal(&self) -> View
        ensures value { result ≡ self.now.state.state.last_normal }
        ensures fits { self.now.failed ≡ false → ViewFits result }
    {
        self.node.member.state.last_normal
    }

    pub fn log(&self) -> &ReplicaLog
        ensures value { result.now ≡ self.now.state.state.log }
        ensures fits { self.now.failed ≡ false → LogFits result.now }
    {
        &self.node.member.state.log
    }

    /// Up to this slot the replica's log is synchronised.
    pub fn sync_point(&self) -> u32
        ensures value { result ≡ self.now.state.state.sync.sync_point }
        ensures limit { self.now.failed ≡ false → result ≤ MAX_LENGTH }
    {
        self.node.member.state.sync.sync_point()
    }

    /// The last message number that the replica used, 0 where it used none. Whatever came, and also where it has failed, the
    /// replica's parts keep their limits.
    pub fn messages(&self) -> u64
        ensures value { result ≡ self.now.state.messages }
        ensures limits { KeepsLimits self.now.state }
    {
        let state = &self.node.member.state;
        let _len = state.log.len();
        let _number = state.next.get();
        let _next = state.receiver.next();
        let _senders = self.node.reassembly.senders();
        self.node.messages
    }

    /// How many bytes of payloads are kept of a sender whose messages are unfinished, 0 where there is no such sender.
    pub fn held(&self, sender: u8) -> u64
        ensures bytes { result ≡ held self.now.state.reassembly sender }
        ensures limit { result ≤ MAX_UNFINISHED * (MAX_FRAGMENTS * FRAGMENT_BYTES) }
    {
        self.node.reassembly.held(sender)
    }

    /// While the replica has not failed, how many slots its host has executed: of a leader in Normal the whole log, of another what is
    /// synchronised.
    pub fn executed(&self) -> u32
        ensures { self.now.failed ≡ false → result ≡ executed_to Trimmed self.now.state.state }
    {
        self.node.member.executor.reached()
    }
}

impl<H: Host> Core for Replica<H> {
    ghost use Rattle.std.specs.Prelude.{false};
    ghost use Rattle.replica_core.specs.ReplicaSteps as steps;
    ghost use Rattle.replica_core.specs.ReplicaSteps.{timers, next};

    ghost State = { steps.Replica };

    ghost state = { λ r. r.state };

    ghost has_failed = { λ r. r.failed };

    ghost next = { next H.meaning };

    ghost timers = { timers };

    ghost is_done = { λ _. false };

    fn step(&mut self, input: Input<'_>, out: &mut Outbox) -> Result<(), NoMemory> {
        if self.failed {
            return Err(NoMemory);
        }
        let acted = self.node.act(input, out);
        if acted.is_err() {
            self.failed = true;
        }
        acted
    }

    fn timer(&self, i: u8) -> Option<(Tick, u64)> {
        match i {
            0 => Some((Tick::Resend, RESEND_MILLIS)),
            1 => Some((Tick::Sync, SYNC_MILLIS)),
            2 => Some((Tick::Watch, WATCH_MILLIS)),
            _ => None,
        }
    }

    fn done(&self) -> bool {
        false
    }
}
