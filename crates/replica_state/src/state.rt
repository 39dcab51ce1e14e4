ghost use Rattle.std.specs.Prelude.{◌≡◌, ◌≤◌, ◌<◌, ◌-◌};
ghost use Rattle.nop_types.specs.Logs.{Trimmed, length_of};
ghost use Rattle.replica_state.specs.State.{max_faults, leader, leads, is_normal, may_append, drains};
ghost use Rattle.replica_state.specs.State.{is_other, is_current, is_from_leader, is_to_leader, may_adopt};
ghost use Rattle.replica_state.specs.State as words;
ghost use Rattle.replica_state.specs.Moves.{start_len};
ghost use Rattle.replica_state.specs.Within.{IsWithin};

use crate::NextNumber;
use nop_types::{Config, Log, NUMBER_END, Phase, View, leader_of};
use oum_receiver::Receiver;
use replica_log::ReplicaLog;
use slot_votes::{Gap, SyncPoints};
use view_change::Changes;

/// What a replica knows, apart from how its messages travel. `next` is the number of the request that it logs next, `base` how
/// many slots its view started with, `asked` the slot that it asked for last (0 is none), and `heard` whether it heard of its
/// leader since the last tick Watch.
#[derive(Drop)]
pub struct ReplicaState {
    pub config: Config,
    pub number: u8,
    pub view: View,
    pub status: Phase,
    pub last_normal: View,
    pub log: ReplicaLog,
    pub next: NextNumber,
    pub base: u32,
    pub receiver: Receiver,
    pub gap: Option<Gap>,
    pub sync: SyncPoints,
    pub changes: Option<Changes>,
    pub asked: u32,
    pub heard: bool,
}

impl ReplicaState {
    /// f: how many others make a quorum with a replica.
    pub fn max_faults(&self) -> u8
        ensures { result ≡ max_faults self.now }
    {
        self.config.replicas() / 2
    }

    /// The replica that leads the view.
    pub fn leader(&self) -> u8
        ensures leader { result ≡ leader self.now }
        ensures within { result < self.now.config.replicas }
    {
        leader_of(self.view, self.config.replicas())
    }

    /// Whether the replica leads its view.
    pub fn leads(&self) -> bool
        ensures { result ≡ leads self.now }
    {
        self.leader() == self.number
    }

    /// Whether the replica takes part in its view.
    pub fn is_normal(&self) -> bool
        ensures { result ≡ is_normal self.now.status }
    {
        self.status == Phase::Normal
    }

    /// Whether a gap waits for votes.
    pub fn waits(&self) -> bool
        ensures { result ≡ words.waits self.now.gap }
    {
        self.gap.is_some()
    }

    /// Whether the log has room for an entry, and there is a number for the one after it.
    pub fn may_append(&self) -> bool
        ensures { result ≡ may_append Trimmed self.now }
    {
        self.log.has_room() && self.next.get() < NUMBER_END
    }

    /// Whether what is in front of the receiver may be taken.
    pub fn drains(&self) -> bool
        ensures { result ≡ drains Trimmed self.now }
    {
        self.is_normal() && !self.waits() && self.log.has_room()
    }

    /// How many slots a late replica is sent: those that the view started with, and those that
    /// are synchronised.
    pub(crate) fn start_len(&self) -> u32
        requires { IsWithin self.now }
        ensures value { result ≡ start_len self.now }
        ensures low { self.now.base ≤ result }
        ensures within { result ≤ length_of Trimmed self.now.log }
    {
        self.base.max(self.sync.sync_point())
    }

    /// The number of the request after the first `len` slots, which are no fewer than the view
    /// started with.
    pub(crate) fn number_after(&self, len: u32) -> u64
        requires within { IsWithin self.now }
        requires low { self.now.base ≤ len }
        requires high { len ≤ length_of Trimmed self.now.log }
        ensures value { result ≡ self.now.next - (length_of Trimmed self.now.log - len) }
        ensures low { 1 ≤ result }
    {
        self.next.get() - u64::from(self.log.len() - len)
    }

    /// Whether this is another replica of the group.
    pub fn is_other(&self, replica: u8) -> bool
        ensures { result ≡ is_other self.now replica }
    {
        replica < self.config.replicas() && replica != self.number
    }

    /// Whether a message is of the view in which the replica is Normal.
    fn is_current(&self, view: View) -> bool
        ensures { result ≡ is_current self.now view }
    {
        view.is(self.view) && self.is_normal()
    }

    /// Whether a message is one of the leader to a follower, in the view in which the replica is Normal.
    pub fn is_from_leader(&self, view: View, sender: u8) -> bool
        ensures { result ≡ is_from_leader self.now view sender }
    {
        self.is_current(view) && !self.leads() && sender == self.leader()
    }

    /// Whether a message is one of a follower to the leader, in the view in which the replica is Normal.
    pub fn is_to_leader(&self, view: View) -> bool
        ensures { result ≡ is_to_leader self.now view }
    {
        self.is_current(view) && self.leads()
    }

    /// Whether a replica adopts what a view starts with.
    pub fn may_adopt(&self, sender: u8, view: View, log: &Log) -> bool
        ensures { result ≡ may_adopt Trimmed self.now sender view log.now }
    {
        sender == leader_of(view, self.config.replicas())
            && View::le(self.view, view)
            && (!view.is(self.view) || !self.is_normal())
            && self.sync.sync_point() <= log.len()
    }
}
