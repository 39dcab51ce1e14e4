ghost use Rattle.std.specs.Prelude.{◌≡◌, ◌<◌, true, OnOk, IfOk, option_map};
ghost use Rattle.std.specs.Option.{option_copied};
ghost use Rattle.nop_types.specs.declared.limits.TheConstants.{MAX_REPLICAS};
ghost use Rattle.nop_types.specs.CheckpointedLogs.{loads_by};
ghost use Rattle.nop_types.specs.Logs.{Trimmed};
ghost use Rattle.nop_types.specs.Ranges.{StampedFits, PeerFits, BodyFits};
ghost use Rattle.executor.specs.Running.{reached};
ghost use Rattle.replica_state.specs.Moves.{begin_session, queue};
ghost use Rattle.replica_rows.specs.Rows.{new_session, stamped};
ghost use Rattle.replica_rows.specs.Messages.{from_leader, from_follower, dispatch, on_body, on_message, ticked};
ghost use Rattle.replica_rows.specs.Messages.{arrival_of, loads_in, arrive};
ghost use Rattle.replica_state.specs.State.{executed_to, is_from_leader, is_to_leader, is_other};
ghost use Rattle.replica_state.specs.Sends.{when};
ghost use Rattle.replica_rows.specs.Within.{ArrivalFits, IsRunning, Does};

use crate::member::Member;
use executor::checkpoint_loads;
use nop_types::{Body, Change, Checkpoint, Host, NoMemory, Peer, Stamped, Tick, View};

/// What a whole input is: a stamped request, a message of another replica, or a tick.
#[derive(Drop)]
pub enum Arrival {
    Stamped(Stamped),
    PeerMessage(Peer),
    Ticked(Tick),
}

/// Whether there are two checkpoints, of the same state of the host.
fn have_same_state(a: Option<&Checkpoint>, b: Option<&Checkpoint>) -> bool
    ensures { result ≡ true → option_map (λ c. c.host) (option_copied a.entry)
        ≡ option_map (λ c. c.host) (option_copied b.entry) }
{
    match (a, b) {
        (Some(a), Some(b)) => a.host().as_slice() == b.host().as_slice(),
        _ => false,
    }
}

impl<H: Host> Member<H> {
    /// Whether a checkpoint, if there is one, loads. Where it has the state that the own one has, it need not be tried.
    #[tactic(auto, using(crate::proofs::Loading::same_state_loads))]
    fn loads(&self, checkpoint: Option<&Checkpoint>) -> Result<bool, NoMemory>
        requires runs { IsRunning H.Host self.now }
        ensures { IfOk result (λ b. b ≡ loads_by H.meaning (option_copied checkpoint.entry)) }
    {
        if have_same_state(checkpoint, self.state.log.checkpoint()) {
            return Ok(true);
        }
        checkpoint_loads::<H>(self.alloc, checkpoint)
    }

    /// Whether the log of a message, if it has one, has no checkpoint or one that loads.
    #[tactic(auto, unfolding(crate::specs::Messages::loads_in))]
    fn loads_in(&self, body: &Body) -> Result<bool, NoMemory>
        requires runs { IsRunning H.Host self.now }
        ensures { IfOk result (λ b. b ≡ loads_in H.meaning body.now) }
    {
        match body {
            Body::ViewChange { log, .. } | Body::StartView { log, .. } | Body::SyncPrepare(log) =>
                self.loads(log.checkpoint()),
            _ => Ok(true),
        }
    }

    /// A packet of a greater session comes: the receiver begins that session, and the view of it is entered.
    fn new_session(&mut self, packet: &Stamped) -> Result<(), NoMemory>
        requires runs { IsRunning H.Host self.old }
        requires fits { StampedFits packet.now }
        ensures { OnOk result (Does H.Host self.old self.new
            (new_session H.meaning Trimmed packet.now)) }
    {
        self.state.begin_session(self.alloc, packet)?;
        let leader = self.state.view.leader;
        self.enter_and_drain(View {
            leader,
            session: packet.session,
        })
    }

    /// A stamped request comes.
    pub(crate) fn stamped(&mut self, packet: Stamped) -> Result<(), NoMemory>
        requires runs { IsRunning H.Host self.old }
        requires fits { StampedFits packet }
        ensures { OnOk result (Does H.Host self.old self.new (stamped H.meaning Trimmed packet)) }
    {
        if self.state.view.session < packet.session {
            return self.new_session(&packet);
        }
        self.state.queue(packet)?;
        self.drain()
    }

    /// A message of the leader to a follower comes.
    #[tactic(auto, unfolding(crate::specs::Messages::loads_in))]
    fn from_leader(&mut self, body: Body) -> Result<(), NoMemory>
        requires runs { IsRunning H.Host self.old }
        requires fits { BodyFits body }
        requires loads { loads_in H.meaning body ≡ true }
        ensures { OnOk result (Does H.Host self.old self.new (from_leader H.meaning Trimmed body)) }
    {
        match body {
            Body::GapCommit(slot) => self.gap_commit(slot),
            Body::Found(slot, request) => self.found(slot, request),
            Body::SyncPrepare(log) => self.sync_prepare(log),
            Body::SyncCommit(slot) => self.sync_commit(slot),
            _ => Ok(()),
        }
    }

    /// A message of a follower to the leader comes.
    fn from_follower(&mut self, sender: u8, body: Body) -> Result<(), NoMemory>
        requires runs { IsRunning H.Host self.old }
        requires sender { sender < MAX_REPLICAS }
        requires fits { BodyFits body }
        ensures { OnOk result (Does H.Host self.old self.new
            (from_follower H.meaning Trimmed sender body)) }
    {
        match body {
            Body::SlotLookup(slot) => self.slot_lookup(sender, slot),
            Body::GapRep(slot) => self.gap_reply(sender, slot),
            Body::SyncRep(len) => self.sync_reply(sender, len),
            _ => Ok(()),
        }
    }

    /// A message that is taken in the view in which the replica is Normal.
    fn dispatch(&mut self, sender: u8, view: View, body: Body) -> Result<(), NoMemory>
        requires runs { IsRunning H.Host self.old }
        requires sender { sender < MAX_REPLICAS }
        requires fits { BodyFits body }
        requires loads { loads_in H.meaning body ≡ true }
        ensures { OnOk result (Does H.Host self.old self.new
            (dispatch H.meaning Trimmed sender view body)) }
    {
        if self.state.is_from_leader(view, sender) {
            return self.from_leader(body);
        }
        if self.state.is_to_leader(view) {
            return self.from_follower(sender, body);
        }
        Ok(())
    }

    /// The row of a message, by its body.
    #[tactic(auto, unfolding(crate::specs::Messages::loads_in))]
    fn on_body(&mut self, message: Peer) -> Result<(), NoMemory>
        requires runs { IsRunning H.Host self.old }
        requires fits { PeerFits message }
        requires loads { loads_in H.meaning message.body ≡ true }
        ensures { OnOk result (Does H.Host self.old self.new
            (on_body H.meaning Trimmed message message.body)) }
    {
        let Peer { sender, view, body } = message;
        match body {
            Body::ViewChangeReq => self.view_change_request(view),
            Body::ViewChange {
                last_normal,
                next,
                log,
            } => {
                let change = Change {
                    sender,
                    last_normal,
                    next,
                    log,
                };
                self.view_change(view, change)
            }
            Body::StartView { next, log } => self.start_view(sender, view, next, log),
            body => self.dispatch(sender, view, body),
        }
    }

    /// A message of another replica comes, with no checkpoint or one that loads.
    fn on_message(&mut self, message: Peer) -> Result<(), NoMemory>
        requires runs { IsRunning H.Host self.old }
        requires fits { PeerFits message }
        requires loads { loads_in H.meaning message.body ≡ true }
        ensures { OnOk result (Does H.Host self.old self.new
            (on_message H.meaning Trimmed message)) }
    {
        if !self.state.is_other(message.sender) {
            return Ok(());
        }
        self.on_body(message)
    }

    /// A message comes. Where its checkpoint does not load it does nothing.
    fn peer_message(&mut self, message: Peer) -> Result<(), NoMemory>
        requires runs { IsRunning H.Host self.old }
        requires fits { PeerFits message }
        ensures { OnOk result (Does H.Host self.old self.new
            (when (loads_in H.meaning message.body) (on_message H.meaning Trimmed message))) }
    {
        if !self.loads_in(&message.body)? {
            return Ok(());
        }
        self.on_message(message)
    }

    /// A tick comes.
    pub(crate) fn ticked(&mut self, tick: Tick) -> Result<(), NoMemory>
        requires runs { IsRunning H.Host self.old }
        ensures { OnOk result (Does H.Host self.old self.new (ticked H.meaning Trimmed tick)) }
    {
        match tick {
            Tick::Suspect => self.suspect(),
            Tick::Watch => self.watch(),
            Tick::Resend => self.state.resend(&mut self.sends),
            Tick::Sync => self.sync(),
            _ => Ok(()),
        }
    }

    /// The row for what arrives.
    fn arrive(&mut self, arrival: Arrival) -> Result<(), NoMemory>
        requires runs { IsRunning H.Host self.old }
        requires fits { ArrivalFits (arrival_of arrival) }
        ensures { OnOk result
            (Does H.Host self.old self.new (λ s. arrive H.meaning Trimmed s (arrival_of arrival))) }
    {
        match arrival {
            Arrival::Stamped(packet) => self.stamped(packet),
            Arrival::PeerMessage(message) => self.peer_message(message),
            Arrival::Ticked(tick) => self.ticked(tick),
        }
    }

    /// Takes the row for what arrives, and executes as far as a replica does. An error may leave the member anywhere on the way: it is
    /// not known to run then, and takes no more rows.
    pub fn take(&mut self, arrival: Arrival) -> Result<(), NoMemory>
        requires runs { IsRunning H.Host self.old }
        requires fits { ArrivalFits (arrival_of arrival) }
        ensures does { OnOk result
            (Does H.Host self.old self.new (λ s. arrive H.meaning Trimmed s (arrival_of arrival))) }
        ensures executed { OnOk result (reached self.new.executor
            ≡ executed_to Trimmed self.new.state) }
    {
        self.arrive(arrival)?;
        self.settle()
    }
}
