ghost use Rattle.std.specs.Prelude.{◌≡◌, ◌≤◌, true, IsTrue, OnOk, OnErr, IfOk};
ghost use Rattle.nop_types.specs.declared.limits.TheConstants.{NUMBER_END};
ghost use Rattle.nop_types.specs.Logs.{Trimmed};
ghost use Rattle.nop_types.specs.Configuration.{is_configuration};
ghost use Rattle.nop_types.specs.Ranges.{StampedFits};
ghost use Rattle.replica_state.specs.State.{opening};
ghost use Rattle.replica_state.specs.Moves.{left, entered, enter_as, own_change, adopted, begin_session, queue};

use crate::{NextNumber, ReplicaState};
use nop_types::{Change, Config, Log, NoMemory, Phase, Stamped, View};
use oum_receiver::Receiver;
use replica_log::ReplicaLog;
use slot_votes::SyncPoints;
use std::alloc::Global;
use view_change::Changes;

impl ReplicaState {
    /// The state of a replica before its first input.
    pub fn opening(alloc: Global, config: Config, number: u8) -> Result<ReplicaState, NoMemory>
        ensures state { IfOk result (λ s. s ≡ opening config number) }
        ensures limits { IsTrue (is_configuration config) }
    {
        let first = View {
            leader: 0,
            session: 1,
        };
        Ok(ReplicaState {
            config,
            number,
            view: first,
            status: Phase::Normal,
            last_normal: first,
            log: ReplicaLog::new(alloc),
            next: NextNumber::new(1),
            base: 0,
            receiver: Receiver::new(alloc, 1, 1)?,
            gap: None,
            sync: SyncPoints::new(config.replicas() / 2),
            changes: None,
            asked: 0,
            heard: true,
        })
    }

    /// The receiver begins a greater session with a packet, and the view is left.
    pub fn begin_session(&mut self, alloc: Global, packet: &Stamped) -> Result<(), NoMemory>
        requires { StampedFits packet.now }
        ensures ok { OnOk result (self.new ≡ begin_session self.old packet.now) }
        ensures err { OnErr result (self.new ≡ self.old) }
    {
        let mut receiver = Receiver::new(alloc, packet.session, 1)?;
        receiver.offer(packet)?;
        self.receiver = receiver;
        self.status = Phase::Change;
        Ok(())
    }

    /// A packet is offered to the receiver.
    pub fn queue(&mut self, packet: Stamped) -> Result<(), NoMemory>
        requires { StampedFits packet }
        ensures ok { OnOk result (self.new ≡ (queue self.old packet).0) }
        ensures err { OnErr result (self.new ≡ self.old) }
    {
        self.receiver.offer_owned(packet)?;
        Ok(())
    }

    /// Nothing of the view that is left stays: no gap, no votes, no changes. The replica listens for the leader of the new one.
    fn leave(&mut self)
        ensures { self.new ≡ left self.old }
    {
        self.gap = None;
        self.sync.clear();
        self.changes = None;
        self.asked = 0;
        self.heard = true;
    }

    /// Goes to a greater view, and waits for it to start.
    pub fn enter(&mut self, view: View)
        ensures { self.new ≡ entered self.old view }
    {
        if self.view.session < view.session && self.receiver.session() != view.session {
            self.receiver.reset(view.session, 1);
        }
        self.leave();
        self.view = view;
        self.status = Phase::Change;
    }

    /// The replica's own change, which it keeps where it leads the view that it enters.
    fn own_change(&self) -> Result<Change, NoMemory>
        ensures { IfOk result (λ c. c ≡ own_change self.now) }
    {
        Ok(Change {
            sender: self.number,
            last_normal: self.last_normal,
            next: self.next.get(),
            log: self.log.copy()?,
        })
    }

    /// The leader of the view that is entered gathers changes, its own first.
    pub fn begin_gathering(&mut self, alloc: Global) -> Result<(), NoMemory>
        ensures ok { OnOk result (self.new ≡ (enter_as true self.old).0) }
        ensures err { OnErr result (self.new ≡ self.old) }
    {
        let own = self.own_change()?;
        let changes = Changes::enter(alloc, self.view, self.max_faults(), own)?;
        self.changes = Some(changes);
        Ok(())
    }

    /// Takes part in a view from what it starts with.
    pub fn adopt(&mut self, view: View, next: u64, log: Log)
        requires next { next ≤ NUMBER_END }
        ensures { self.new ≡ adopted Trimmed self.old view next log }
    {
        if self.receiver.session() < view.session {
            self.receiver.reset(view.session, next);
        } else {
            self.receiver.advance(next);
        }
        self.leave();
        self.view = view;
        self.status = Phase::Normal;
        self.last_normal = view;
        self.sync.raise(log.sync_point());
        self.log.adopt(log);
        self.next.set(next);
        self.base = self.log.len();
    }
}
