ghost use Rattle.std.specs.Prelude.{◌≡◌, ◌<◌, [], OnOk, IfOk};
ghost use Rattle.nop_types.specs.Logs.{Trimmed};
ghost use Rattle.nop_types.specs.Ranges.{BodyFits};
ghost use Rattle.executor.specs.Running.{reached};
ghost use Rattle.replica_state.specs.Sends.{to_replica, to_leader, to_all};
ghost use Rattle.replica_state.specs.State.{opening, executed_to};
ghost use Rattle.replica_rows.specs.Within.{IsRunning, Does};

use crate::{ReplicaState, Sends};
use executor::Executor;
use nop_types::{Body, Config, Host, NoMemory};
use std::alloc::Global;

/// A replica over whole messages: its state, the execution of its log, and what it sends in this step.
#[derive(Drop)]
pub struct Member<H: Host> {
    pub alloc: Global,
    pub state: ReplicaState,
    pub executor: Executor<H>,
    pub sends: Sends,
}

impl<H: Host> Member<H> {
    /// A member before its first input: nothing is executed, and nothing is sent.
    pub fn new(alloc: Global, config: Config, number: u8) -> Result<Member<H>, NoMemory>
        requires { number < config.replicas }
        ensures state { IfOk result (λ x. x.state ≡ opening config number) }
        ensures runs { IfOk result (λ x. IsRunning H.Host x) }
        ensures executed { IfOk result (λ x. reached x.executor ≡ executed_to Trimmed x.state) }
        ensures nothing { IfOk result (λ x. x.sends ≡ []) }
    {
        let state = ReplicaState::opening(alloc, config, number)?;
        let executor = Executor::new(alloc)?;
        Ok(Member {
            alloc,
            state,
            executor,
            sends: Sends::new(alloc),
        })
    }

    pub(crate) fn to_replica(&mut self, replica: u8, body: Body) -> Result<(), NoMemory>
        requires runs { IsRunning H.Host self.old }
        requires fits { BodyFits body }
        ensures state { self.new.state ≡ self.old.state }
        ensures executor { self.new.executor ≡ self.old.executor }
        ensures does { OnOk result (Does H.Host self.old self.new
            (λ s. (s, to_replica s replica body))) }
    {
        self.state.send_to(replica, body, &mut self.sends)
    }

    pub(crate) fn to_leader(&mut self, body: Body) -> Result<(), NoMemory>
        requires runs { IsRunning H.Host self.old }
        requires fits { BodyFits body }
        ensures state { self.new.state ≡ self.old.state }
        ensures executor { self.new.executor ≡ self.old.executor }
        ensures does { OnOk result (Does H.Host self.old self.new (λ s. (s, to_leader s body))) }
    {
        let leader = self.state.leader();
        self.to_replica(leader, body)
    }

    pub(crate) fn to_all(&mut self, body: Body) -> Result<(), NoMemory>
        requires runs { IsRunning H.Host self.old }
        requires fits { BodyFits body }
        ensures state { self.new.state ≡ self.old.state }
        ensures executor { self.new.executor ≡ self.old.executor }
        ensures does { OnOk result (Does H.Host self.old self.new (λ s. (s, to_all s body))) }
    {
        self.state.send_to_all(body, &mut self.sends)
    }
}
