ghost use Rattle.std.specs.Prelude.{◌≡◌, ◌<◌, false, IfOk};
ghost use Rattle.session_control.specs.ControllerSteps.{IsWithin, opening};

use crate::rows::act;
use crate::sessions::opening_session;
use crate::{ControllerState, PROBE_MILLIS, RESEND_MILLIS};
use nop_types::{Config, Core, Input, MAX_CONTROLLERS, NoMemory, Outbox, Tick, end_step};
use std::alloc::Global;
use std::marker::Model;

/// A controller: it probes the current sequencer, and moves to another one under a new session.
#[derive(Drop)]
pub struct Controller {
    alloc: Global,
    failed: bool,
    state: ControllerState,
}

impl Model for Controller {
    ghost use Rattle.nop_types.specs.Machine.{Machine};
    ghost use Rattle.session_control.specs.declared.state.ControllerState.{ControllerState};
    ghost use Rattle.session_control.specs.ControllerSteps.{IsWithin};

    ghost Value = { Machine ControllerState };

    ghost view = { λ c. record { failed = c.failed; state = c.state } };

    ghost invariant = { λ c. IsWithin c.state };
}

impl Controller {
    /// A controller whose current sequencer is 0, in its first session. No controller of these sequencers had its number before.
    pub fn new(alloc: Global, config: Config, number: u8) -> Result<Controller, NoMemory>
        requires { number < MAX_CONTROLLERS }
        ensures { IfOk result (λ c. c
            ≡ record { failed = false; state = opening config number }) }
    {
        Ok(Controller {
            alloc,
            failed: false,
            state: ControllerState {
                config,
                number,
                session: opening_session(number),
                seen: 0,
                current: 0,
                confirmed: true,
                round: 0,
                heard: true,
                missed: 0,
            },
        })
    }

    pub fn state(&self) -> ControllerState
        ensures value { result ≡ self.now.state }
        ensures within { IsWithin result }
    {
        self.state
    }
}

impl Core for Controller {
    ghost use Rattle.std.specs.Prelude.{false};
    ghost use Rattle.session_control.specs.declared.state.ControllerState.{ControllerState};
    ghost use Rattle.session_control.specs.ControllerSteps.{timers, next};

    ghost State = { ControllerState };

    ghost state = { λ c. c.state };

    ghost has_failed = { λ c. c.failed };

    ghost next = { next };

    ghost timers = { timers };

    ghost is_done = { λ _. false };

    fn step(&mut self, input: Input<'_>, out: &mut Outbox) -> Result<(), NoMemory> {
        if self.failed {
            return Err(NoMemory);
        }
        let mut made = Outbox::new(self.alloc);
        let mut state = self.state;
        let acted = act(self.alloc, &mut state, input, &mut made);
        end_step(acted, made, out, &mut self.failed)?;
        self.state = state;
        Ok(())
    }

    fn timer(&self, i: u8) -> Option<(Tick, u64)> {
        match i {
            0 => Some((Tick::Resend, RESEND_MILLIS)),
            1 => Some((Tick::Probe, PROBE_MILLIS)),
            _ => None,
        }
    }

    fn done(&self) -> bool {
        false
    }
}
