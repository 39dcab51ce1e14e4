ghost use Rattle.std.specs.Prelude.{◌≡◌, ◌<◌, ◌↔◌, ◌⊎◌, true, false, IfOk, OnOk, OnErr, IsErr, None};
ghost use Rattle.nop_types.specs.Ranges.{RequestFits};
ghost use Rattle.sequencer.specs.SequencerSteps.{IsWithin, opening, stamped_by, after_stamp};

use crate::SequencerState;
use crate::rows::{act, stamp_next};
use nop_types::{
    Core, Input, MAX_SEQUENCERS, NUMBER_END, NoMemory, Outbox, Request, Stamped, Tick, end_step,
};
use std::alloc::Global;
use std::marker::Model;

/// A sequencer: it writes its session and a number that rises on each request.
#[derive(Drop)]
pub struct Sequencer {
    alloc: Global,
    failed: bool,
    state: SequencerState,
}

impl Model for Sequencer {
    ghost use Rattle.nop_types.specs.Machine.{Machine};
    ghost use Rattle.sequencer.specs.declared.state.SequencerState.{SequencerState};
    ghost use Rattle.sequencer.specs.SequencerSteps.{IsWithin};

    ghost Value = { Machine SequencerState };

    ghost view = { λ s. record { failed = s.failed; state = s.state } };

    ghost invariant = { λ s. IsWithin s.state };
}

impl Sequencer {
    /// Sequencer 0 opens in session 1, the others without a session.
    pub fn new(alloc: Global, number: u8) -> Result<Sequencer, NoMemory>
        requires { number < MAX_SEQUENCERS }
        ensures { IfOk result (λ s. s ≡ record { failed = false; state = opening number }) }
    {
        let session = if number == 0 { 1 } else { 0 };
        Ok(Sequencer {
            alloc,
            failed: false,
            state: SequencerState {
                number,
                session,
                next: 1,
            },
        })
    }

    pub fn state(&self) -> SequencerState
        ensures value { result ≡ self.now.state }
        ensures within { IsWithin result }
    {
        self.state
    }

    /// The request with the session and the next message number, which rises. None, with nothing changed, exactly where there
    /// is no session or the next number is `NUMBER_END`. A step does the same with a request that comes, and sends it.
    pub fn stamp(&mut self, request: &Request) -> Result<Option<Stamped>, NoMemory>
        ensures packet { IfOk result (λ packet. packet ≡ stamped_by self.old.state request.now) }
        ensures none { IfOk result (λ packet. (packet ≡ None)
            ↔ ((self.old.state.session ≡ 0) ⊎ (self.old.state.next ≡ NUMBER_END))) }
        ensures after { OnOk result (self.new
            ≡ record self.old { state = after_stamp self.old.state }) }
        ensures err { OnErr result (self.new ≡ self.old) }
        ensures for_good { self.old.failed ≡ true → IsErr result }
    {
        if self.failed {
            return Err(NoMemory);
        }
        let request = request.try_clone()?;
        Ok(stamp_next(&mut self.state, request))
    }
}

impl Core for Sequencer {
    ghost use Rattle.std.specs.Prelude.{[], false};
    ghost use Rattle.sequencer.specs.declared.state.SequencerState.{SequencerState};
    ghost use Rattle.sequencer.specs.SequencerSteps.{next};

    ghost State = { SequencerState };

    ghost state = { λ s. s.state };

    ghost has_failed = { λ s. s.failed };

    ghost next = { next };

    ghost timers = { [] };

    ghost is_done = { λ _. false };

    fn step(&mut self, input: Input<'_>, out: &mut Outbox) -> Result<(), NoMemory> {
        if self.failed {
            return Err(NoMemory);
        }
        let mut made = Outbox::new(self.alloc);
        let mut state = self.state;
        let acted = act(self.alloc, &mut state, input, &mut made);
        end_step(acted, made, out, &mut self.failed)?;
        self.state = state;
        Ok(())
    }

    fn timer(&self, _i: u8) -> Option<(Tick, u64)> {
        None
    }

    fn done(&self) -> bool {
        false
    }
}
