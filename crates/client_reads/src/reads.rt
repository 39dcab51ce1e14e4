ghost use Rattle.std.specs.Prelude.{◌≡◌, ◌++◌, IfSome, OnOk, OnErr};
ghost use Rattle.std.specs.Option.{option_copied};
ghost use Rattle.nop_types.specs.Given.{given};
ghost use Rattle.client_reads.specs.ReadSteps.{IsWithin, ReadingFits, is_done, next, opening};

use crate::rows::act;
use crate::{Reading, Reads};
use nop_types::{Input, NoMemory, Outbox};
use std::alloc::Global;
use std::marker::Model;

/// The reads of a client, seen as what is known of them: one waits at a time, for the answer of the observer that was asked.
#[derive(Drop)]
pub struct ClientReads {
    state: Reads,
}

impl Model for ClientReads {
    ghost use Rattle.std.specs.Prelude.{IfSome};
    ghost use Rattle.client_reads.specs.declared.state.Reads.{Reads};
    ghost use Rattle.client_reads.specs.ReadSteps.{ReadingFits};

    ghost Value = { Reads };

    ghost view = { λ c. c.state };

    ghost invariant = { λ c. IfSome c.state.pending ReadingFits };
}

impl ClientReads {
    /// Of the client with this number, which has read nothing yet.
    pub fn new(number: u32) -> ClientReads
        ensures { result ≡ opening number }
    {
        ClientReads {
            state: Reads {
                number,
                last_id: 0,
                pending: None,
            },
        }
    }

    /// One step. Where memory runs out, the state and the outputs are as before.
    pub fn step(
        &mut self,
        alloc: Global,
        input: Input<'_>,
        out: &mut Outbox,
    ) -> Result<(), NoMemory>
        ensures state { OnOk result (self.new ≡ (next self.old (given input.entry)).0) }
        ensures outputs { OnOk result (out.new
            ≡ out.old ++ (next self.old (given input.entry)).1) }
        ensures same { OnErr result (self.new ≡ self.old) }
        ensures kept { OnErr result (out.new ≡ out.old) }
    {
        act(alloc, &mut self.state, input, out)
    }

    /// The read that waits, if one does.
    pub fn pending(&self) -> Option<&Reading>
        ensures reading { option_copied result ≡ self.now.pending }
        ensures fits { IfSome self.now.pending ReadingFits }
    {
        self.state.pending.as_ref()
    }

    /// What is known of the reads. Whatever came, it is within the limits.
    pub fn state(&self) -> &Reads
        ensures value { result.now ≡ self.now }
        ensures within { IsWithin self.now }
    {
        let _number = self.state.number;
        let _last = self.state.last_id;
        &self.state
    }

    /// Whether no read waits.
    pub fn is_done(&self) -> bool
        ensures { result ≡ is_done self.now }
    {
        self.state.pending.is_none()
    }
}
