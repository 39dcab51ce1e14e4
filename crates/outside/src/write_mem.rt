ghost use Rattle.std.specs.Prelude.{◌≡◌, ◌≤◌, ◌<◌, [], length, IfOk};
ghost use Rattle.std.specs.Io.KnownBytes.{WriteAppends};
ghost use Rattle.outside.specs.Causes.{count_after};
ghost use Rattle.outside.specs.Plans.{new_plan, IsPlanned, plan_after_call};

use crate::{CallPlan, Failed, Failing, Sink, Unfailing, WriteError};
use nop_types::NoMemory;
use std::alloc::Global;
use std::marker::Model;

/// What was written, in memory. Its plan says how many bytes a write takes, and which writes fail.
#[derive(Drop)]
pub struct WriteMem<P: CallPlan = Unfailing> {
    bytes: Vec<u8>,
    plan: P,
}

impl<P: CallPlan> Model for WriteMem<P> {
    ghost use Rattle.outside.specs.Memory.{WriteMemory};

    ghost Value = { WriteMemory P };

    ghost view = { λ s. record { held = s.bytes.items; plan = s.plan } };
}

impl WriteMem<Unfailing> {
    /// Each write takes all of its piece.
    pub fn new(alloc: Global) -> WriteMem<Unfailing>
        ensures { result ≡ record { held = []; plan = usize.MAX } }
    {
        WriteMem::with_limit(alloc, usize::MAX)
    }

    /// Each write takes at most `most` bytes.
    pub fn with_limit(alloc: Global, most: usize) -> WriteMem<Unfailing>
        requires { 1 ≤ most }
        ensures { result ≡ record { held = []; plan = most } }
    {
        WriteMem {
            bytes: Vec::new(alloc),
            plan: Unfailing::new(most),
        }
    }
}

impl WriteMem<Failing> {
    /// Each write takes at most `most` bytes, and the writes with the numbers `failing` fail. Writes count from 1. Where a write
    /// may take none, one of a piece that is not empty fails.
    pub fn with_faults(
        alloc: Global,
        most: usize,
        failing: &[u64],
    ) -> Result<WriteMem<Failing>, NoMemory>
        ensures { IfOk result (λ s. s ≡ record { held = []; plan = new_plan most failing.now }) }
    {
        Ok(WriteMem {
            bytes: Vec::new(alloc),
            plan: Failing::new(alloc, most, failing)?,
        })
    }
}

impl<P: CallPlan> WriteMem<P> {
    /// What was written.
    pub fn as_slice(&self) -> &[u8]
        ensures { result.now ≡ self.now.held }
    {
        &self.bytes
    }

    /// What was written, without a copy.
    pub fn into_vec(self) -> Vec<u8>
        ensures { result.items ≡ self.held }
    {
        self.bytes
    }
}

impl<P: CallPlan> Sink for WriteMem<P> {
    ghost use Rattle.std.specs.Prelude.{Some};

    ghost held = { λ s. Some s.held };

    ghost fault_count = { λ s. P.fault_count s.plan };

    fn write(&mut self, piece: &[u8]) -> Result<usize, WriteError>
        ensures most { IfOk result (λ n. n ≤ length piece.now) }
        ensures some { IfOk result (λ n. 0 < length piece.now → 0 < n) }
        ensures bytes { WriteAppends (Some self.old.held) (Some self.new.held) result piece.now }
        ensures later { P.fault_count self.old.plan ≤ P.fault_count self.new.plan }
        ensures count { P.fault_count self.new.plan
            ≡ count_after result (P.fault_count self.old.plan) }

        // What the plan says, or that memory ran out: then nothing changed.
        ensures answer { IsPlanned (P.next_answer self.old.plan (length piece.now)) result }
        ensures after { self.new.plan
            ≡ plan_after_call result self.old.plan (P.after_call self.old.plan
            (length piece.now)) }
    {
        let answer = self.plan.answer(piece.len());
        if let Ok(count) = answer {
            self.bytes.extend_from_slice(&piece[..count])?;
        }
        self.plan.advance(piece.len());
        match answer {
            Ok(count) => Ok(count),
            Err(Failed) => Err(WriteError::Failed),
        }
    }

    fn faults(&self) -> u64 {
        self.plan.faults()
    }
}
