ghost use Rattle.std.specs.Prelude.{◌≡◌, ◌≤◌, ◌++◌, drop, length, take, IfOk};
ghost use Rattle.std.specs.Io.KnownBytes.{ReadConsumes};
ghost use Rattle.std.specs.Result.{result_unwrap_or};
ghost use Rattle.outside.specs.Causes.{count_after_read};
ghost use Rattle.outside.specs.Memory.{fitting};
ghost use Rattle.outside.specs.Plans.{new_plan};

use crate::{CallPlan, Failed, Failing, Source, Unfailing};
use nop_types::NoMemory;
use std::alloc::Global;
use std::marker::Model;

/// Bytes in memory that are read from the front. Its plan says how many bytes a read gives, and which reads fail.
#[derive(Drop)]
pub struct ReadMem<P: CallPlan = Unfailing> {
    bytes: Vec<u8>,
    at: usize,
    plan: P,
}

impl<P: CallPlan> Model for ReadMem<P> {
    ghost use Rattle.std.specs.Prelude.{◌≤◌, drop, length};
    ghost use Rattle.outside.specs.Memory.{ReadMemory};

    ghost Value = { ReadMemory P };

    ghost view = { λ s. record { left = drop s.at s.bytes.items; plan = s.plan } };

    ghost invariant = { λ s. s.at ≤ length s.bytes.items };
}

impl ReadMem<Unfailing> {
    /// Each read gives as much as fits.
    pub fn new(bytes: Vec<u8>) -> ReadMem<Unfailing>
        ensures { result ≡ record { left = bytes.items; plan = usize.MAX } }
    {
        ReadMem::with_limit(bytes, usize::MAX)
    }

    /// Each read gives at most `most` bytes.
    pub fn with_limit(bytes: Vec<u8>, most: usize) -> ReadMem<Unfailing>
        requires { 1 ≤ most }
        ensures { result ≡ record { left = bytes.items; plan = most } }
    {
        ReadMem {
            bytes,
            at: 0,
            plan: Unfailing::new(most),
        }
    }
}

impl ReadMem<Failing> {
    /// Each read gives at most `most` bytes, and the reads with the numbers `failing` fail. Reads count from 1.
    pub fn with_faults(
        alloc: Global,
        bytes: Vec<u8>,
        most: usize,
        failing: &[u64],
    ) -> Result<ReadMem<Failing>, NoMemory>
        requires { 1 ≤ most }
        ensures { IfOk result (λ s. s ≡ record {
          left = bytes.items;
          plan = new_plan most
              failing.now;
        }) }
    {
        Ok(ReadMem {
            bytes,
            at: 0,
            plan: Failing::new(alloc, most, failing)?,
        })
    }
}

impl<P: CallPlan> ReadMem<P> {
    /// The bytes that are left.
    pub fn as_slice(&self) -> &[u8]
        ensures { result.now ≡ self.now.left }
    {
        &self.bytes[self.at..]
    }
}

impl<P: CallPlan> Source for ReadMem<P> {
    ghost use Rattle.std.specs.Prelude.{Some};

    ghost left = { λ s. Some s.left };

    ghost fault_count = { λ s. P.fault_count s.plan };

    #[tactic(auto, using(crate::proofs::Pieces::left_split, std::proofs::lemmas::Grind::common_steps))]
    fn read(&mut self, buf: &mut [u8]) -> Result<usize, Failed>
        ensures most { IfOk result (λ n. n ≤ length buf.old) }
        ensures bytes { ReadConsumes (Some self.old.left) (Some self.new.left) result buf.new }
        ensures later { P.fault_count self.old.plan ≤ P.fault_count self.new.plan }
        ensures count { P.fault_count self.new.plan
            ≡ count_after_read result (P.fault_count self.old.plan) }

        // Exactly what the plan says.
        ensures answer { result ≡ P.next_answer self.old.plan (fitting self.old.left buf.old) }
        ensures after { self.new ≡ record {
          left = drop (result_unwrap_or result 0) self.old.left;
          plan = P.after_call self.old.plan (fitting self.old.left buf.old);
        } }
        ensures buffer { buf.new
            ≡ take (result_unwrap_or result 0) self.old.left
            ++ drop (result_unwrap_or result 0) buf.old }
    {
        let count = buf.len().min(self.bytes.len() - self.at);
        let answer = self.plan.answer(count);
        self.plan.advance(count);
        let Ok(taken) = answer else {
            return Err(Failed);
        };
        let end = self.at + taken;
        buf[..taken].copy_from_slice(&self.bytes[self.at..end]);
        self.at = end;
        Ok(taken)
    }

    fn faults(&self) -> u64 {
        self.plan.faults()
    }
}
