//! A load without its devices.

ghost use Rattle.std.specs.Prelude.{◌≡◌, ◌≤◌, ◌<◌, ◌+◌, ◌^◌, length, IfOk, IsTrue};
ghost use Rattle.service_load.specs.Loads.{IsLoad, Keeps, Plan, Reports};

use crate::pattern::Pattern;
use crate::report::Report;
use crate::tally::Tally;
use desk::{Desk, DeskError, Labelled};
use nop_types::{Config, Input, NoMemory};
use std::alloc::Global;

/// How many requests a core has open at most.
const OPEN_PER_CORE: u64 = 8;

const _: () = prove!(OPEN_PER_CORE == 8);

/// The ops that are to be taken, the desk that has taken some, and what was noted of them.
pub(crate) struct Load {
    pub(crate) pattern: Pattern,
    pub(crate) count: u64,
    pub(crate) desk: Desk,
    pub(crate) tally: Tally,
}

// By hand, so that a crate with one proves nothing on how its parts are dropped.
impl Drop for Load {
    fn drop(self) {
        let Load {
            pattern: _pattern,
            count: _count,
            desk: _desk,
            tally: _tally,
        } = self;
    }
}

impl Load {
    /// So many ops of a pattern, through so many client numbers from the first one on. None of
    /// these was used before.
    #[tactic(auto, using(crate::proofs::LoadLemmas::opens))]
    pub(crate) fn new(
        alloc: Global,
        config: Config,
        first: u32,
        clients: usize,
        pattern: Pattern,
        count: u64,
    ) -> Result<Load, NoMemory>
        requires { first + clients ≤ 2 ^ 32 }
        ensures { IfOk result (IsLoad (record {
          config = config;
          first = first;
          clients = clients;
          ops = pattern;
          count = count;
        })) }
    {
        Ok(Load {
            pattern,
            count,
            desk: Desk::new(alloc, config, first, clients)?,
            tally: Tally::new(alloc),
        })
    }

    /// How many ops were taken.
    pub(crate) fn taken(&self) -> u64
        ensures { result ≡ self.now.desk.state.taken }
    {
        self.desk.state().taken
    }

    /// How many were answered.
    pub(crate) fn answered(&self) -> u64
        ensures { result ≡ length self.now.tally.times.items }
    {
        self.tally.times.len() as u64
    }

    /// Whether one more op is to be taken now: as long as the cores may have one more open.
    pub(crate) fn wants_op(&self) -> bool
        ensures { IsTrue result → self.now.desk.state.taken < self.now.count }
    {
        let taken = self.taken();
        let open_ = taken.saturating_sub(self.answered());
        let cores = self.desk.state().cores.as_slice().len() as u64;
        taken < self.count && open_ < cores.saturating_mul(OPEN_PER_CORE)
    }

    /// Takes the next op; what the cores gave then. After an error the load is over.
    #[tactic(auto, using(crate::proofs::LoadLemmas::took))]
    pub(crate) fn take_next(&mut self, now: u64) -> Result<Vec<Labelled>, NoMemory>
        requires { self.old.desk.state.taken < self.old.count }
        ensures { Keeps self.old self.new result }
    {
        let op = self.pattern.op_at(self.taken())?;
        match self.desk.take(op) {
            Ok((_ticket, told)) => {
                self.tally.note_all(&told, now)?;
                Ok(told)
            }
            Err(DeskError::Full | DeskError::NoMemory) => Err(NoMemory),
        }
    }

    /// An input comes to the core at a place; what the cores gave then. After an error the load is
    /// over.
    #[tactic(auto, using(crate::proofs::LoadLemmas::came))]
    pub(crate) fn comes(
        &mut self,
        core: usize,
        input: Input<'_>,
        now: u64,
    ) -> Result<Vec<Labelled>, NoMemory>
        ensures { Keeps self.old self.new result }
    {
        let told = self.desk.comes(core, input)?;
        self.tally.note_all(&told, now)?;
        Ok(told)
    }

    /// What the load came to.
    pub(crate) fn report(self, lost: u64) -> Result<Report, NoMemory>
        ensures { IfOk result (λ r. (plan : Plan) → IsLoad plan self → Reports plan r) }
    {
        let submitted = self.taken();
        let Load {
            pattern: _pattern,
            count: _count,
            desk: _desk,
            tally,
        } = self;
        let Tally {
            begun: _begun,
            times,
        } = tally;
        let mut times = times;
        let answered = times.len() as u64;
        times.sort()?;
        Ok(Report {
            submitted,
            answered,
            lost,
            times,
        })
    }
}
