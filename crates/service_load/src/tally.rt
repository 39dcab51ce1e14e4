//! When each op of a load was submitted, and how long each answered one took.
ghost use Rattle.std.specs.Prelude.{◌≡◌, ◌+◌, [], length, OnOk};
ghost use Rattle.service_load.specs.Loads.{answer_count, answers};

use desk::Labelled;
use nop_types::{NoMemory, Out};
use std::alloc::Global;

/// When the request of each ticket was submitted, and how long each answered one took, in
/// microseconds.
#[derive(Drop)]
pub(crate) struct Tally {
    pub(crate) begun: Vec<u64>,
    pub(crate) times: Vec<u64>,
}

impl Tally {
    pub(crate) fn new(alloc: Global) -> Tally
        ensures { result.times.items ≡ [] }
    {
        Tally {
            begun: Vec::new(alloc),
            times: Vec::new(alloc),
        }
    }

    /// How long the request of a ticket took, which is answered now. Tickets are submitted in their
    /// order.
    fn time_of(&self, ticket: u64, now: u64) -> u64 {
        match self.begun.get(ticket as usize) {
            Some(begun) => now.saturating_sub(*begun),
            None => 0,
        }
    }

    /// Notes what a core gave.
    fn note(&mut self, told: &Labelled, now: u64) -> Result<(), NoMemory>
        ensures { OnOk result (length self.new.times.items
            ≡ length self.old.times.items + answers told.now.ticket told.now.out) }
    {
        let Some(ticket) = told.ticket else {
            return Ok(());
        };
        match &told.out {
            Out::Submitted(_) => {
                self.begun.push(now)?;
                Ok(())
            }
            Out::Accepted { .. } => {
                let time = self.time_of(ticket, now);
                self.times.push(time)?;
                Ok(())
            }
            _ => Ok(()),
        }
    }

    /// Notes what the cores gave.
    pub(crate) fn note_all(&mut self, told: &[Labelled], now: u64) -> Result<(), NoMemory>
        ensures { OnOk result (length self.new.times.items
            ≡ length self.old.times.items + answer_count told.now) }
    {
        for one in told {
            self.note(one, now)?;
        }
        Ok(())
    }
}
