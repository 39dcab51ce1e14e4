//! The state of a search: how many claims are passed, which requests are placed, and which wait.

ghost use Rattle.std.specs.Prelude.{◌≡◌, IfOk, map};
ghost use Rattle.order_search.specs.Bounds.{most_steps};
ghost use Rattle.order_search.specs.Outcomes.{placed_by};
ghost use Rattle.order_search.specs.States.{most_left, IsSearch};
ghost use Rattle.pairs.specs.Said.{said_by};

use crate::failed::{Configuration, Failed};
use crate::outcome::Placed;
use crate::step::Step;
use nop_types::{Host, NoMemory};
use std::alloc::Global;
use transcript_reader::Claim;

/// The state of a search.
#[derive(Drop)]
pub(crate) struct Search<H: Host> {
    pub(crate) host: H,
    /// Claims that are passed.
    pub(crate) line: usize,
    /// Of those that wait, so many were tried here.
    pub(crate) next: usize,
    pub(crate) steps: Vec<Step<H::Undo>>,
    /// The places of the claims before the line whose requests are not placed, in their order.
    pub(crate) waiting: Vec<usize>,
    /// For each claim whether its request is placed.
    pub(crate) placed: Vec<bool>,
    pub(crate) failed: Failed,
}

impl<H: Host> Search<H> {
    pub(crate) fn new(alloc: Global, claims: &[&Claim]) -> Result<Search<H>, NoMemory>
        ensures search { IfOk result (IsSearch H.Host (said_by claims.now)) }
        ensures opens { IfOk result (λ s. most_left (said_by claims.now) s
            ≡ most_steps (said_by claims.now)) }
    {
        let mut placed = Vec::new(alloc);
        placed.resize(claims.len(), false)?;
        Ok(Search {
            host: H::fresh(alloc)?,
            line: 0,
            next: 0,
            steps: Vec::new(alloc),
            waiting: Vec::new(alloc),
            placed,
            failed: Failed::new(alloc),
        })
    }

    /// The configuration here.
    pub(crate) fn configuration(&self) -> Result<Configuration, NoMemory>
        ensures { IfOk result (λ c. (c.line ≡ self.now.line)
            × (c.waiting.items ≡ self.now.waiting.items)
            × (c.state.items ≡ H.meaning.saved (H.state self.now.host))) }
    {
        Ok(Configuration {
            line: self.line,
            waiting: self.waiting.clone()?,
            state: self.host.save()?.into_vec(),
        })
    }

    /// The requests that are placed, in their order.
    pub(crate) fn order(&self, alloc: Global) -> Result<Vec<Placed>, NoMemory>
        ensures { IfOk result (λ v. v.items ≡ map placed_by self.now.steps.items) }
    {
        Ok(
            self.steps
                .iter()
                .map(|s| Placed {
                    submit: s.submit,
                    line: s.line,
                })
                .collect(alloc)?,
        )
    }
}
