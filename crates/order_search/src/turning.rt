//! One step of a search: it passes a claim, places requests, or takes the last one back.

ghost use Rattle.std.specs.Prelude.{◌≡◌, ◌⊎◌, ◌+◌, ◌<◌, length, true, false, IfOk, OnOk};
ghost use Rattle.execution_laws.specs.Legality.{SubmittedOnce};
ghost use Rattle.fronts.specs.Fronts.{HasOrder};
ghost use Rattle.order_search.specs.Bounds.{AcceptsAt};
ghost use Rattle.order_search.specs.Reads.{AreReads};
ghost use Rattle.order_search.specs.States.{GoesNowhere, IsInput, IsSearch, IsStuckHere, StepsFall};
ghost use Rattle.pairs.specs.Said.{said_by};

use crate::claims::claim_at;
use crate::placing::mark;
use crate::search::Search;
use nop_types::{Host, NoMemory};
use pairs::Pairs;
use transcript_reader::Claim;

/// What a step of a search came to.
#[derive(Clone, Copy)]
pub(crate) enum Turn {
    Going,
    /// All claims are passed.
    Found,
    /// No history is legal.
    Nothing,
}

impl<H: Host> Search<H> {
    /// Passes the claim here, where it submits, or accepts what is placed.
    fn pass(&mut self, claims: &[&Claim], pairs: &Pairs) -> Result<bool, NoMemory>
        requires within { self.old.line < length claims.now }
        requires input { IsInput claims.now pairs.now }
        requires search { IsSearch H.Host (said_by claims.now) self.old }
        ensures search { OnOk result (IsSearch H.Host (said_by claims.now) self.new) }
        ensures falls { IfOk result (λ passed. passed ≡ true
            → StepsFall (said_by claims.now) self.old self.new) }
        ensures moves { IfOk result (λ passed. passed ≡ true
            → self.new.line ≡ self.old.line + 1) }
        ensures stuck { IfOk result (λ passed. passed ≡ false
            → IsStuckHere (said_by claims.now) self.new) }
        ensures same { IfOk result (λ passed. passed ≡ false → self.new ≡ self.old) }
    {
        let line = self.line;
        match claim_at(claims, line) {
            Claim::Submitted(_) => {
                self.waiting.push(line)?;
                self.line += 1;
                self.next = 0;
                Ok(true)
            }
            Claim::Accepted { client, id, .. } => {
                if !self.is_placed(claims, pairs, *client, *id) {
                    return Ok(false);
                }
                self.line += 1;
                self.next = 0;
                Ok(true)
            }
        }
    }

    /// Takes the last step back, from a front that goes nowhere; then the next one that waited
    /// there is tried, if one is left.
    fn go_back(&mut self, claims: &[&Claim]) -> Result<Turn, NoMemory>
        requires once { SubmittedOnce (said_by claims.now) }
        requires search { IsSearch H.Host (said_by claims.now) self.old }
        requires fails { GoesNowhere H.Host (said_by claims.now) self.old }
        ensures found { IfOk result (λ turn. turn ≡ Turn.Found → ⊥) }
        ensures none { IfOk result (λ turn. turn ≡ Turn.Nothing
            → HasOrder H.meaning (said_by claims.now) → ⊥) }
        ensures search { IfOk result (λ turn. turn ≡ Turn.Going
            → IsSearch H.Host (said_by claims.now) self.new) }
        ensures falls { IfOk result (λ turn. turn ≡ Turn.Going
            → StepsFall (said_by claims.now) self.old self.new) }
    {
        let Some(step) = self.steps.pop() else {
            return Ok(Turn::Nothing);
        };
        self.host.undo(step.undo);
        mark(&mut self.placed, step.submit, false);
        self.waiting.truncate(step.others);
        self.waiting.insert(step.at, step.submit)?;
        self.line = step.line;
        self.next = step.tried;
        Ok(Turn::Going)
    }

    /// Whether the configuration here is known to fail.
    fn is_failed(&self, claims: &[&Claim]) -> Result<bool, NoMemory>
        requires once { SubmittedOnce (said_by claims.now) }
        requires search { IsSearch H.Host (said_by claims.now) self.now }
        ensures { IfOk result (λ b. b ≡ true
            → GoesNowhere H.Host (said_by claims.now) self.now) }
    {
        if self.failed.is_empty() {
            return Ok(false);
        }
        let here = self.configuration()?;
        Ok(self.failed.knows(&here))
    }

    /// Keeps the configuration here, whose front goes nowhere, and takes the last step back.
    fn fail(&mut self, claims: &[&Claim]) -> Result<Turn, NoMemory>
        requires once { SubmittedOnce (said_by claims.now) }
        requires search { IsSearch H.Host (said_by claims.now) self.old }
        requires fails { GoesNowhere H.Host (said_by claims.now) self.old }
        ensures found { IfOk result (λ turn. turn ≡ Turn.Found → ⊥) }
        ensures none { IfOk result (λ turn. turn ≡ Turn.Nothing
            → HasOrder H.meaning (said_by claims.now) → ⊥) }
        ensures search { IfOk result (λ turn. turn ≡ Turn.Going
            → IsSearch H.Host (said_by claims.now) self.new) }
        ensures falls { IfOk result (λ turn. turn ≡ Turn.Going
            → StepsFall (said_by claims.now) self.old self.new) }
    {
        let here = self.configuration()?;
        self.failed.keep(here)?;
        self.go_back(claims)
    }

    /// One step where the claim here accepts what is not placed.
    fn turn_here(
        &mut self,
        claims: &[&Claim],
        pairs: &Pairs,
        reads: &[bool],
    ) -> Result<Turn, NoMemory>
        requires input { IsInput claims.now pairs.now }
        requires reads { AreReads H.meaning (said_by claims.now) (length claims.now) reads.now }
        requires search { IsSearch H.Host (said_by claims.now) self.old }
        requires stuck { IsStuckHere (said_by claims.now) self.old }
        ensures found { IfOk result (λ turn. turn ≡ Turn.Found → ⊥) }
        ensures none { IfOk result (λ turn. turn ≡ Turn.Nothing
            → HasOrder H.meaning (said_by claims.now) → ⊥) }
        ensures search { IfOk result (λ turn. turn ≡ Turn.Going
            → IsSearch H.Host (said_by claims.now) self.new) }
        ensures falls { IfOk result (λ turn. turn ≡ Turn.Going
            → StepsFall (said_by claims.now) self.old self.new) }
    {
        if self.next >= self.waiting.len() {
            return self.fail(claims);
        }
        if self.next == 0 && self.is_failed(claims)? {
            return self.go_back(claims);
        }
        if self.place_reads(claims, pairs, reads)? {
            return Ok(Turn::Going);
        }
        self.try_next(claims, pairs)?;
        Ok(Turn::Going)
    }

    /// One step of the search.
    pub(crate) fn turn(
        &mut self,
        claims: &[&Claim],
        pairs: &Pairs,
        reads: &[bool],
    ) -> Result<Turn, NoMemory>
        requires input { IsInput claims.now pairs.now }
        requires reads { AreReads H.meaning (said_by claims.now) (length claims.now) reads.now }
        requires search { IsSearch H.Host (said_by claims.now) self.old }
        ensures found { IfOk result (λ turn. turn ≡ Turn.Found → self.new ≡ self.old) }
        ensures passed { IfOk result (λ turn. turn ≡ Turn.Found
            → self.old.line ≡ length claims.now) }
        ensures within { IfOk result (λ turn. (turn ≡ Turn.Found → ⊥)
            → self.old.line < length claims.now) }
        ensures none { IfOk result (λ turn. turn ≡ Turn.Nothing
            → HasOrder H.meaning (said_by claims.now) → ⊥) }
        ensures accepts { IfOk result (λ turn. turn ≡ Turn.Nothing
            → AcceptsAt (said_by claims.now) self.old.line) }
        ensures search { IfOk result (λ turn. turn ≡ Turn.Going
            → IsSearch H.Host (said_by claims.now) self.new) }
        ensures falls { IfOk result (λ turn. turn ≡ Turn.Going
            → StepsFall (said_by claims.now) self.old self.new) }
        ensures moves { IfOk result (λ turn. turn ≡ Turn.Going
            → (self.new.line ≡ self.old.line + 1)
            ⊎ AcceptsAt (said_by claims.now) self.old.line) }
    {
        if self.line >= claims.len() {
            return Ok(Turn::Found);
        }
        if self.pass(claims, pairs)? {
            return Ok(Turn::Going);
        }
        self.turn_here(claims, pairs, reads)
    }
}
