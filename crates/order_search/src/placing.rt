//! How a search places a request that waits: what it answers has to agree with what claims accept.

ghost use Rattle.std.specs.Prelude.{◌≡◌, ◌+◌, ◌++◌, ◌∷◌, ◌<◌, ◌≤◌, [], ℕ, List, Some, length, remove, slice_get, slice_set, true, false, IfOk, OnOk, MatchBool};
ghost use Rattle.nop_types.specs.Lines.{Accept};
ghost use Rattle.order_search.specs.Reads.{AreReads};
ghost use Rattle.order_search.specs.States.{IsInput, IsPassedHere, IsSearch, IsStuckHere, Places, PlacesNone, RefusesAt, SettlesAt, StepsFall};
ghost use Rattle.pairs.specs.Said.{said_by};

use crate::agreeing::agrees;
use crate::claims::claim_at;
use crate::search::Search;
use crate::step::Step;
use nop_types::{Host, NoMemory};
use pairs::Pairs;
use transcript_reader::Claim;

/// Notes whether the request of a claim is placed.
pub(crate) fn mark(placed: &mut Vec<bool>, claim: usize, is_placed: bool)
    requires { claim < length placed.old.items }
    ensures { placed.new.items ≡ slice_set placed.old.items claim is_placed }
{
    placed[claim] = is_placed;
}

/// How many wait up to this place, with the one there. It is one that waits, so the sum fits.
fn counted_to(waiting: &Vec<usize>, at: usize) -> usize
    requires { at < length waiting.now.items }
    ensures { result ≡ at + 1 }
{
    at + 1
}

impl<H: Host> Search<H> {
    /// Whether what the claim here accepts is placed.
    pub(crate) fn is_placed(&self, claims: &[&Claim], pairs: &Pairs, client: u32, id: u64) -> bool
        requires line { (result : List ℕ)
            × (slice_get (said_by claims.now) self.now.line ≡ Some (Accept client id result)) }
        requires input { IsInput claims.now pairs.now }
        requires search { IsSearch H.Host (said_by claims.now) self.now }
        ensures { MatchBool result (IsPassedHere (said_by claims.now) self.now)
            (IsStuckHere (said_by claims.now) self.now) }
    {
        let Some(submit) = pairs.submits[self.line] else {
            unreachable!()
        };
        self.placed[submit]
    }

    /// Whether the claim here accepts what is not placed.
    fn is_stuck(&self, claims: &[&Claim], pairs: &Pairs) -> bool
        requires within { self.now.line < length claims.now }
        requires input { IsInput claims.now pairs.now }
        requires search { IsSearch H.Host (said_by claims.now) self.now }
        ensures { result ≡ true → IsStuckHere (said_by claims.now) self.now }
    {
        match claim_at(claims, self.line) {
            Claim::Submitted(_) => false,
            Claim::Accepted { client, id, .. } => !self.is_placed(claims, pairs, *client, *id),
        }
    }

    /// Places the request of the claim at `submit`, which waits at `at`; the op is applied.
    fn place(
        &mut self,
        at: usize,
        submit: usize,
        tried: usize,
        undo: H::Undo,
    ) -> Result<(), NoMemory>
        requires waits { at < length self.old.waiting.items }
        requires marked { submit < length self.old.placed.items }
        ensures host { self.new.host ≡ self.old.host }
        ensures line { self.new.line ≡ self.old.line }
        ensures failed { self.new.failed ≡ self.old.failed }
        ensures next { OnOk result (self.new.next ≡ 0) }
        ensures waiting { OnOk result (self.new.waiting.items ≡ remove self.old.waiting.items at) }
        ensures placed { OnOk result (self.new.placed.items
            ≡ slice_set self.old.placed.items submit true) }
        ensures steps { OnOk result (self.new.steps.items ≡ self.old.steps.items ++ record {
          submit = submit;
          line = self.old.line;
          at = at;
          others = length (remove self.old.waiting.items at);
          tried = tried;
          undo = undo;
        } ∷ []) }
    {
        let line = self.line;
        self.waiting.remove(at);
        mark(&mut self.placed, submit, true);
        self.next = 0;
        let others = self.waiting.len();
        self.steps.push(Step {
            submit,
            line,
            at,
            others,
            tried,
            undo,
        })?;
        Ok(())
    }

    /// Applies the op of the request that waits at `at`, and places it where its answer agrees with
    /// what claims accept; else the op is undone. Where it leads to no legal history, none of the
    /// first `tried` that wait does.
    fn try_at(
        &mut self,
        claims: &[&Claim],
        pairs: &Pairs,
        at: usize,
        tried: usize,
    ) -> Result<bool, NoMemory>
        requires within { self.old.line < length claims.now }
        requires input { IsInput claims.now pairs.now }
        requires search { IsSearch H.Host (said_by claims.now) self.old }
        requires stuck { IsStuckHere (said_by claims.now) self.old }
        requires waits { at < length self.old.waiting.items }
        requires settles { SettlesAt H.Host (said_by claims.now) self.old at tried }
        requires next { self.old.next ≤ at }
        requires further { self.old.next < tried }
        ensures search { OnOk result (IsSearch H.Host (said_by claims.now) self.new) }
        ensures line { self.new.line ≡ self.old.line }
        ensures places { IfOk result (λ placed. placed ≡ true
            → Places (said_by claims.now) self.old self.new) }
        ensures none { IfOk result (λ placed. placed ≡ false → PlacesNone self.old self.new) }
        ensures refused { IfOk result (λ placed. placed ≡ false
            → RefusesAt H.Host (said_by claims.now) self.new at) }
    {
        let submit = self.waiting[at];
        let Claim::Submitted(request) = claim_at(claims, submit) else {
            unreachable!()
        };
        let (answer, undo) = self.host.apply(request.op.as_slice())?;
        if agrees(claims, pairs, submit, request, answer.as_slice()) {
            self.place(at, submit, tried, undo)?;
            return Ok(true);
        }
        self.host.undo(undo);
        Ok(false)
    }

    /// Tries the next one that waits: places its request, where its answer agrees with what claims
    /// accept.
    pub(crate) fn try_next(&mut self, claims: &[&Claim], pairs: &Pairs) -> Result<(), NoMemory>
        requires within { self.old.line < length claims.now }
        requires input { IsInput claims.now pairs.now }
        requires search { IsSearch H.Host (said_by claims.now) self.old }
        requires stuck { IsStuckHere (said_by claims.now) self.old }
        requires next { self.old.next < length self.old.waiting.items }
        ensures search { OnOk result (IsSearch H.Host (said_by claims.now) self.new) }
        ensures falls { OnOk result (StepsFall (said_by claims.now) self.old self.new) }
    {
        let at = self.next;
        let with_it = counted_to(&self.waiting, at);
        if !self.try_at(claims, pairs, at, with_it)? {
            self.next = with_it;
        }
        Ok(())
    }

    /// Places the request that waits at `at`, where it is a read, its answer agrees, and the claim
    /// here accepts what is not placed yet. Where the front goes on, it goes on with it: so where
    /// it leads to no legal history, none that waits does.
    fn place_read(
        &mut self,
        claims: &[&Claim],
        pairs: &Pairs,
        reads: &[bool],
        at: usize,
    ) -> Result<bool, NoMemory>
        requires within { self.old.line < length claims.now }
        requires input { IsInput claims.now pairs.now }
        requires reads { AreReads H.meaning (said_by claims.now) (length claims.now) reads.now }
        requires search { IsSearch H.Host (said_by claims.now) self.old }
        requires waits { at < length self.old.waiting.items }
        requires first { self.old.next ≡ 0 }
        ensures search { OnOk result (IsSearch H.Host (said_by claims.now) self.new) }
        ensures line { self.new.line ≡ self.old.line }
        ensures places { IfOk result (λ placed. placed ≡ true
            → Places (said_by claims.now) self.old self.new) }
        ensures none { IfOk result (λ placed. placed ≡ false → PlacesNone self.old self.new) }
    {
        let submit = self.waiting[at];
        if !reads[submit] {
            return Ok(false);
        }
        if !self.is_stuck(claims, pairs) {
            return Ok(false);
        }
        let all = self.waiting.len();
        self.try_at(claims, pairs, at, all)
    }

    /// Places each read that waits and whose answer agrees, where none was tried here yet; whether
    /// there was one. They leave the state as it is, so each is looked at once.
    pub(crate) fn place_reads(
        &mut self,
        claims: &[&Claim],
        pairs: &Pairs,
        reads: &[bool],
    ) -> Result<bool, NoMemory>
        requires within { self.old.line < length claims.now }
        requires input { IsInput claims.now pairs.now }
        requires reads { AreReads H.meaning (said_by claims.now) (length claims.now) reads.now }
        requires search { IsSearch H.Host (said_by claims.now) self.old }
        ensures search { OnOk result (IsSearch H.Host (said_by claims.now) self.new) }
        ensures line { self.new.line ≡ self.old.line }
        ensures falls { IfOk result (λ any. any ≡ true
            → StepsFall (said_by claims.now) self.old self.new) }
        ensures none { IfOk result (λ any. any ≡ false
            → length self.new.waiting.items ≡ length self.old.waiting.items) }
        ensures next { IfOk result (λ any. any ≡ false → self.new.next ≡ self.old.next) }
        ensures kept { IfOk result (λ any. any ≡ false
            → self.new.steps.items ≡ self.old.steps.items) }
    {
        if self.next > 0 {
            return Ok(false);
        }
        let before = self.waiting.len();
        let mut at = 0;
        while at < self.waiting.len() {
            if !self.place_read(claims, pairs, reads, at)? {
                at += 1;
            }
        }
        Ok(self.waiting.len() < before)
    }
}
