ghost use Rattle.std.specs.Prelude.{◌≡◌, ◌+◌, ℕ, List, Some, length, slice_get, IfOk, OnOk, IfErr, MatchBool, MatchOption};
ghost use Rattle.std.specs.Option.{option_copied};
ghost use Rattle.nop_types.specs.declared.request.Request.{Request};
ghost use Rattle.nop_types.specs.Lines.{Line};
ghost use Rattle.nop_types.specs.Lists.{Has};
ghost use Rattle.judge.specs.Breaks.{AreApart, AreSubmitted};
ghost use Rattle.transcript_reader.specs.Claims.{line_of, lines_of};
ghost use Rattle.judge.specs.Deciding.{OnlyUnsubmitted};
ghost use Rattle.judge.specs.Marks.{Marks};
ghost use Rattle.judge.specs.Places.{IsIndex, IsMemberAt, place_in};

use crate::broken::Broken;
use crate::places::Places;
use nop_types::{NoMemory, Request};
use std::alloc::Global;
use transcript_reader::Claim;

/// Whether there is a member, and it has this op.
fn has_op(member: Option<&Request>, op: &[u8]) -> bool
    ensures { MatchBool result
        ((q : Request) × (option_copied member.entry ≡ Some q) × (q.op ≡ op.now))
        ((q : Request) → option_copied member.entry ≡ Some q → q.op ≡ op.now → ⊥) }
{
    match member {
        Some(member) => member.op.as_slice() == op,
        None => false,
    }
}

fn member_at(history: &[Request], i: usize) -> Option<&Request>
    ensures { option_copied result ≡ slice_get history.now i }
{
    history.get(i)
}

/// Where in the history this request stands, if it does.
fn place_of(history: &[Request], places: &Places, request: &Request) -> Option<usize>
    requires index { IsIndex (place_in places.now) (IsMemberAt history.now (length history.now)) }
    requires apart { AreApart history.now }
    ensures { MatchOption result (Has history.now request.now → ⊥)
        (λ i. slice_get history.now i ≡ Some request.now) }
{
    let i = places.find(request.client, request.id)?;
    if has_op(member_at(history, i), request.op.as_slice()) {
        Some(i)
    } else {
        None
    }
}

/// Marks the member that a claim submits.
fn mark(claim: &Claim, history: &[Request], places: &Places, marks: &mut Vec<bool>)
    requires index { IsIndex (place_in places.now) (IsMemberAt history.now (length history.now)) }
    requires apart { AreApart history.now }
    requires count { length marks.old.items ≡ length history.now }
    ensures { (lines : List Line) (k : ℕ) → slice_get lines k ≡ Some (line_of claim.now)
        → Marks lines history.now k marks.old.items
        → Marks lines history.now (k + 1) marks.new.items }
{
    if let Claim::Submitted(request) = claim {
        if let Some(i) = place_of(history, places, request) {
            marks[i] = true;
        }
    }
}

/// Which members of the history are submitted by a claim.
fn marks_of(
    alloc: Global,
    claims: &[Claim],
    history: &[Request],
    places: &Places,
) -> Result<Vec<bool>, NoMemory>
    requires index { IsIndex (place_in places.now) (IsMemberAt history.now (length history.now)) }
    requires apart { AreApart history.now }
    ensures { IfOk result (λ marks. Marks (lines_of claims.now) history.now (length claims.now)
        marks.items) }
{
    let mut marks = Vec::new(alloc);
    marks.resize(history.len(), false)?;
    for claim in claims {
        mark(claim, history, places, &mut marks);
    }
    Ok(marks)
}

/// Each member of the history is submitted.
pub(crate) fn check_members(
    alloc: Global,
    claims: &[Claim],
    history: &[Request],
    places: &Places,
) -> Result<(), Broken>
    requires index { IsIndex (place_in places.now) (IsMemberAt history.now (length history.now)) }
    requires apart { AreApart history.now }
    ensures ok { OnOk result (AreSubmitted (lines_of claims.now) history.now) }
    ensures err { IfErr result (OnlyUnsubmitted (lines_of claims.now) history.now) }
{
    let marks = marks_of(alloc, claims, history, places)?;
    for i in 0..marks.len() {
        if !marks[i] {
            return Err(Broken::Unsubmitted(i));
        }
    }
    Ok(())
}
