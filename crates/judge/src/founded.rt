ghost use Rattle.std.specs.Prelude.{◌≡◌, ◌+◌, ℕ, List, Some, length, slice_get, IfOk, OnOk, IfErr, MatchBool};
ghost use Rattle.std.specs.Option.{option_copied};
ghost use Rattle.judge.specs.Answers.{all_answers};
ghost use Rattle.nop_types.specs.Lines.{Line};
ghost use Rattle.judge.specs.Breaks.{AreApart, AreFounded};
ghost use Rattle.transcript_reader.specs.Claims.{line_of, lines_of};
ghost use Rattle.judge.specs.Deciding.{OnlyUnfounded};
ghost use Rattle.judge.specs.Grounds.{answer_in, Sees, HasGround, HasNoGround};
ghost use Rattle.judge.specs.Places.{IsIndex, IsMemberAt, place_in};

use crate::broken::Broken;
use crate::places::Places;
use nop_types::{Bytes, Host, NoMemory, Request};
use std::alloc::Global;
use transcript_reader::Claim;

/// Whether there is an answer, and it is this one.
fn is_same(kept: Option<&Bytes>, answer: &[u8]) -> bool
    ensures { MatchBool result (option_copied kept.entry ≡ Some answer.now)
        (option_copied kept.entry ≡ Some answer.now → ⊥) }
{
    match kept {
        Some(kept) => kept.as_slice() == answer,
        None => false,
    }
}

fn answer_at_place(answers: &[Bytes], i: usize) -> Option<&Bytes>
    ensures { option_copied result ≡ slice_get answers.now i }
{
    answers.get(i)
}

/// Whether the history answers a client and id so.
fn is_answer(places: &Places, answers: &[Bytes], client: u32, id: u64, answer: &[u8]) -> bool
    ensures { MatchBool result
        (answer_in (place_in places.now) answers.now (client, id) ≡ Some answer.now)
        (answer_in (place_in places.now) answers.now (client, id) ≡ Some answer.now → ⊥) }
{
    match places.find(client, id) {
        Some(i) => is_same(answer_at_place(answers, i), answer),
        None => false,
    }
}

/// Whether a claim that accepts has what it needs.
fn is_founded(
    claim: &Claim,
    submitted: &Places,
    accepted: &Places,
    places: &Places,
    answers: &[Bytes],
) -> bool
    ensures { MatchBool result
        (HasGround (place_in submitted.now) (place_in accepted.now)
        (answer_in (place_in places.now) answers.now) (line_of claim.now))
        (HasNoGround (place_in submitted.now) (place_in accepted.now)
        (answer_in (place_in places.now) answers.now) (line_of claim.now)) }
{
    match claim {
        Claim::Submitted(_) => true,
        Claim::Accepted { client, id, result } => {
            submitted.find(*client, *id).is_some()
                && accepted.find(*client, *id).is_none()
                && is_answer(places, answers, *client, *id, result.as_slice())
        }
    }
}

/// One more claim is seen.
fn see(
    claim: &Claim,
    place: usize,
    submitted: &mut Places,
    accepted: &mut Places,
) -> Result<(), NoMemory>
    ensures { OnOk result ((lines : List Line) → slice_get lines place ≡ Some (line_of claim.now)
        → Sees lines place (place_in submitted.old) (place_in accepted.old)
        → Sees lines (place + 1) (place_in submitted.new) (place_in accepted.new)) }
{
    match claim {
        Claim::Submitted(request) => submitted.note(request.client, request.id, place),
        Claim::Accepted { client, id, .. } => accepted.note(*client, *id, place),
    }
}

/// Each claim that accepts stands behind a claim that submits, is the first of its kind, and is answered so in the history.
pub(crate) fn check_grounds<H: Host>(
    alloc: Global,
    claims: &[Claim],
    history: &[Request],
    places: &Places,
    answers: &[Bytes],
) -> Result<(), Broken>
    requires index { IsIndex (place_in places.now) (IsMemberAt history.now (length history.now)) }
    requires apart { AreApart history.now }
    requires answers { answers.now ≡ all_answers H.meaning H.meaning.opening history.now }
    ensures ok { OnOk result ((k : ℕ) →
        AreFounded H.meaning (lines_of claims.now) history.now k) }
    ensures err { IfErr result (OnlyUnfounded H.meaning (lines_of claims.now) history.now) }
{
    let mut submitted = Places::new(alloc);
    let mut accepted = Places::new(alloc);
    for k in 0..claims.len() {
        let claim = &claims[k];
        if !is_founded(claim, &submitted, &accepted, places, answers) {
            return Err(Broken::Unfounded(k));
        }
        see(claim, k, &mut submitted, &mut accepted)?;
    }
    Ok(())
}
