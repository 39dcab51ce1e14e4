//! The answers of an order, filled into the claims whose results are unknown.

ghost use Rattle.std.specs.Prelude.{◌≡◌, ◌<◌, ℕ, List, Some, length, slice_get, slice_set, IfOk, OnOk};
ghost use Rattle.filled_orders.specs.Filling.{filled_along, marked_of, set_result};
ghost use Rattle.nop_types.specs.Legality.{AcceptedOnce};
ghost use Rattle.nop_types.specs.Lines.{Submit, Accept};
ghost use Rattle.nop_types.specs.declared.request.Request.{Request};
ghost use Rattle.order_search.specs.Turns.{AllSubmit, history_at};
ghost use Rattle.pairs.specs.Pairing.{ArePaired};
ghost use Rattle.transcript_reader.specs.Claims.{lines_of};
ghost use Rattle.unknown_results.specs.Asking.{unknown_in};

use crate::claims::{accept_at, claim_at, mark_at};
use nop_types::{Bytes, Host, NoMemory, Request};
use pairs::Pairs;
use std::alloc::Global;
use transcript_reader::Claim;

/// The request that the claim at this place submits.
fn request_at(claims: &[Claim], place: usize) -> &Request
    requires { (r : Request) × (slice_get (lines_of claims.now) place ≡ Some (Submit r)) }
    ensures { slice_get (lines_of claims.now) place ≡ Some (Submit result.now) }
{
    let Claim::Submitted(request) = claim_at(claims, place) else {
        unreachable!()
    };
    request
}

/// The answer to what the claim at this place submits.
fn answer_to<H: Host>(host: &mut H, claims: &[Claim], place: usize) -> Result<Bytes, NoMemory>
    requires { (r : Request) × (slice_get (lines_of claims.now) place ≡ Some (Submit r)) }
    ensures answer { IfOk result (λ a. (r : Request) → slice_get (lines_of claims.now) place
        ≡ Some (Submit r) → a ≡ H.meaning.answer (H.state host.old) r.op) }
    ensures after { OnOk result ((r : Request) → slice_get (lines_of claims.now) place
        ≡ Some (Submit r) → H.state host.new ≡ H.meaning.after (H.state host.old) r.op) }
{
    let (answer, _undo) = host.apply(request_at(claims, place).op.as_slice())?;
    Ok(answer)
}

/// The place of the claim with a mark that accepts what the one at `submit` submits, if there is one.
fn marked_accept(pairs: &Pairs, marks: &[bool], submit: usize) -> Option<usize>
    requires within { submit < length pairs.now.accepts.items }
    requires marks { (k : ℕ) → slice_get pairs.now.accepts.items submit ≡ Some (Some k)
        → k < length marks.now }
    ensures { result ≡ marked_of marks.now (slice_get pairs.now.accepts.items submit) }
{
    let accept = accept_at(pairs, submit)?;
    if mark_at(marks, accept) {
        Some(accept)
    } else {
        None
    }
}

fn put(claims: &mut Vec<Claim>, place: usize, claim: Claim)
    requires { place < length claims.old.items }
    ensures { claims.new.items ≡ slice_set claims.old.items place claim }
{
    claims[place] = claim;
}

/// Replaces the result of the claim at this place, which accepts.
fn set_result(claims: &mut Vec<Claim>, place: usize, answer: Bytes)
    requires { (client id : ℕ) × (result : List ℕ)
        × (slice_get (lines_of claims.old.items) place ≡ Some (Accept client id result)) }
    ensures { lines_of claims.new.items ≡ set_result (lines_of claims.old.items) (Some place)
        answer }
{
    let Claim::Accepted { client, id, .. } = claim_at(claims, place) else {
        unreachable!()
    };
    let filled = Claim::Accepted {
        client: *client,
        id: *id,
        result: answer,
    };
    put(claims, place, filled);
}

/// Fills the answer into the claim at this place, if there is one.
fn fill_one(claims: &mut Vec<Claim>, place: Option<usize>, answer: Bytes)
    requires { (k : ℕ) → place ≡ Some k → (client id : ℕ) × (result : List ℕ)
        × (slice_get (lines_of claims.old.items) k ≡ Some (Accept client id result)) }
    ensures { lines_of claims.new.items ≡ set_result (lines_of claims.old.items) place answer }
{
    if let Some(place) = place {
        set_result(claims, place, answer);
    }
}

/// Fills the answers of the order of the claims at these places into those that accept with a mark.
pub(crate) fn fill_answers<H: Host>(
    alloc: Global,
    claims: &mut Vec<Claim>,
    pairs: &Pairs,
    marks: &[bool],
    places: &[usize],
) -> Result<(), NoMemory>
    requires whole { length marks.now ≡ length claims.old.items }
    requires once { AcceptedOnce (lines_of claims.old.items) }
    requires paired { ArePaired (lines_of claims.old.items) (length claims.old.items)
        pairs.now.accepts.items pairs.now.submits.items }
    requires submit { AllSubmit (lines_of claims.old.items) places.now }
    ensures { OnOk result (lines_of claims.new.items ≡ filled_along H.meaning
        (unknown_in marks.now (lines_of claims.old.items)) H.meaning.opening
        (history_at (lines_of claims.old.items) places.now) (lines_of claims.old.items)) }
{
    let mut host = H::fresh(alloc)?;
    for place in places {
        let answer = answer_to(&mut host, claims, *place)?;
        let accept = marked_accept(pairs, marks, *place);
        fill_one(claims, accept, answer);
    }
    Ok(())
}
