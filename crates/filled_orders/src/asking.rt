//! What is asked in place of claims whose results are not all known.

ghost use Rattle.std.specs.Prelude.{◌≡◌, ◌<◌, ◌∷◌, Some, cond, [], length, map, slice_get, IfOk};
ghost use Rattle.filled_orders.specs.Filling.{IsAcceptOf};
ghost use Rattle.nop_types.specs.Legality.{AcceptedOnce};
ghost use Rattle.nop_types.specs.Lines.{Line};
ghost use Rattle.pairs.specs.Pairing.{ArePaired};
ghost use Rattle.transcript_reader.specs.Claims.{line_of, lines_of};
ghost use Rattle.unknown_results.specs.Asking.{asked_by, asked_line, byte_of, is_unknown};
ghost use Rattle.unknown_results.specs.Asking.{unknown_in, with_byte};

use crate::claims::{accept_at, claim_at, mark_at};
use nop_types::{Bytes, MAX_OP_BYTES, NoMemory, Op, Request};
use pairs::Pairs;
use std::alloc::Global;
use transcript_reader::Claim;
use unknown_results::ANY;

/// The op with a byte in front. An op of `MAX_OP_BYTES` has no room for it.
fn asked_op(alloc: Global, op: &Op, any: bool) -> Result<Op, NoMemory>
    ensures { IfOk result (λ o. o ≡ byte_of any ∷ op.now) }
{
    let op = op.as_slice();
    if op.len() >= MAX_OP_BYTES {
        return Err(NoMemory);
    }
    let mut asked = Vec::with_capacity(alloc, op.len() + 1)?;
    asked.push(if any { ANY } else { 0 })?;
    asked.extend_from_slice(op)?;
    Ok(Op::from_vec(asked))
}

fn asked_request(alloc: Global, request: &Request, any: bool) -> Result<Request, NoMemory>
    ensures { IfOk result (λ r. r ≡ with_byte any request.now) }
{
    Ok(Request {
        client: request.client,
        id: request.id,
        op: asked_op(alloc, &request.op, any)?,
    })
}

/// The result, or no byte where any is taken.
fn asked_result(alloc: Global, noted: &Bytes, any: bool) -> Result<Bytes, NoMemory>
    ensures { IfOk result (λ b. b ≡ cond any [] noted.now) }
{
    if any {
        return Bytes::new(alloc, &[]);
    }
    noted.try_clone()
}

fn asked_claim(alloc: Global, claim: &Claim, any: bool) -> Result<Claim, NoMemory>
    ensures { IfOk result (λ c. line_of c ≡ asked_by any (line_of claim.now)) }
{
    match claim {
        Claim::Submitted(request) => Ok(Claim::Submitted(asked_request(alloc, request, any)?)),
        Claim::Accepted { client, id, result } => Ok(Claim::Accepted {
            client: *client,
            id: *id,
            result: asked_result(alloc, result, any)?,
        }),
    }
}

/// The place where the claim's request is accepted, if it is.
fn accept_of(claims: &[Claim], pairs: &Pairs, place: usize) -> Option<usize>
    requires within { place < length claims.now }
    requires paired { ArePaired (lines_of claims.now) (length claims.now)
        pairs.now.accepts.items pairs.now.submits.items }
    ensures { IsAcceptOf (lines_of claims.now) pairs.now.accepts.items place result }
{
    match claim_at(claims, place) {
        Claim::Submitted(_request) => accept_at(pairs, place),
        Claim::Accepted { .. } => Some(place),
    }
}

/// Whether the result of what the claim submits or accepts is unknown.
fn is_unknown(claims: &[Claim], pairs: &Pairs, marks: &[bool], place: usize) -> bool
    requires within { place < length claims.now }
    requires whole { length marks.now ≡ length claims.now }
    requires once { AcceptedOnce (lines_of claims.now) }
    requires paired { ArePaired (lines_of claims.now) (length claims.now)
        pairs.now.accepts.items pairs.now.submits.items }
    ensures { (line : Line) → slice_get (lines_of claims.now) place ≡ Some line → result
        ≡ is_unknown (unknown_in marks.now (lines_of claims.now)) line }
{
    match accept_of(claims, pairs, place) {
        Some(accept) => mark_at(marks, accept),
        None => false,
    }
}

/// What is asked in place of claims, some of which have marks: those that accept a result which is unknown.
pub(crate) fn asked_claims(
    alloc: Global,
    claims: &[Claim],
    pairs: &Pairs,
    marks: &[bool],
) -> Result<Vec<Claim>, NoMemory>
    requires whole { length marks.now ≡ length claims.now }
    requires once { AcceptedOnce (lines_of claims.now) }
    requires paired { ArePaired (lines_of claims.now) (length claims.now)
        pairs.now.accepts.items pairs.now.submits.items }
    ensures { IfOk result (λ v. lines_of v.items
        ≡ map (asked_line (unknown_in marks.now (lines_of claims.now))) (lines_of claims.now)) }
{
    let mut asked = Vec::with_capacity(alloc, claims.len())?;
    for place in 0..claims.len() {
        let any = is_unknown(claims, pairs, marks, place);
        asked.push(asked_claim(alloc, claim_at(claims, place), any)?)?;
    }
    Ok(asked)
}
