//! Whether an answer agrees with what claims accept.

ghost use Rattle.std.specs.Prelude.{◌≡◌, Some, length, slice_get, MatchBool};
ghost use Rattle.nop_types.specs.Legality.{AcceptedOnce};
ghost use Rattle.nop_types.specs.Lines.{Submit};
ghost use Rattle.order_search.specs.Agreeing.{Accepts, AllAccept, Differs};
ghost use Rattle.pairs.specs.Pairing.{ArePaired};
ghost use Rattle.pairs.specs.Said.{said_by};
ghost use Rattle.transcript_reader.specs.Claims.{line_of};

use crate::claims::claim_at;
use nop_types::Request;
use pairs::Pairs;
use transcript_reader::Claim;

/// Whether a claim that accepts accepts this answer.
fn accepts(claim: &Claim, answer: &[u8]) -> bool
    ensures { MatchBool result (Accepts answer.now (line_of claim.now)) (Differs answer.now
        (line_of claim.now)) }
{
    match claim {
        Claim::Submitted(_) => true,
        Claim::Accepted { result, .. } => result.as_slice() == answer,
    }
}

/// Whether each claim that accepts the request, wherever it stands, accepts the answer.
pub(crate) fn agrees(
    claims: &[&Claim],
    pairs: &Pairs,
    submit: usize,
    request: &Request,
    answer: &[u8],
) -> bool
    requires paired { ArePaired (said_by claims.now)
        (length claims.now) pairs.now.accepts.items pairs.now.submits.items }
    requires once { AcceptedOnce (said_by claims.now) }
    requires line { slice_get (said_by claims.now) submit ≡ Some (Submit request.now) }
    ensures { MatchBool result (AllAccept
        (said_by claims.now) request.now.client request.now.id answer.now)
        (AllAccept (said_by claims.now) request.now.client request.now.id answer.now → ⊥) }
{
    match pairs.accepts[submit] {
        Some(accept) => accepts(claim_at(claims, accept), answer),
        None => true,
    }
}
