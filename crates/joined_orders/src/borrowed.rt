ghost use Rattle.std.specs.Prelude.{◌≡◌, ◌<◌, Some, length, slice_get, IfOk, All};
ghost use Rattle.joined_orders.specs.Owning.{members_at};
ghost use Rattle.pairs.specs.Said.{said_by};
ghost use Rattle.transcript_reader.specs.Claims.{line_of, lines_of};

use nop_types::NoMemory;
use std::alloc::Global;
use transcript_reader::Claim;

/// All claims, borrowed.
pub(crate) fn borrow_all<'a>(alloc: Global, claims: &'a [Claim]) -> Result<Vec<&'a Claim>, NoMemory>
    ensures { IfOk result (λ v. said_by v.items ≡ lines_of claims.now) }
{
    let mut all = Vec::with_capacity(alloc, claims.len())?;
    for claim in claims {
        all.push(claim)?;
    }
    Ok(all)
}

/// The claim at this place.
pub(crate) fn claim_at<'a>(claims: &[&'a Claim], place: usize) -> &'a Claim
    requires { place < length claims.now }
    ensures { slice_get (said_by claims.now) place ≡ Some (line_of result.now) }
{
    claims[place]
}

/// The claims at these places.
pub(crate) fn claims_at<'a>(
    alloc: Global,
    claims: &[&'a Claim],
    places: &[usize],
) -> Result<Vec<&'a Claim>, NoMemory>
    requires { All (λ place. place < length claims.now) places.now }
    ensures { IfOk result (λ v. said_by v.items ≡ members_at (said_by claims.now) places.now) }
{
    let mut chosen = Vec::with_capacity(alloc, places.len())?;
    for place in places {
        chosen.push(claim_at(claims, *place))?;
    }
    Ok(chosen)
}
