//! The claims of a search by their places.

ghost use Rattle.std.specs.Prelude.{◌≡◌, ◌<◌, Some, length, slice_get};
ghost use Rattle.pairs.specs.Said.{said_by};
ghost use Rattle.transcript_reader.specs.Claims.{line_of};

use transcript_reader::Claim;

/// The claim at this place.
pub(crate) fn claim_at<'a>(claims: &[&'a Claim], place: usize) -> &'a Claim
    requires { place < length claims.now }
    ensures { slice_get (said_by claims.now) place ≡ Some (line_of result.now) }
{
    claims[place]
}
