ghost use Rattle.std.specs.Prelude.{◌≡◌, ◌<◌, Some, length, slice_get};
ghost use Rattle.transcript_reader.specs.Claims.{line_of, lines_of};

use pairs::Pairs;
use transcript_reader::Claim;

/// The claim at this place.
pub(crate) fn claim_at(claims: &[Claim], place: usize) -> &Claim
    requires { place < length claims.now }
    ensures { slice_get (lines_of claims.now) place ≡ Some (line_of result.now) }
{
    &claims[place]
}

/// The place of the claim that accepts what the one at this place submits, if it is known.
pub(crate) fn accept_at(pairs: &Pairs, place: usize) -> Option<usize>
    requires { place < length pairs.now.accepts.items }
    ensures { slice_get pairs.now.accepts.items place ≡ Some result }
{
    pairs.accepts[place]
}

/// Whether the claim at this place has a mark.
pub(crate) fn mark_at(marks: &[bool], place: usize) -> bool
    requires { place < length marks.now }
    ensures { slice_get marks.now place ≡ Some result }
{
    marks[place]
}
