ghost use Rattle.std.specs.Prelude.{◌≡◌, ℕ, length, OnOk, IfErr};
ghost use Rattle.judge.specs.Breaks.{AreApart, IsInOrder};
ghost use Rattle.transcript_reader.specs.Claims.{line_of, lines_of};
ghost use Rattle.judge.specs.Deciding.{OnlyOvertaking};
ghost use Rattle.judge.specs.Places.{IsIndex, IsMemberAt, place_in};
ghost use Rattle.judge.specs.Reached.{later, is_within, reached_by, overtakes};

use crate::broken::Broken;
use crate::places::Places;
use nop_types::Request;
use transcript_reader::Claim;

fn later(last: Option<usize>, place: Option<usize>) -> Option<usize>
    ensures { result ≡ later last place }
{
    match (last, place) {
        (Some(last), Some(place)) => Some(last.max(place)),
        (Some(last), None) => Some(last),
        (None, place) => place,
    }
}

fn is_within(place: Option<usize>, last: Option<usize>) -> bool
    ensures { result ≡ is_within place last }
{
    match (place, last) {
        (Some(place), Some(last)) => place <= last,
        _ => false,
    }
}

/// The last member that is accepted, with one more claim.
fn reached_by(places: &Places, last: Option<usize>, claim: &Claim) -> Option<usize>
    ensures { result ≡ reached_by (place_in places.now) last (line_of claim.now) }
{
    match claim {
        Claim::Submitted(_) => last,
        Claim::Accepted { client, id, .. } => later(last, places.find(*client, *id)),
    }
}

/// Whether a claim submits a member that does not stand behind the last one that is accepted.
fn overtakes(places: &Places, last: Option<usize>, claim: &Claim) -> bool
    ensures { result ≡ overtakes (place_in places.now) last (line_of claim.now) }
{
    match claim {
        Claim::Submitted(request) => is_within(places.find(request.client, request.id), last),
        Claim::Accepted { .. } => false,
    }
}

/// What is submitted behind an acceptance stands behind it in the history.
pub(crate) fn check_order(
    claims: &[Claim],
    history: &[Request],
    places: &Places,
) -> Result<(), Broken>
    requires index { IsIndex (place_in places.now) (IsMemberAt history.now (length history.now)) }
    requires apart { AreApart history.now }
    ensures ok { OnOk result ((l : ℕ) → IsInOrder (lines_of claims.now) history.now l) }
    ensures err { IfErr result (OnlyOvertaking (lines_of claims.now) history.now) }
{
    let mut last = None;
    for k in 0..claims.len() {
        let claim = &claims[k];
        if overtakes(places, last, claim) {
            return Err(Broken::Overtaking(k));
        }
        last = reached_by(places, last, claim);
    }
    Ok(())
}
