//! A transcript, read from a source and judged.

ghost use Rattle.std.specs.Prelude.{◌≡◌, ◌+◌, ◌<◌, Some, count_by, length, slice_get};
ghost use Rattle.outside.specs.Causes.{CountsFor};
ghost use Rattle.transcript_reader.specs.Claims.{line_of, lines_of};
ghost use Rattle.transcript_reader.specs.Steps.{so_far};
ghost use Rattle.judge.specs.Checking.{submits, accepts, IsChecked, IsJudged, IsNumbered, IsTallyOf};
ghost use Rattle.judge.specs.Checking.{IsWithin, PassesLegal, Reports};

use crate::broken::Broken;
use crate::deciding::decide;
use crate::tally::Tally;
use nop_types::Host;
use outside::Source;
use std::alloc::Global;
use transcript_reader::{CheckError, Claim, Taken, read_transcript};

fn submits(claim: &Claim) -> bool
    ensures { result ≡ submits (line_of claim.now) }
{
    matches!(claim, Claim::Submitted(_))
}

fn accepts(claim: &Claim) -> bool
    ensures { result ≡ accepts (line_of claim.now) }
{
    matches!(claim, Claim::Accepted { .. })
}

fn submit_count(claims: &[Claim]) -> usize
    ensures { result ≡ count_by submits (lines_of claims.now) }
{
    claims.iter().filter(|claim| submits(claim)).count()
}

fn accept_count(claims: &[Claim]) -> usize
    ensures { result ≡ count_by accepts (lines_of claims.now) }
{
    claims.iter().filter(|claim| accepts(claim)).count()
}

fn tally_of(taken: &Taken, lines: u32) -> Tally
    requires { IsNumbered (so_far taken.now) lines }
    ensures { IsTallyOf (lines_of taken.now.claims.items) taken.now.history.items result }
{
    Tally {
        submits: submit_count(&taken.claims) as u32,
        accepts: accept_count(&taken.claims) as u32,
        history: taken.history.len() as u32,
    }
}

/// The number of the line of a member: the history stands before the last line.
fn member_line(members: usize, lines: u32, place: usize) -> u32
    requires place { place < members }
    requires room { members < lines }
    ensures { result + members ≡ lines + place }
{
    (lines as usize - members + place) as u32
}

fn claim_line(places: &[u32], place: usize) -> u32
    requires { place < length places.now }
    ensures { slice_get places.now place ≡ Some result }
{
    places[place]
}

/// The line and the clause of what is broken.
fn refutation(broken: Broken, taken: &Taken, lines: u32) -> CheckError
    requires numbered { IsNumbered (so_far taken.now) lines }
    requires within { IsWithin (so_far taken.now) broken }
    ensures { Reports (so_far taken.now) lines broken result }
{
    let members = taken.history.len();
    let (line, clause) = match broken {
        Broken::Repeated(place) => (member_line(members, lines, place), 3),
        Broken::Unsubmitted(place) => (member_line(members, lines, place), 4),
        Broken::Unfounded(place) => (claim_line(&taken.places, place), 5),
        Broken::Overtaking(place) => (claim_line(&taken.places, place), 6),
        Broken::NoMemory => return CheckError::NoMemory,
    };
    CheckError::Refuted { line, clause }
}

/// Judges what was read of a transcript of so many lines.
fn judge<H: Host>(alloc: Global, taken: &Taken, lines: u32) -> Result<Tally, CheckError>
    requires { IsNumbered (so_far taken.now) lines }
    ensures { IsJudged H.meaning (so_far taken.now) lines result }
{
    match decide::<H>(alloc, &taken.claims, &taken.history) {
        Ok(()) => Ok(tally_of(taken, lines)),
        Err(broken) => Err(refutation(broken, taken, lines)),
    }
}

/// Reads a whole transcript and judges its history by the host. Refuted names a line, counted from
/// 1, and the clause that it breaks: 1 or 2 as `read_transcript` says; else 3 to 6, the first rule
/// of `Broken` that is broken, at the first line that breaks it.
pub fn check<H: Host, S: Source>(alloc: Global, source: &mut S) -> Result<Tally, CheckError>
    ensures checked { IsChecked H.meaning (S.left source.old) (S.left source.new) result }
    ensures passes { PassesLegal H.meaning (S.left source.old) result }
    ensures count { CountsFor (S.fault_count source.old) (S.fault_count source.new)
        CheckError.ReadFault result }
{
    let (taken, lines) = read_transcript(alloc, source)?;
    judge::<H>(alloc, &taken, lines)
}
