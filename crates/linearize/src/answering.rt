//! What is found of a transcript.

ghost use Rattle.std.specs.Prelude.{◌≡◌, ◌<◌, ◌≤◌, ◌+◌, ⊤, Some, length, slice_get, IfErr, IfOk, MatchBool, OnOk};
ghost use Rattle.linearize.specs.Answers.{IsAnswered, IsRight};
ghost use Rattle.linearize.specs.Answering.{AllHaveBytes, HasBytes, IsInLines, IsInput, NamesOneOf};
ghost use Rattle.linearize.specs.Writing.{IsWritable};
ghost use Rattle.nop_types.specs.Services.{IsBytes};
ghost use Rattle.outside.specs.Causes.{CountsFor};
ghost use Rattle.transcript_reader.specs.Claims.{line_of, lines_of};
ghost use Rattle.transcript_reader.specs.declared.limits.TheConstants.{MAX_TRANSCRIPT_LINES};
ghost use Rattle.unknown_results.specs.Asking.{unknown_in};

use crate::answer::Answer;
use filled_orders::filled_order_of;
use fronts::Parted;
use joined_orders::Linearized;
use order_search::Stopped;
use outside::Source;
use std::alloc::Global;
use transcript_reader::{CheckError, Claim, MAX_TRANSCRIPT_LINES, Taken};
use unnoted_reader::{Unnoted, read_unnoted};

/// The most claims and members of a transcript, which has two lines more.
const MOST: usize = MAX_TRANSCRIPT_LINES as usize - 2;

fn line_at(places: &[u32], place: usize) -> u32
    requires { place < length places.now }
    ensures { slice_get places.now place ≡ Some result }
{
    places[place]
}

/// Whether a transcript may have so many claims and members.
fn has_room(claims: usize, members: usize) -> bool
    ensures { MatchBool result (claims + members + 2 ≤ MAX_TRANSCRIPT_LINES) ⊤ }
{
    claims <= MOST && members <= MOST - claims
}

// What the type says, as a fact.
fn are_bytes(bytes: &[u8])
    ensures { IsBytes bytes.now }
{
    let _bytes = bytes;
}

fn has_bytes(claim: &Claim)
    ensures { HasBytes (line_of claim.now) }
{
    if let Claim::Accepted { result, .. } = claim {
        are_bytes(result.as_slice());
    }
}

fn all_have_bytes(claims: &[Claim])
    ensures { AllHaveBytes (lines_of claims.now) }
{
    for claim in claims {
        has_bytes(claim);
    }
}

/// The claims in this order, where the transcript with it has no line too many.
fn in_order(claims: Vec<Claim>, places: Vec<usize>) -> Result<Answer, CheckError>
    ensures ok { IfOk result (λ answer. answer ≡ Answer.Order claims places) }
    ensures room { OnOk result (length claims.items + length places.items + 2
        ≤ MAX_TRANSCRIPT_LINES) }
    ensures bytes { AllHaveBytes (lines_of claims.items) }
    ensures err { IfErr result (λ e. e ≡ CheckError.NoMemory) }
{
    all_have_bytes(&claims);
    if !has_room(claims.len(), places.len()) {
        return Err(CheckError::NoMemory);
    }
    Ok(Answer::Order { claims, places })
}

/// What was found of claims, by the numbers of their lines.
fn in_lines(claims: Vec<Claim>, numbers: &[u32], found: Linearized) -> Result<Answer, CheckError>
    requires { NamesOneOf (length numbers.now) found }
    ensures { IsInLines claims numbers.now found result }
{
    match found {
        Linearized::Order(places) => in_order(claims, places),
        Linearized::Nothing { part, claim } => {
            let line = line_at(numbers, claim);
            Ok(Answer::NoOrder { part, line })
        }
        Linearized::Groundless(claim) => {
            let line = line_at(numbers, claim);
            Err(CheckError::Refuted { line, clause: 5 })
        }
        Linearized::Repeated(claim) => Ok(Answer::Repeated(line_at(numbers, claim))),
    }
}

/// What is found of claims, of which some accept a result that nobody noted: those with a mark.
fn answer_of<P: Parted>(
    alloc: Global,
    most: u64,
    claims: Vec<Claim>,
    marks: &[bool],
    numbers: &[u32],
) -> Result<Answer, CheckError>
    requires input { IsInput (lines_of claims.items) numbers.now }
    requires marks { length marks.now ≡ length claims.items }
    ensures right { IsRight P.Service.meaning P.part P.MAX_PARTS
        (unknown_in marks.now (lines_of claims.items)) (lines_of claims.items) numbers.now most
        result }
    ensures writable { IsWritable result }
{
    let mut left = most;
    match filled_order_of::<P>(alloc, claims, marks, &mut left) {
        Ok((claims, found)) => in_lines(claims, numbers, found),
        Err(Stopped::Spent) => Ok(Answer::Unknown(most)),
        Err(Stopped::NoMemory) => Err(CheckError::NoMemory),
    }
}

/// Reads a whole transcript, and finds an order of its claims in at most so many steps.
pub(crate) fn answer<P: Parted, S: Source>(
    alloc: Global,
    most: u64,
    source: &mut S,
) -> Result<Answer, CheckError>
    ensures answered { IsAnswered P.Service.meaning P.part P.MAX_PARTS most
        (S.left source.old) (S.left source.new) result }
    ensures writable { IsWritable result }
    ensures count { CountsFor (S.fault_count source.old) (S.fault_count source.new)
        CheckError.ReadFault result }
{
    let read = read_unnoted(alloc, source)?;
    let Unnoted { taken, marks } = read;
    let Taken {
        part: _part,
        claims,
        places,
        history: _history,
    } = taken;
    answer_of::<P>(alloc, most, claims, &marks, &places)
}
