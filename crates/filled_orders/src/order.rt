//! An order of claims whose results are not all known.

ghost use Rattle.std.specs.Prelude.{◌≡◌, ◌≤◌, ℕ, Err, Some, false, true, length, map, slice_get, IfErr, IfOk, OnOk};
ghost use Rattle.execution_laws.specs.Legality.{SubmittedOnce};
ghost use Rattle.filled_orders.specs.FilledAnswers.{IsFilledAnswer, IsSaid};
ghost use Rattle.fronts.specs.Fronts.{AcceptedLater};
ghost use Rattle.nop_types.specs.Legality.{AcceptedOnce};
ghost use Rattle.pairs.specs.Pairing.{ArePaired};
ghost use Rattle.pairs.specs.Said.{said_by};
ghost use Rattle.pairs.specs.Stops.{StopsAt};
ghost use Rattle.transcript_reader.specs.Claims.{lines_of};
ghost use Rattle.unknown_results.specs.AnyResults.{any_result};
ghost use Rattle.unknown_results.specs.Asking.{asked_line, unknown_in, without_first};

use crate::asking::asked_claims;
use crate::filling::fill_answers;
use fronts::Parted;
use joined_orders::{Linearized, order_of};
use nop_types::NoMemory;
use order_search::Stopped;
use pairs::{Pairs, Unpaired, pairs_of};
use std::alloc::Global;
use transcript_reader::Claim;
use unknown_results::AnyResultOf;

/// All claims, borrowed.
fn borrow_all<'a>(alloc: Global, claims: &'a [Claim]) -> Result<Vec<&'a Claim>, NoMemory>
    ensures { IfOk result (λ v. said_by v.items ≡ lines_of claims.now) }
{
    let mut all = Vec::with_capacity(alloc, claims.len())?;
    for claim in claims {
        all.push(claim)?;
    }
    Ok(all)
}

/// The pairs of claims.
fn pairs_in(alloc: Global, claims: &[Claim]) -> Result<Pairs, Unpaired>
    ensures paired { IfOk result (λ p. ArePaired (lines_of claims.now) (length claims.now)
        p.accepts.items p.submits.items) }
    ensures submitted { OnOk result (SubmittedOnce (lines_of claims.now)) }
    ensures accepted { OnOk result (AcceptedOnce (lines_of claims.now)) }
    ensures later { OnOk result (AcceptedLater (lines_of claims.now)) }
    ensures err { IfErr result (StopsAt (lines_of claims.now)) }
{
    let all = borrow_all(alloc, claims)?;
    pairs_of(alloc, all.as_slice())
}

/// What is found of claims that have pairs, by what is found of what is asked in their place; and the claims with the results that were
/// found.
fn filled<P: Parted>(
    alloc: Global,
    mut claims: Vec<Claim>,
    pairs: &Pairs,
    marks: &[bool],
    found: Linearized,
) -> Result<(Vec<Claim>, Linearized), NoMemory>
    requires whole { length marks.now ≡ length claims.items }
    requires submitted { SubmittedOnce (lines_of claims.items) }
    requires accepted { AcceptedOnce (lines_of claims.items) }
    requires later { AcceptedLater (lines_of claims.items) }
    requires paired { ArePaired (lines_of claims.items) (length claims.items)
        pairs.now.accepts.items pairs.now.submits.items }
    requires said { IsSaid (any_result P.Service.meaning) (λ op. P.part (without_first op))
        P.MAX_PARTS (map (asked_line (unknown_in marks.now (lines_of claims.items)))
        (lines_of claims.items)) found }
    ensures { IfOk result (λ r. IsFilledAnswer P.Service.meaning P.part P.MAX_PARTS
        (unknown_in marks.now (lines_of claims.items)) (lines_of claims.items)
        (lines_of r.0.items) r.1) }
{
    match found {
        Linearized::Order(places) => {
            fill_answers::<P::Service>(alloc, &mut claims, pairs, marks, &places)?;
            Ok((claims, Linearized::Order(places)))
        }
        Linearized::Nothing { part, claim } => Ok((claims, Linearized::Nothing { part, claim })),
        Linearized::Groundless(_claim) => unreachable!(),
        Linearized::Repeated(_claim) => unreachable!(),
    }
}

/// What is found of claims that have pairs, and the claims with the results that were found.
fn order_of_paired<P: Parted>(
    alloc: Global,
    claims: Vec<Claim>,
    pairs: &Pairs,
    marks: &[bool],
    left: &mut u64,
) -> Result<(Vec<Claim>, Linearized), Stopped>
    requires whole { length marks.now ≡ length claims.items }
    requires submitted { SubmittedOnce (lines_of claims.items) }
    requires accepted { AcceptedOnce (lines_of claims.items) }
    requires later { AcceptedLater (lines_of claims.items) }
    requires paired { ArePaired (lines_of claims.items) (length claims.items)
        pairs.now.accepts.items pairs.now.submits.items }
    ensures answer { IfOk result (λ r. IsFilledAnswer P.Service.meaning P.part P.MAX_PARTS
        (unknown_in marks.now (lines_of claims.items)) (lines_of claims.items)
        (lines_of r.0.items) r.1) }
    ensures spent { result ≡ Err Stopped.Spent → left.new ≡ 0 }
    ensures left { left.new ≤ left.old }
{
    let asked = asked_claims(alloc, &claims, pairs, marks)?;
    let found = order_of::<AnyResultOf<P>>(alloc, &asked, left)?;
    Ok(filled::<P>(alloc, claims, pairs, marks, found)?)
}

/// Whether a claim has a mark.
fn has_mark(marks: &[bool]) -> bool
    ensures { result ≡ false → (k : ℕ) → slice_get marks.now k ≡ Some true → ⊥ }
{
    for mark in marks {
        if *mark {
            return true;
        }
    }
    false
}

/// Finds an order of claims in at most as many steps as are left, or that there is none, whatever the results are that the claims with a
/// mark accept. With an order come the claims with the answers along it in place of these results. An op of `MAX_OP_BYTES` has no room
/// for the byte that a search needs where there are marks: the answer is NoMemory.
///
/// # Errors
///
/// `Spent`: no steps are left, and nothing is decided. `NoMemory`.
pub fn filled_order_of<P: Parted>(
    alloc: Global,
    claims: Vec<Claim>,
    marks: &[bool],
    left: &mut u64,
) -> Result<(Vec<Claim>, Linearized), Stopped>
    requires { length marks.now ≡ length claims.items }
    ensures answer { IfOk result (λ r. IsFilledAnswer P.Service.meaning P.part P.MAX_PARTS
        (unknown_in marks.now (lines_of claims.items)) (lines_of claims.items)
        (lines_of r.0.items) r.1) }
    ensures spent { result ≡ Err Stopped.Spent → left.new ≡ 0 }
    ensures left { left.new ≤ left.old }
{
    if !has_mark(marks) {
        let found = order_of::<P>(alloc, &claims, left)?;
        return Ok((claims, found));
    }
    match pairs_in(alloc, &claims) {
        Ok(pairs) => order_of_paired::<P>(alloc, claims, &pairs, marks, left),
        Err(Unpaired::Repeated(claim)) => Ok((claims, Linearized::Repeated(claim))),
        Err(Unpaired::Groundless(claim)) => Ok((claims, Linearized::Groundless(claim))),
        Err(Unpaired::NoMemory) => Err(Stopped::NoMemory),
    }
}
