//! An order of claims.

ghost use Rattle.std.specs.Prelude.{◌≡◌, ◌<◌, ◌≤◌, Err, length, IfOk};
ghost use Rattle.execution_laws.specs.Legality.{SubmittedOnce};
ghost use Rattle.fronts.specs.Fronts.{AcceptedLater, HasOrder};
ghost use Rattle.joined_orders.specs.Answers.{IfGroundless, IfNothing, IfOrder, IfRepeated, IsAnswer, LacksOrder};
ghost use Rattle.joined_orders.specs.Splitting.{HasManyParts};
ghost use Rattle.nop_types.specs.Legality.{AcceptedOnce, Legal};
ghost use Rattle.order_search.specs.Bounds.{AcceptsAt};
ghost use Rattle.order_search.specs.Turns.{AllSubmit, history_at};
ghost use Rattle.pairs.specs.Pairing.{ArePaired};
ghost use Rattle.pairs.specs.Said.{said_by};
ghost use Rattle.pairs.specs.Stops.{AreGood, IsGroundless, IsRepeat};
ghost use Rattle.transcript_reader.specs.Claims.{lines_of};

use crate::borrowed::borrow_all;
use crate::join::{order_by_parts, submits};
use crate::linearized::Linearized;
use crate::split::parts_of;
use fronts::Parted;
use order_search::{Outcome, Stopped, find_order};
use pairs::{Pairs, Unpaired, pairs_of};
use std::alloc::Global;
use transcript_reader::Claim;

/// An order of claims of too many parts, as one part.
fn order_of_all<P: Parted>(
    alloc: Global,
    claims: &[&Claim],
    pairs: &Pairs,
    left: &mut u64,
) -> Result<Linearized, Stopped>
    requires submitted { SubmittedOnce (said_by claims.now) }
    requires accepted { AcceptedOnce (said_by claims.now) }
    requires later { AcceptedLater (said_by claims.now) }
    requires paired { ArePaired (said_by claims.now)
        (length claims.now) pairs.now.accepts.items pairs.now.submits.items }
    requires many { HasManyParts P.part P.MAX_PARTS (said_by claims.now) }
    ensures answer { IfOk result (IsAnswer
        P.Service.meaning P.part P.MAX_PARTS (said_by claims.now)) }
    ensures spent { result ≡ Err Stopped.Spent → left.new ≡ 0 }
    ensures left { left.new ≤ left.old }
{
    match find_order::<P>(alloc, claims, pairs, left)? {
        Outcome::Found(placed) => {
            let places = submits(alloc, placed.as_slice())?;
            Ok(Linearized::Order(places))
        }
        Outcome::Nothing(claim) => Ok(Linearized::Nothing {
            part: Vec::new(alloc),
            claim,
        }),
    }
}

/// An order of claims that have pairs.
fn order_of_paired<P: Parted>(
    alloc: Global,
    claims: &[&Claim],
    pairs: &Pairs,
    left: &mut u64,
) -> Result<Linearized, Stopped>
    requires submitted { SubmittedOnce (said_by claims.now) }
    requires accepted { AcceptedOnce (said_by claims.now) }
    requires later { AcceptedLater (said_by claims.now) }
    requires paired { ArePaired (said_by claims.now)
        (length claims.now) pairs.now.accepts.items pairs.now.submits.items }
    ensures answer { IfOk result (IsAnswer
        P.Service.meaning P.part P.MAX_PARTS (said_by claims.now)) }
    ensures spent { result ≡ Err Stopped.Spent → left.new ≡ 0 }
    ensures left { left.new ≤ left.old }
{
    match parts_of::<P>(alloc, claims, pairs)? {
        Some(parts) => order_by_parts::<P>(alloc, claims, parts.as_slice(), left),
        None => order_of_all::<P>(alloc, claims, pairs, left),
    }
}

fn order_of_borrowed<P: Parted>(
    alloc: Global,
    claims: &[&Claim],
    left: &mut u64,
) -> Result<Linearized, Stopped>
    ensures answer { IfOk result (IsAnswer
        P.Service.meaning P.part P.MAX_PARTS (said_by claims.now)) }
    ensures spent { result ≡ Err Stopped.Spent → left.new ≡ 0 }
    ensures left { left.new ≤ left.old }
{
    match pairs_of(alloc, claims) {
        Ok(pairs) => order_of_paired::<P>(alloc, claims, &pairs, left),
        Err(Unpaired::Repeated(claim)) => Ok(Linearized::Repeated(claim)),
        Err(Unpaired::Groundless(claim)) => Ok(Linearized::Groundless(claim)),
        Err(Unpaired::NoMemory) => Err(Stopped::NoMemory),
    }
}

/// Finds an order of claims in at most as many steps as are left, or that there is none. A step passes a claim, tries a request, or
/// takes one back.
///
/// # Errors
///
/// `Spent`: no steps are left, and nothing is decided. `NoMemory`.
pub fn order_of<P: Parted>(
    alloc: Global,
    claims: &[Claim],
    left: &mut u64,
) -> Result<Linearized, Stopped>
    ensures found { IfOk result (λ a. IfOrder a (λ places. Legal P.Service.meaning
        (lines_of claims.now) (history_at (lines_of claims.now) places))) }
    ensures places { IfOk result (λ a. IfOrder a (AllSubmit (lines_of claims.now))) }
    ensures none { IfOk result (λ a. IfNothing a (λ part claim. HasOrder P.Service.meaning
        (lines_of claims.now) → ⊥)) }
    ensures within { IfOk result (λ a. IfNothing a (λ part claim. claim < length claims.now)) }
    ensures accepts { IfOk result (λ a. IfNothing a (λ part claim. AcceptsAt
        (lines_of claims.now) claim)) }
    ensures part { IfOk result (λ a. IfNothing a (λ part claim. LacksOrder P.Service.meaning
        P.part P.MAX_PARTS (lines_of claims.now) part)) }
    ensures groundless { IfOk result (λ a. IfGroundless a (λ claim.
        IsGroundless (lines_of claims.now) claim × AreGood (lines_of claims.now) claim)) }
    ensures repeated { IfOk result (λ a. IfRepeated a (λ claim.
        IsRepeat (lines_of claims.now) claim × AreGood (lines_of claims.now) claim)) }
    ensures spent { result ≡ Err Stopped.Spent → left.new ≡ 0 }
    ensures left { left.new ≤ left.old }
{
    let all = borrow_all(alloc, claims)?;
    let answer = order_of_borrowed::<P>(alloc, all.as_slice(), left)?;
    Ok(answer)
}
