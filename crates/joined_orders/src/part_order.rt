//! An order of one part.

ghost use Rattle.std.specs.Prelude.{◌≡◌, ◌<◌, ◌≤◌, Err, length, map, filter, IfOk, All};
ghost use Rattle.execution_laws.specs.Legality.{SubmittedOnce};
ghost use Rattle.fronts.specs.Fronts.{AcceptedLater, HasOrder};
ghost use Rattle.joined_orders.specs.Joining.{moved, IsFoundOrder, IsPartOrder, LacksAt};
ghost use Rattle.joined_orders.specs.Owning.{is_own, places_where};
ghost use Rattle.nop_types.specs.Legality.{AcceptedOnce};
ghost use Rattle.order_search.specs.Bounds.{AcceptsAt};
ghost use Rattle.order_search.specs.Outcomes.{IfFound, IfNothing};
ghost use Rattle.pairs.specs.Pairing.{ArePaired};
ghost use Rattle.pairs.specs.Said.{said_by};

use crate::borrowed::claims_at;
use crate::part::Part;
use fronts::Parted;
use nop_types::NoMemory;
use order_search::{Outcome, Placed, Stopped, find_order};
use pairs::{Pairs, Unpaired, pairs_of};
use std::alloc::Global;
use transcript_reader::Claim;

/// The pairs of claims that have them.
fn pairs_of_good(alloc: Global, claims: &[&Claim]) -> Result<Pairs, NoMemory>
    requires submitted { SubmittedOnce (said_by claims.now) }
    requires accepted { AcceptedOnce (said_by claims.now) }
    requires later { AcceptedLater (said_by claims.now) }
    ensures { IfOk result (λ p. ArePaired (said_by claims.now)
        (length claims.now) p.accepts.items p.submits.items) }
{
    match pairs_of(alloc, claims) {
        Ok(pairs) => Ok(pairs),
        Err(Unpaired::NoMemory) => Err(NoMemory),
        Err(Unpaired::Repeated(_)) => unreachable!(),
        Err(Unpaired::Groundless(_)) => unreachable!(),
    }
}

/// What was placed among the claims at these places, by its places among all.
fn move_all(alloc: Global, places: &[usize], placed: &[Placed]) -> Result<Vec<Placed>, NoMemory>
    requires { All (λ p. (p.submit < length places.now) × (p.line < length places.now))
        placed.now }
    ensures { IfOk result (λ v. v.items ≡ map (moved places.now) placed.now) }
{
    let mut all = Vec::with_capacity(alloc, placed.len())?;
    for p in placed {
        all.push(Placed {
            submit: places[p.submit],
            line: places[p.line],
        })?;
    }
    Ok(all)
}

/// The claims of a part.
fn claims_of<'a, P: Parted>(
    alloc: Global,
    claims: &[&'a Claim],
    part: &Part<'_>,
) -> Result<Vec<&'a Claim>, NoMemory>
    requires { part.now.places.items ≡ places_where (is_own P.part
        (said_by claims.now) part.now.name.now) (said_by claims.now) (length claims.now) }
    ensures { IfOk result (λ v. said_by v.items ≡ filter (is_own P.part
        (said_by claims.now) part.now.name.now) (said_by claims.now)) }
{
    let own = claims_at(alloc, claims, part.places.as_slice())?;
    Ok(own)
}

/// An order of a part, by the places among its own claims.
fn own_order<P: Parted>(
    alloc: Global,
    claims: &[&Claim],
    part: &Part<'_>,
    left: &mut u64,
) -> Result<Outcome, Stopped>
    requires submitted { SubmittedOnce (said_by claims.now) }
    requires accepted { AcceptedOnce (said_by claims.now) }
    requires later { AcceptedLater (said_by claims.now) }
    requires places { part.now.places.items ≡ places_where (is_own P.part
        (said_by claims.now) part.now.name.now) (said_by claims.now) (length claims.now) }
    ensures found { IfOk result (λ o. IfFound o (IsFoundOrder P.Service.meaning (filter (is_own
        P.part (said_by claims.now) part.now.name.now) (said_by claims.now)))) }
    ensures none { IfOk result (λ o. IfNothing o (LacksAt P.Service.meaning (filter (is_own
        P.part (said_by claims.now) part.now.name.now) (said_by claims.now)))) }
    ensures spent { result ≡ Err Stopped.Spent → left.new ≡ 0 }
    ensures left { left.new ≤ left.old }
{
    let own = claims_of::<P>(alloc, claims, part)?;
    let pairs = pairs_of_good(alloc, own.as_slice())?;
    let outcome = find_order::<P>(alloc, own.as_slice(), &pairs, left)?;
    Ok(outcome)
}

/// An order of a part, by the places among all claims.
pub(crate) fn order_of_part<P: Parted>(
    alloc: Global,
    claims: &[&Claim],
    part: &Part<'_>,
    left: &mut u64,
) -> Result<Outcome, Stopped>
    requires submitted { SubmittedOnce (said_by claims.now) }
    requires accepted { AcceptedOnce (said_by claims.now) }
    requires later { AcceptedLater (said_by claims.now) }
    requires places { part.now.places.items ≡ places_where (is_own P.part
        (said_by claims.now) part.now.name.now) (said_by claims.now) (length claims.now) }
    ensures found { IfOk result (λ o. IfFound o (IsPartOrder P.Service.meaning P.part
        (said_by claims.now) part.now.name.now)) }
    ensures none { IfOk result (λ o. IfNothing o (λ k. HasOrder P.Service.meaning (filter (is_own
        P.part (said_by claims.now) part.now.name.now) (said_by claims.now)) → ⊥)) }
    ensures within { IfOk result (λ o. IfNothing o (λ k. k < length claims.now)) }
    ensures accepts { IfOk result (λ o. IfNothing o (AcceptsAt (said_by claims.now))) }
    ensures spent { result ≡ Err Stopped.Spent → left.new ≡ 0 }
    ensures left { left.new ≤ left.old }
{
    let places = part.places.as_slice();
    match own_order::<P>(alloc, claims, part, left)? {
        Outcome::Found(placed) => {
            let order = move_all(alloc, places, placed.as_slice())?;
            Ok(Outcome::Found(order))
        }
        Outcome::Nothing(line) => Ok(Outcome::Nothing(part.places[line])),
    }
}
