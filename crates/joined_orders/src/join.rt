//! Orders of parts, joined.

ghost use Rattle.std.specs.Prelude.{◌≡◌, ◌++◌, ◌≤◌, Err, List, length, IfOk, OnOk};
ghost use Rattle.execution_laws.specs.Legality.{SubmittedOnce};
ghost use Rattle.fronts.specs.Fronts.{AcceptedLater};
ghost use Rattle.joined_orders.specs.Answers.{IsAnswer};
ghost use Rattle.joined_orders.specs.Joining.{IsSortedOf};
ghost use Rattle.joined_orders.specs.Splitting.{AreSplit};
ghost use Rattle.nop_types.specs.Legality.{AcceptedOnce};
ghost use Rattle.order_search.specs.Outcomes.{submits_of};
ghost use Rattle.order_search.specs.declared.outcome.Placed.{Placed};
ghost use Rattle.pairs.specs.Said.{said_by};

use crate::linearized::Linearized;
use crate::part::Part;
use crate::part_order::order_of_part;
use fronts::Parted;
use nop_types::NoMemory;
use order_search::{Outcome, Placed, Stopped};
use std::alloc::Global;
use transcript_reader::Claim;

fn append(placed: &mut Vec<Placed>, order: &[Placed]) -> Result<(), NoMemory>
    ensures { OnOk result (placed.new.items ≡ placed.old.items ++ order.now) }
{
    placed.extend_from_slice(order)?;
    Ok(())
}

fn copied(alloc: Global, name: &[u8]) -> Result<Vec<u8>, NoMemory>
    ensures { IfOk result (λ v. v.items ≡ name.now) }
{
    Ok(name.to_vec(alloc)?)
}

/// Sorts what was placed by lines; what has one line stays in its order.
fn sort_by_lines(placed: &mut Vec<Placed>) -> Result<(), NoMemory>
    ensures { OnOk result (IsSortedOf placed.old.items placed.new.items) }
{
    placed.sort_by_key(|p| p.line)?;
    Ok(())
}

/// The places of the claims that submit what was placed.
pub(crate) fn submits(alloc: Global, placed: &[Placed]) -> Result<Vec<usize>, NoMemory>
    ensures { IfOk result (λ v. v.items ≡ submits_of placed.now) }
{
    Ok(placed.iter().map(|p| p.submit).collect(alloc)?)
}

/// The places of the claims that submit what was placed, by the lines.
fn submits_by_lines(alloc: Global, placed: &mut Vec<Placed>) -> Result<Vec<usize>, NoMemory>
    ensures { IfOk result (λ v. (sorted : List Placed)
        × IsSortedOf placed.old.items sorted × (v.items ≡ submits_of sorted)) }
{
    sort_by_lines(placed)?;
    submits(alloc, placed.as_slice())
}

/// The orders of parts, joined by the lines at which requests were placed.
pub(crate) fn order_by_parts<P: Parted>(
    alloc: Global,
    claims: &[&Claim],
    parts: &[Part<'_>],
    left: &mut u64,
) -> Result<Linearized, Stopped>
    requires submitted { SubmittedOnce (said_by claims.now) }
    requires accepted { AcceptedOnce (said_by claims.now) }
    requires later { AcceptedLater (said_by claims.now) }
    requires split { AreSplit P.part (said_by claims.now) (length claims.now) parts.now }
    requires few { length parts.now ≤ P.MAX_PARTS }
    ensures answer { IfOk result (IsAnswer
        P.Service.meaning P.part P.MAX_PARTS (said_by claims.now)) }
    ensures spent { result ≡ Err Stopped.Spent → left.new ≡ 0 }
    ensures left { left.new ≤ left.old }
{
    let mut placed = Vec::new(alloc);
    for part in parts {
        match order_of_part::<P>(alloc, claims, part, left)? {
            Outcome::Found(order) => append(&mut placed, order.as_slice())?,
            Outcome::Nothing(claim) => {
                let part = copied(alloc, part.name)?;
                return Ok(Linearized::Nothing { part, claim });
            }
        }
    }
    let places = submits_by_lines(alloc, &mut placed)?;
    Ok(Linearized::Order(places))
}
