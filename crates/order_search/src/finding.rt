//! The search as a whole: step by step, while steps are left.

ghost use Rattle.std.specs.Prelude.{◌≡◌, ◌+◌, ◌<◌, ◌≤◌, All, Err, OnOk, IfOk, length, max};
ghost use Rattle.execution_laws.specs.Legality.{SubmittedOnce};
ghost use Rattle.fronts.specs.Fronts.{AcceptedLater, HasOrder};
ghost use Rattle.fronts.specs.Parts.{AreTimed};
ghost use Rattle.nop_types.specs.Legality.{AcceptedOnce, Legal};
ghost use Rattle.order_search.specs.Bounds.{most_steps, AcceptsAt};
ghost use Rattle.order_search.specs.Outcomes.{submits_of, time_of, IfFound, IfNothing};
ghost use Rattle.order_search.specs.Turns.{AllSubmit, history_at};
ghost use Rattle.pairs.specs.Pairing.{ArePaired};
ghost use Rattle.pairs.specs.Said.{said_by};

use crate::outcome::Outcome;
use crate::reads::reads_of;
use crate::search::Search;
use crate::stopped::Stopped;
use crate::turning::Turn;
use fronts::Parted;
use pairs::Pairs;
use std::alloc::Global;
use transcript_reader::Claim;

/// The one of two places that is further.
fn further(furthest: usize, line: usize) -> usize
    ensures { result ≡ max furthest line }
{
    line.max(furthest)
}

/// Finds an order of the claims, or that there is none, in at most as many steps as are left; Spent
/// where these do not suffice. A step passes a claim, tries a request, places all reads that agree,
/// or takes a request back.
pub fn find_order<P: Parted>(
    alloc: Global,
    claims: &[&Claim],
    pairs: &Pairs,
    left: &mut u64,
) -> Result<Outcome, Stopped>
    requires submitted { SubmittedOnce (said_by claims.now) }
    requires accepted { AcceptedOnce (said_by claims.now) }
    requires later { AcceptedLater (said_by claims.now) }
    requires paired { ArePaired (said_by claims.now)
        (length claims.now) pairs.now.accepts.items pairs.now.submits.items }
    ensures found { IfOk result (λ o. IfFound o (λ placed. Legal P.Service.meaning
        (said_by claims.now) (history_at (said_by claims.now) (submits_of placed)))) }
    ensures places { IfOk result (λ o. IfFound o (λ placed. AllSubmit
        (said_by claims.now) (submits_of placed))) }
    ensures timed { IfOk result (λ o. IfFound o (λ placed. AreTimed (said_by claims.now)
        (history_at (said_by claims.now) (submits_of placed)) (time_of placed))) }
    ensures within { IfOk result (λ o. IfFound o (λ placed. All (λ p.
        (p.submit < length claims.now) × (p.line < length claims.now)) placed)) }
    ensures none { IfOk result (λ o. IfNothing o (λ k. HasOrder P.Service.meaning
        (said_by claims.now) → ⊥)) }
    ensures furthest { IfOk result (λ o. IfNothing o (λ k. k < length claims.now)) }
    ensures accepts { IfOk result (λ o. IfNothing o (AcceptsAt (said_by claims.now))) }
    ensures spent { result ≡ Err Stopped.Spent → left.new ≡ 0 }
    ensures few { result ≡ Err Stopped.Spent → left.old < most_steps (said_by claims.now) }
    ensures used { OnOk result (left.old ≤ left.new + most_steps (said_by claims.now)) }
    ensures left { left.new ≤ left.old }
{
    let reads = reads_of::<P>(alloc, claims, pairs)?;
    let mut search = Search::<P::Service>::new(alloc, claims)?;
    let mut furthest = 0;
    while *left > 0 {
        *left -= 1;
        furthest = further(furthest, search.line);
        match search.turn(claims, pairs, reads.as_slice())? {
            Turn::Going => {}
            Turn::Found => return Ok(Outcome::Found(search.order(alloc)?)),
            Turn::Nothing => return Ok(Outcome::Nothing(furthest)),
        }
    }
    Err(Stopped::Spent)
}
