//! Which requests may be placed at once, where their answers agree.

ghost use Rattle.std.specs.Prelude.{◌≡◌, IfOk, length, true};
ghost use Rattle.fronts.specs.Fronts.{OnlyReads};
ghost use Rattle.nop_types.specs.Lines.{Submit};
ghost use Rattle.nop_types.specs.declared.request.Request.{Request};
ghost use Rattle.order_search.specs.Reads.{AreReads};
ghost use Rattle.pairs.specs.Pairing.{ArePaired};
ghost use Rattle.pairs.specs.Said.{said_by};
ghost use Rattle.transcript_reader.specs.Claims.{line_of};

use crate::claims::claim_at;
use fronts::Parted;
use nop_types::NoMemory;
use pairs::Pairs;
use std::alloc::Global;
use transcript_reader::Claim;

/// Whether the claim submits an op that is known to change nothing, and whose result is accepted.
fn is_read<P: Parted>(claim: &Claim, accept: Option<usize>) -> bool
    ensures { result ≡ true → (r : Request) → line_of claim.now ≡ Submit r
        → OnlyReads P.Service.meaning r.op }
{
    match claim {
        Claim::Submitted(request) => accept.is_some() && P::only_reads(request.op.as_slice()),
        Claim::Accepted { .. } => false,
    }
}

/// For each claim whether it submits a request that only reads and is accepted.
pub(crate) fn reads_of<P: Parted>(
    alloc: Global,
    claims: &[&Claim],
    pairs: &Pairs,
) -> Result<Vec<bool>, NoMemory>
    requires paired { ArePaired (said_by claims.now)
        (length claims.now) pairs.now.accepts.items pairs.now.submits.items }
    ensures { IfOk result (λ reads. AreReads P.Service.meaning
        (said_by claims.now) (length claims.now) reads.items) }
{
    let mut reads = Vec::with_capacity(alloc, claims.len())?;
    for i in 0..claims.len() {
        reads.push(is_read::<P>(claim_at(claims, i), pairs.accepts[i]))?;
    }
    Ok(reads)
}
