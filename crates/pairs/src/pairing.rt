ghost use Rattle.std.specs.Prelude.{◌≡◌, ◌+◌, ◌<◌, ℕ, List, Some, length, slice_get, IfOk, OnOk, IfErr};
ghost use Rattle.execution_laws.specs.Legality.{SubmittedOnce};
ghost use Rattle.fronts.specs.Fronts.{AcceptedLater};
ghost use Rattle.nop_types.specs.Legality.{AcceptedOnce};
ghost use Rattle.nop_types.specs.Lines.{Line, Submit, Accept};
ghost use Rattle.pairs.specs.Pairing.{ArePaired, IsPairing};
ghost use Rattle.pairs.specs.Said.{said_by};
ghost use Rattle.pairs.specs.Stops.{StopsAt};
ghost use Rattle.pairs.specs.Submitted.{place_in};

use crate::submitted::Submitted;
use crate::unpaired::Unpaired;
use nop_types::Request;
use std::alloc::Global;
use transcript_reader::Claim;

/// Which claims submit and accept the same client and id.
#[derive(Drop)]
pub struct Pairs {
    /// For each claim that submits the place of the one that accepts, if there is one.
    pub accepts: Vec<Option<usize>>,
    /// For each claim that accepts the place of the one that submits.
    pub submits: Vec<Option<usize>>,
}

/// The pairs among the first claims.
#[derive(Drop)]
struct Pairing {
    submitted: Submitted,
    pairs: Pairs,
}

impl Pairing {
    fn new(alloc: Global) -> Pairing
        ensures { (lines : List Line) → IsPairing lines 0 (place_in result.submitted)
            result.pairs.accepts.items result.pairs.submits.items }
    {
        Pairing {
            submitted: Submitted::new(alloc),
            pairs: Pairs {
                accepts: Vec::new(alloc),
                submits: Vec::new(alloc),
            },
        }
    }

    /// The claim at this place submits the request.
    fn take_submit(
        &mut self,
        claims: &[&Claim],
        place: usize,
        request: &Request,
    ) -> Result<(), Unpaired>
        requires line { slice_get (said_by claims.now) place ≡ Some (Submit request.now) }
        requires pairing { IsPairing (said_by claims.now) place (place_in self.old.submitted)
            self.old.pairs.accepts.items self.old.pairs.submits.items }
        ensures ok { OnOk result (IsPairing (said_by claims.now) (place + 1)
            (place_in self.new.submitted)
            self.new.pairs.accepts.items self.new.pairs.submits.items) }
        ensures err { IfErr result (StopsAt (said_by claims.now)) }
    {
        if self.submitted.find(request.client, request.id).is_some() {
            return Err(Unpaired::Repeated(place));
        }
        self.submitted.note(request.client, request.id, place)?;
        self.pairs.accepts.push(None)?;
        self.pairs.submits.push(None)?;
        Ok(())
    }

    /// The claim at this place accepts a result of this client and id.
    fn take_accept(
        &mut self,
        claims: &[&Claim],
        place: usize,
        client: u32,
        id: u64,
    ) -> Result<(), Unpaired>
        requires line { (result : List ℕ)
            × (slice_get (said_by claims.now) place ≡ Some (Accept client id result)) }
        requires pairing { IsPairing (said_by claims.now) place (place_in self.old.submitted)
            self.old.pairs.accepts.items self.old.pairs.submits.items }
        ensures ok { OnOk result (IsPairing (said_by claims.now) (place + 1)
            (place_in self.new.submitted)
            self.new.pairs.accepts.items self.new.pairs.submits.items) }
        ensures err { IfErr result (StopsAt (said_by claims.now)) }
    {
        let Some(submit) = self.submitted.find(client, id) else {
            return Err(Unpaired::Groundless(place));
        };
        if self.pairs.accepts[submit].is_some() {
            return Err(Unpaired::Groundless(place));
        }
        self.pairs.accepts[submit] = Some(place);
        self.pairs.accepts.push(None)?;
        self.pairs.submits.push(Some(submit))?;
        Ok(())
    }

    fn take(&mut self, claims: &[&Claim], place: usize) -> Result<(), Unpaired>
        requires place { place < length claims.now }
        requires pairing { IsPairing (said_by claims.now) place (place_in self.old.submitted)
            self.old.pairs.accepts.items self.old.pairs.submits.items }
        ensures ok { OnOk result (IsPairing (said_by claims.now) (place + 1)
            (place_in self.new.submitted)
            self.new.pairs.accepts.items self.new.pairs.submits.items) }
        ensures err { IfErr result (StopsAt (said_by claims.now)) }
    {
        let claim = claims[place];
        match claim {
            Claim::Submitted(request) => self.take_submit(claims, place, request),
            Claim::Accepted { client, id, .. } => self.take_accept(claims, place, *client, *id),
        }
    }
}

/// The pairs of claims, in one pass; or the first claim that submits what was submitted, or accepts what was not or is accepted.
pub fn pairs_of(alloc: Global, claims: &[&Claim]) -> Result<Pairs, Unpaired>
    ensures paired { IfOk result (λ p. ArePaired (said_by claims.now)
        (length claims.now) p.accepts.items p.submits.items) }
    ensures submitted { OnOk result (SubmittedOnce (said_by claims.now)) }
    ensures accepted { OnOk result (AcceptedOnce (said_by claims.now)) }
    ensures later { OnOk result (AcceptedLater (said_by claims.now)) }
    ensures err { IfErr result (StopsAt (said_by claims.now)) }
{
    let mut pairing = Pairing::new(alloc);
    for place in 0..claims.len() {
        pairing.take(claims, place)?;
    }
    Ok(pairing.pairs)
}
