//! Claims by parts.

ghost use Rattle.std.specs.Prelude.{◌≡◌, ◌++◌, ◌∷◌, ◌+◌, ◌<◌, ◌≤◌, [], List, ℕ, Some, slice_get, slice_set, length, IfOk, IfSome, IfNone, OnOk};
ghost use Rattle.execution_laws.specs.Legality.{SubmittedOnce};
ghost use Rattle.joined_orders.specs.Names.{names_of};
ghost use Rattle.joined_orders.specs.Splitting.{part_names, Adds, AreSplit, HasManyParts, IsAbout, IsNotedAt, IsOpOf, Takes};
ghost use Rattle.pairs.specs.Pairing.{ArePaired};
ghost use Rattle.pairs.specs.Said.{said_by};

use crate::borrowed::claim_at;
use crate::names::Names;
use crate::part::Part;
use fronts::Parted;
use nop_types::NoMemory;
use pairs::Pairs;
use std::alloc::Global;
use transcript_reader::Claim;

/// The place of the claim that submits what the one at this place accepts.
fn submit_of(pairs: &Pairs, place: usize) -> usize
    requires { (submit : ℕ) × (slice_get pairs.now.submits.items place ≡ Some (Some submit)) }
    ensures { slice_get pairs.now.submits.items place ≡ Some (Some result) }
{
    let Some(submit) = pairs.submits[place] else {
        unreachable!()
    };
    submit
}

/// The place of the claim that submits what the one at this place submits or accepts.
fn submit_at(claims: &[&Claim], pairs: &Pairs, place: usize) -> usize
    requires within { place < length claims.now }
    requires paired { ArePaired (said_by claims.now)
        (length claims.now) pairs.now.accepts.items pairs.now.submits.items }
    ensures { IsAbout (said_by claims.now) place result }
{
    match claim_at(claims, place) {
        Claim::Submitted(_) => place,
        Claim::Accepted { .. } => submit_of(pairs, place),
    }
}

/// The op that the claim at this place submits, or whose result it accepts.
fn op_at<'a>(claims: &[&'a Claim], pairs: &Pairs, place: usize) -> &'a [u8]
    requires within { place < length claims.now }
    requires paired { ArePaired (said_by claims.now)
        (length claims.now) pairs.now.accepts.items pairs.now.submits.items }
    ensures { IsOpOf (said_by claims.now) place result.now }
{
    let submit = submit_at(claims, pairs, place);
    let Claim::Submitted(request) = claim_at(claims, submit) else {
        unreachable!()
    };
    request.op.as_slice()
}

/// Adds a claim to the part of this number.
fn note(parts: &mut Vec<Part<'_>>, number: usize, place: usize) -> Result<(), NoMemory>
    requires { number < length parts.old.items }
    ensures { OnOk result (IsNotedAt parts.old.items parts.new.items number place) }
{
    parts[number].places.push(place)?;
    Ok(())
}

/// The first claims by parts.
#[derive(Drop)]
struct Split<'a> {
    alloc: Global,
    names: Names<'a>,
    parts: Vec<Part<'a>>,
}

impl<'a> Split<'a> {
    fn new(alloc: Global) -> Split<'a>
        ensures names { names_of result.names ≡ [] }
        ensures parts { result.parts.items ≡ [] }
    {
        Split {
            alloc,
            names: Names::new(alloc),
            parts: Vec::new(alloc),
        }
    }

    /// The number of a part, which is added if it is new.
    fn number(&mut self, name: &'a [u8]) -> Result<usize, NoMemory>
        requires { names_of self.old.names ≡ part_names self.old.parts.items }
        ensures names { OnOk result (names_of self.new.names ≡ part_names self.new.parts.items) }
        ensures there { IfOk result (λ n. slice_get (part_names self.new.parts.items) n
            ≡ Some name.now) }
        ensures parts { OnOk result (Adds self.old.parts.items self.new.parts.items name.now) }
    {
        let (number, is_new) = self.names.number(name)?;
        if is_new {
            self.parts.push(Part {
                name,
                places: Vec::new(self.alloc),
            })?;
        }
        Ok(number)
    }

    /// Adds the claim at this place, whose op is of this part.
    fn take(&mut self, place: usize, name: &'a [u8]) -> Result<(), NoMemory>
        requires { names_of self.old.names ≡ part_names self.old.parts.items }
        ensures names { OnOk result (names_of self.new.names ≡ part_names self.new.parts.items) }
        ensures parts { OnOk result (Takes
            self.old.parts.items self.new.parts.items name.now place) }
    {
        let number = self.number(name)?;
        note(&mut self.parts, number, place)?;
        Ok(())
    }
}

/// The claims by parts, in the order in which the parts come first; None where there are more than the service may have.
pub(crate) fn parts_of<'a, P: Parted>(
    alloc: Global,
    claims: &[&'a Claim],
    pairs: &Pairs,
) -> Result<Option<Vec<Part<'a>>>, NoMemory>
    requires once { SubmittedOnce (said_by claims.now) }
    requires paired { ArePaired (said_by claims.now)
        (length claims.now) pairs.now.accepts.items pairs.now.submits.items }
    ensures split { IfOk result (λ o. IfSome o (λ parts. AreSplit P.part
        (said_by claims.now) (length claims.now) parts.items)) }
    ensures few { IfOk result (λ o. IfSome o (λ parts. length parts.items ≤ P.MAX_PARTS)) }
    ensures many { IfOk result (λ o. IfNone o (HasManyParts
        P.part P.MAX_PARTS (said_by claims.now))) }
{
    let mut split = Split::new(alloc);
    for place in 0..claims.len() {
        let name = P::part_of(op_at(claims, pairs, place));
        split.take(place, name)?;
        if split.parts.len() > P::MAX_PARTS {
            return Ok(None);
        }
    }
    Ok(Some(split.parts))
}
