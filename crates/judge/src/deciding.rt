ghost use Rattle.std.specs.Prelude.{OnOk, IfErr};
ghost use Rattle.nop_types.specs.Legality.{Legal};
ghost use Rattle.judge.specs.Breaks.{Breaks};
ghost use Rattle.transcript_reader.specs.Claims.{lines_of};

use crate::answers::answers_to;
use crate::broken::Broken;
use crate::founded::check_grounds;
use crate::members::places_of;
use crate::ordered::check_order;
use crate::submitted::check_members;
use nop_types::{Host, Request};
use std::alloc::Global;
use transcript_reader::Claim;

/// Whether the history is legal for the claims; else the first rule that is broken, and the first place that breaks it.
pub fn decide<H: Host>(alloc: Global, claims: &[Claim], history: &[Request]) -> Result<(), Broken>
    ensures ok { OnOk result (Legal H.meaning (lines_of claims.now) history.now) }
    ensures err { IfErr result (Breaks H.meaning (lines_of claims.now) history.now) }
{
    let places = places_of(alloc, history)?;
    check_members(alloc, claims, history, &places)?;
    let answers = answers_to::<H>(alloc, history)?;
    check_grounds::<H>(alloc, claims, history, &places, &answers)?;
    check_order(claims, history, &places)
}
